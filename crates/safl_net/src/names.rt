//! Names of signals and outputs.

ghost use Rattle.std.specs.Prelude.{◌≡◌};
ghost use Rattle.safl_net.specs.Names.{is_good, is_identifier, is_reserved, is_start, is_part, are_parts};

use safl_word::limits::NET_NAME_MAX;

/// Whether a name is good: a letter or `_`, then letters, digits, `_` and `$`; at most `NET_NAME_MAX` bytes; and none of
/// the Verilog words that a written netlist uses.
#[tactic(auto, unfolding(crate::specs::Names::is_good))]
pub fn is_good_name(name: &str) -> bool
    ensures { result ≡ is_good name.now }
{
    is_identifier(name.as_bytes()) && name.len() <= NET_NAME_MAX && !is_reserved(name)
}

fn is_identifier(bytes: &[u8]) -> bool
    ensures { result ≡ is_identifier bytes.now }
{
    match bytes {
        [] => false,
        [first, rest @ ..] => is_start(*first) && are_parts(rest),
    }
}

fn are_parts(bytes: &[u8]) -> bool
    ensures { result ≡ are_parts bytes.now }
{
    for b in bytes {
        if !is_part(*b) {
            return false;
        }
    }
    true
}

fn is_start(b: u8) -> bool
    ensures { result ≡ is_start b }
{
    b.is_ascii_uppercase() || b.is_ascii_lowercase() || b == b'_'
}

fn is_part(b: u8) -> bool
    ensures { result ≡ is_part b }
{
    is_start(b) || b.is_ascii_digit() || b == b'$'
}

#[tactic(auto, unfolding(crate::specs::Names::is_reserved))]
fn is_reserved(name: &str) -> bool
    ensures { result ≡ is_reserved name.now }
{
    matches!(
        name,
        "clk"
            | "rst"
            | "module"
            | "endmodule"
            | "input"
            | "output"
            | "reg"
            | "wire"
            | "assign"
            | "always"
            | "posedge"
            | "if"
            | "else"
    )
}
