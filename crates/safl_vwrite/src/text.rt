//! The whole Verilog text of a net.

ghost use Rattle.std.specs.Prelude.{◌≡◌, ◌≤◌, ℕ, List, ◌++◌, length, IfOk};
ghost use Rattle.safl_net.specs.Whole.{IsWhole};
ghost use Rattle.safl_net.specs.Written.{written};
ghost use Rattle.safl_net.specs.Arranged.{IsInOrder};
ghost use Rattle.safl_verilog.specs.Reads.{Reads};
ghost use Rattle.safl_vwrite.specs.Sizes.{text_max};
ghost use Rattle.safl_vwrite.specs.Torn.{IsTornOrWhole};

use crate::declarations::{push_declarations, push_header};
use crate::pieces::push;
use crate::statements::push_statements;
use safl_net::Net;
use safl_verilog::laws::{no_shorter_text_law, written_reads_law};
use safl_word::NoMemory;
use std::alloc::Global;

/// The Verilog text of a net: at most 1,200 bytes for each signal and each output, and 1,200 more.
#[tactic(auto, unfolding(safl_net::specs::Written::written))]
pub fn text_of(alloc: Global, net: &Net) -> Result<Vec<u8>, NoMemory>
    ensures written { IfOk result (λ text. text.items ≡ written net.now) }
    ensures short { IfOk result (λ text. length text.items ≤ text_max net.now) }

    // The text reads as the net, if its inputs come first, then its registers, then its wires.
    ensures reads_back { IfOk result (λ text. IsWhole net.now → IsInOrder net.now → Reads text.items net.now) }

    // A prefix of the text reads as no netlist, unless it is the whole text, with or without its last line feed.
    ensures torn { IfOk result (λ text. (part rest : List ℕ) → text.items ≡ part ++ rest → IsTornOrWhole net.now part) }
{
    let signals = net.signals() as usize;
    let mut out = Vec::with_capacity(alloc, signals)?;
    push_header(&mut out, net)?;
    push_declarations(&mut out, net)?;
    push_statements(&mut out, net)?;
    push(&mut out, b"endmodule\n")?;
    written_reads_law();
    no_shorter_text_law();
    Ok(out)
}
