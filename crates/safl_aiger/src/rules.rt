//! The texts of the rules.

ghost use Rattle.std.specs.Prelude.{◌≡◌};
ghost use Rattle.safl_aiger.specs.Rules.{aig_rule_text};

use crate::reading::AigRule;

/// The number of a rule and its text, such as `B01 bad header`.
pub fn rule_text(rule: AigRule) -> &'static str
    ensures { result.now ≡ aig_rule_text rule }
{
    match rule {
        AigRule::B01 => "B01 bad header",
        AigRule::B02 => "B02 bad line",
        AigRule::B03 => "B03 bad literal",
        AigRule::B04 => "B04 bad symbol",
    }
}
