ghost use Rattle.std.specs.Prelude.{◌≡◌};
ghost use Rattle.class_defs.specs.Rules as spec;

use crate::rules::{Rule, RuleFault};
use std::fmt;

/// The word that the program prints for a rule.
pub fn rule_word(rule: Rule) -> &'static str
    ensures word { result.now ≡ spec.rule_word rule }
{
    match rule {
        Rule::T1 => "T1",
        Rule::T2 => "T2",
        Rule::T3 => "T3",
        Rule::T4 => "T4",
        Rule::T5 => "T5",
        Rule::T6 => "T6",
        Rule::T7 => "T7",
        Rule::T8 => "T8",
        Rule::T9 => "T9",
        Rule::O1 => "O1",
        Rule::O2 => "O2",
        Rule::O3 => "O3",
        Rule::O4 => "O4",
        Rule::O5 => "O5",
        Rule::O6 => "O6",
        Rule::O7 => "O7",
    }
}

/// The line, and the word of the rule.
impl fmt::Display for RuleFault {
    fn fmt<W: fmt::Write>(&self, f: &mut fmt::Formatter<W>) -> fmt::Result {
        write!(f, "{} {}", self.line, rule_word(self.rule))
    }
}
