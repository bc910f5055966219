ghost use Rattle.std.specs.Prelude.{◌≡◌};
ghost use Rattle.class_defs.specs.Rules as spec;
ghost use Rattle.class_defs.specs.Rules.{least_with};

use class_defs::{Rule, RuleFault};

/// The place of a rule among the rules, from 1.
fn rule_number(rule: Rule) -> u8
    ensures { result ≡ spec.rule_number rule }
{
    match rule {
        Rule::T1 => 1,
        Rule::T2 => 2,
        Rule::T3 => 3,
        Rule::T4 => 4,
        Rule::T5 => 5,
        Rule::T6 => 6,
        Rule::T7 => 7,
        Rule::T8 => 8,
        Rule::T9 => 9,
        Rule::O1 => 10,
        Rule::O2 => 11,
        Rule::O3 => 12,
        Rule::O4 => 13,
        Rule::O5 => 14,
        Rule::O6 => 15,
        Rule::O7 => 16,
    }
}

/// Whether a fault is told rather than another.
fn told_before(fault: RuleFault, other: RuleFault) -> bool
    ensures { result ≡ spec.told_before fault other }
{
    fault.line < other.line
        || (fault.line == other.line && rule_number(fault.rule) < rule_number(other.rule))
}

/// The one of two faults that is told.
pub fn lesser(found: Option<RuleFault>, fault: RuleFault) -> Option<RuleFault>
    ensures told { result ≡ spec.lesser found fault }
{
    match found {
        None => Some(fault),
        Some(other) => {
            if told_before(fault, other) {
                Some(fault)
            } else {
                Some(other)
            }
        }
    }
}

/// Notes a rule that doesn't hold, if no fault that was found before is told rather than it.
pub fn must(holds: bool, rule: Rule, line: u32, found: &mut Option<RuleFault>)
    ensures told { found.new ≡ least_with found.old (spec.must holds rule line) }
{
    if !holds {
        *found = lesser(*found, RuleFault { line, rule });
    }
}
