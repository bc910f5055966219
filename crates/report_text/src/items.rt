ghost use Rattle.std.specs.Prelude.{◌≡◌, ◌++◌, ◌<◌, ◌^◌, OnOk};
ghost use Rattle.std.specs.String.{string_bytes};
ghost use Rattle.report_text.specs.Fits.{FitsInts, FitsOutcome};
ghost use Rattle.report_text.specs.Lines.{spaced_words};
ghost use Rattle.report_text.specs.Report.{values_words, try_words, upgrade_words, outcome_words, item_line};
ghost use Rattle.report_text.specs.Shown.{FitsItem};

use crate::words::{
    fault_name, print_cause, print_number, print_value, print_who, print_with_ts, print_word,
};
use serial_model::{Ended, ItemOutcome};
use thor_value::NoMemory;

/// Prints ` :` and each value behind a space.
#[tactic(auto, using(std::proofs::Common::append_assoc))]
pub fn print_values(out: &mut String, values: &[i64]) -> Result<(), NoMemory>
    ensures text { OnOk result
        (string_bytes out.new ≡ string_bytes out.old ++ spaced_words (values_words values.now)) }
    ensures fits { OnOk result (FitsInts values.now) }
{
    out.push_str(" :")?;
    for value in values {
        print_value(out, *value)?;
    }
    Ok(())
}

/// Prints ` upgrade` and its number behind a space.
#[tactic(auto, using(std::proofs::Common::append_assoc))]
pub fn print_upgrade(out: &mut String, number: u32) -> Result<(), NoMemory>
    ensures text { OnOk result
        (string_bytes out.new ≡ string_bytes out.old ++ spaced_words (upgrade_words number)) }
    ensures fits { OnOk result (number < 2 ^ 64) }
{
    print_word(out, "upgrade")?;
    print_number(out, u64::from(number))
}

/// Prints ` try` and the number of the last try behind a space.
#[tactic(auto, using(std::proofs::Common::append_assoc))]
fn print_tries(out: &mut String, tries: u32) -> Result<(), NoMemory>
    ensures { OnOk result (string_bytes out.new ≡ string_bytes out.old ++ spaced_words (try_words tries)) }
{
    print_word(out, "try")?;
    print_number(out, u64::from(tries))
}

/// Prints how an item ended, each word behind a space.
#[tactic(auto, using(std::proofs::Common::append_assoc), unfolding(crate::specs::Report::outcome_words))]
fn print_outcome(out: &mut String, tries: u32, outcome: &ItemOutcome) -> Result<(), NoMemory>
    ensures text { OnOk result
        (string_bytes out.new ≡ string_bytes out.old ++ spaced_words (outcome_words tries outcome.now)) }
    ensures fits { OnOk result (FitsOutcome outcome.now) }
{
    match outcome {
        ItemOutcome::Done { ts, answer } => {
            print_with_ts(out, "Done", *ts)?;
            print_tries(out, tries)?;
            print_values(out, answer.as_slice())
        }
        ItemOutcome::Upgraded { ts, number } => {
            print_with_ts(out, "Done", *ts)?;
            print_tries(out, tries)?;
            print_upgrade(out, *number)
        }
        ItemOutcome::Faulted { ts, fault } => {
            print_word(out, "Faulted")?;
            print_with_ts(out, fault_name(*fault), *ts)?;
            print_tries(out, tries)
        }
        ItemOutcome::Refused { cause } => {
            print_word(out, "Refused")?;
            print_cause(out, *cause)?;
            print_tries(out, tries)
        }
        ItemOutcome::Unknown { tx } => { print_with_ts(out, "Unknown", *tx) }
    }
}

/// Prints the line of an item.
#[tactic(auto, using(std::proofs::Common::append_assoc), unfolding(crate::specs::Report::item_line))]
pub fn print_item(out: &mut String, ended: &Ended) -> Result<(), NoMemory>
    ensures text { OnOk result (string_bytes out.new ≡ string_bytes out.old ++ item_line ended.now) }
    ensures fits { OnOk result (FitsItem ended.now) }
{
    print_who(out, ended.who)?;
    print_outcome(out, ended.tries, &ended.outcome)?;
    out.push_str("\n")?;
    Ok(())
}
