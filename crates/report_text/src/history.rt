ghost use Rattle.std.specs.Prelude.{◌≡◌, ◌++◌, ◌<◌, ◌^◌, All, OnOk};
ghost use Rattle.std.specs.String.{string_bytes};
ghost use Rattle.report_text.specs.Fits.{FitsOref};
ghost use Rattle.report_text.specs.Lines.{spaced_words};
ghost use Rattle.report_text.specs.Report.{fresh_words, effect_words, history_line};
ghost use Rattle.report_text.specs.Shown.{FitsEffect, FitsLine};

use crate::items::{print_upgrade, print_values};
use crate::words::{fault_name, print_oref, print_ts, print_who, print_word};
use serial_model::Did;
use thor_value::{Answer, NoMemory, Oref};

/// Prints ` new` and each name behind a space, or nothing where there is no name.
#[tactic(auto, using(std::proofs::Common::append_assoc))]
fn print_fresh(out: &mut String, fresh: &[Oref]) -> Result<(), NoMemory>
    ensures text { OnOk result
        (string_bytes out.new ≡ string_bytes out.old ++ spaced_words (fresh_words fresh.now)) }
    ensures fits { OnOk result (All FitsOref fresh.now) }
{
    if fresh.is_empty() {
        return Ok(());
    }
    out.push_str(" new")?;
    for oref in fresh {
        print_oref(out, *oref)?;
    }
    Ok(())
}

/// Prints what an entry did, each word behind a space.
#[tactic(auto, using(std::proofs::Common::append_assoc))]
fn print_effect(out: &mut String, entry: &Did) -> Result<(), NoMemory>
    ensures text { OnOk result
        (string_bytes out.new
        ≡ string_bytes out.old
        ++ spaced_words (effect_words entry.now.number entry.now.fresh entry.now.answer)) }
    ensures fits { OnOk result ((entry.now.number < 2 ^ 64) × FitsEffect entry.now.number entry.now.fresh entry.now.answer) }
{
    if entry.number != 0 {
        return print_upgrade(out, entry.number);
    }
    match &entry.answer {
        Answer::Ints(values) => {
            print_fresh(out, entry.fresh.as_slice())?;
            print_values(out, values.as_slice())
        }
        Answer::Fault(fault) => {
            print_word(out, "!")?;
            print_word(out, fault_name(*fault))
        }
    }
}

/// Prints the line of an entry of the history.
#[tactic(auto, using(std::proofs::Common::append_assoc), unfolding(crate::specs::Report::history_line))]
pub fn print_entry(out: &mut String, entry: &Did) -> Result<(), NoMemory>
    ensures text { OnOk result (string_bytes out.new ≡ string_bytes out.old ++ history_line entry.now) }
    ensures fits { OnOk result (FitsLine entry.now) }
{
    print_ts(out, entry.ts)?;
    out.push_str(" ")?;
    print_who(out, entry.who)?;
    print_effect(out, entry)?;
    out.push_str("\n")?;
    Ok(())
}
