ghost use Rattle.std.specs.Prelude.{◌≡◌, ◌++◌, All, IfOk, OnOk};
ghost use Rattle.std.specs.List.{flat_map};
ghost use Rattle.std.specs.String.{string_bytes};
ghost use Rattle.class_defs.specs.declared.store.Plain.{Plain};
ghost use Rattle.class_defs.specs.declared.store.Schemas.{Schemas};
ghost use Rattle.report_text.specs.Report.{item_line, history_line, report_text};
ghost use Rattle.report_text.specs.Shown.{FitsItem, FitsLine, TellsReport};
ghost use Rattle.serial_model.specs.History.{IsLegal};

use crate::history::print_entry;
use crate::items::print_item;
use crate::words::print_number;
use serial_model::{Did, Dids, Ended, Ends};
use std::alloc::Global;
use thor_value::{NoMemory, Text};

/// Prints the lines of items.
#[tactic(auto, using(std::proofs::Common::append_assoc))]
fn print_items(out: &mut String, ends: &[Ended]) -> Result<(), NoMemory>
    ensures text { OnOk result
        (string_bytes out.new ≡ string_bytes out.old ++ flat_map item_line ends.now) }
    ensures fits { OnOk result (All FitsItem ends.now) }
{
    for ended in ends {
        print_item(out, ended)?;
    }
    Ok(())
}

/// Prints the lines of a history's entries.
#[tactic(auto, using(std::proofs::Common::append_assoc))]
fn print_history(out: &mut String, history: &[Did]) -> Result<(), NoMemory>
    ensures text { OnOk result
        (string_bytes out.new ≡ string_bytes out.old ++ flat_map history_line history.now) }
    ensures fits { OnOk result (All FitsLine history.now) }
{
    for entry in history {
        print_entry(out, entry)?;
    }
    Ok(())
}

/// The report of a run: the outcomes of its items, then its serial history.
///
/// Every line ends with byte 10, and its words are separated by one space. The outcomes stand in their
/// order, each with the number of its tries but for an unknown item. The history stands in its order, and
/// the last line counts its entries. An entry with a number is an upgrade's. Want of memory is the only
/// error, and no part of the text is left behind it. Of a legal history the text is that of no other report.
#[tactic(auto, using(std::proofs::Common::append_assoc), unfolding(crate::specs::Report::report_text))]
pub fn print_report(alloc: Global, ends: &Ends, history: &Dids) -> Result<Text, NoMemory>
    ensures text { IfOk result (λ text. text ≡ report_text ends.now history.now) }
    ensures tells { (s : Schemas) → (store : Plain) → IsLegal s history.now store → IfOk result (λ text. TellsReport ends.now history.now text) }
{
    let mut out = String::new(alloc);
    print_items(&mut out, ends.as_slice())?;
    out.push_str("history\n")?;
    print_history(&mut out, history.as_slice())?;
    out.push_str("end")?;
    print_number(&mut out, history.len() as u64)?;
    out.push_str("\n")?;
    Ok(Text::from_vec(out.into_bytes()))
}
