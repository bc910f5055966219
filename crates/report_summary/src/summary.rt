ghost use Rattle.std.specs.Prelude.{◌≡◌, IfOk};
ghost use Rattle.report_summary.specs.Summary.{summary_text};

use crate::counting::{End, count_of};
use serial_model::Ends;
use std::alloc::Global;
use std::fmt::Write;
use thor_value::{NoMemory, Text};

/// The summary of a run: how many items it had and how they ended, and, in a line of its own, a sum.
///
/// Items that ended in a fault and upgrades count as done. Want of memory is the only error.
#[tactic(auto, using(std::proofs::Common::append_assoc), unfolding(crate::specs::Summary::summary_text))]
pub fn print_summary(alloc: Global, ends: &Ends, sum: i64) -> Result<Text, NoMemory>
    ensures { IfOk result (λ text. text ≡ summary_text ends.now sum) }
{
    let done = count_of(End::Done, ends.as_slice());
    let refused = count_of(End::Refused, ends.as_slice());
    let unknown = count_of(End::Unknown, ends.as_slice());
    let mut out = String::new(alloc);
    writeln!(
        out,
        "items {} done {done} refused {refused} unknown {unknown}",
        ends.len()
    )?;
    writeln!(out, "sum {sum}")?;
    Ok(Text::from_vec(out.into_bytes()))
}
