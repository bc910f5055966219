//! A report's text, read from its first byte to its last.

ghost use Rattle.std.specs.Prelude.{◌≡◌, ◌<◌, ◌≤◌, ◌^◌, ℕ, length, count_by, IfOk, IfErr, Ok, Err};
ghost use Rattle.script_text.specs.Bytes.{is_newline};
ghost use Rattle.script_text.specs.Reading.{Gives};
ghost use Rattle.script_text.specs.declared.syntax.Syntax.{Syntax};
ghost use Rattle.script_text.specs.declared.syntax.SyntaxError.TheVariants.{Fault};
ghost use Rattle.report_parse.specs.Reports.{IsReport, IsStopOf, text_of, StopsOn};
ghost use Rattle.report_parse.specs.Whole.{after_lines, after_looks, fault_line, report_or_line, whole_of};
ghost use Rattle.report_parse.specs.Reading.{many};
ghost use Rattle.report_parse.specs.BehindLines.{look_at};
ghost use Rattle.report_parse.specs.HistoryLines.{line_at};

use crate::lines::end_at;
use crate::numbers::stripped;
use crate::part::read_many;
use crate::report::{Backup, Line, Lines, Look, Report};
use crate::unread::Unread;
use script_text::{Syntax, SyntaxError};
use serial_model::{Ended, Ends};
use std::alloc::Global;
use thor_value::NoMemory;

/// How many lines end in the bytes.
fn lines_ended(bytes: &[u8]) -> usize
    ensures count { result ≡ count_by is_newline bytes.now }
    ensures within { result ≤ length bytes.now }
{
    bytes.iter().filter(|byte| **byte == b'\n').count()
}

/// The line on which the bytes stop to be a report, where `rest` of them are left.
fn fault_at(bytes: &[u8], rest: &[u8]) -> SyntaxError
    requires { length bytes.now < 2 ^ 32 }
    ensures { result ≡ Fault (record { line = fault_line bytes.now rest.now }) }
{
    let read = bytes.split_at(bytes.len().saturating_sub(rest.len())).0;
    let all_but_last = bytes.split_at(bytes.len().saturating_sub(1)).0;
    let line = (lines_ended(read) + 1).min(lines_ended(all_but_last) + 1);
    SyntaxError::Fault(Syntax { line: line as u32 })
}

/// Reads what stands behind the last line of the history.
fn with_looks(
    alloc: Global,
    bytes: &[u8],
    ended: Ends,
    lines: Lines,
    rest: &[u8],
) -> Result<Report, SyntaxError>
    requires { length bytes.now < 2 ^ 32 }
    ensures { Gives result (report_or_line bytes.now (after_looks ended lines (many look_at (length rest.now) rest.now))) }
{
    let (looks, rest) = read_many::<Look>(alloc, rest)?;
    let (backups, rest) = read_many::<Backup>(alloc, rest)?;
    match rest {
        [] => Ok(Report {
            ended,
            lines,
            looks,
            backups,
        }),
        behind => Err(fault_at(bytes, behind)),
    }
}

/// Reads what stands behind the items and the heading of the history.
fn with_lines(alloc: Global, bytes: &[u8], ended: Ends, rest: &[u8]) -> Result<Report, SyntaxError>
    requires { length bytes.now < 2 ^ 32 }
    ensures { Gives result (report_or_line bytes.now (after_lines ended (many line_at (length rest.now) rest.now))) }
{
    let (lines, rest) = read_many::<Line>(alloc, rest)?;
    match end_at(lines.len() as u64, rest) {
        Ok((_, behind)) => with_looks(alloc, bytes, ended, lines, behind),
        Err(Unread::Absent) => Err(fault_at(bytes, rest)),
        Err(Unread::NoMemory) => Err(SyntaxError::NoMemory),
    }
}

/// Reads the text of a report.
#[tactic(auto, unfolding(crate::specs::Whole::whole_of))]
fn whole_of(alloc: Global, bytes: &[u8]) -> Result<Report, SyntaxError>
    requires { length bytes.now < 2 ^ 32 }
    ensures told { Gives result (report_or_line bytes.now (whole_of bytes.now)) }
    ensures short { length bytes.now < 2 ^ 64 }
{
    let (ended, rest) = read_many::<Ended>(alloc, bytes)?;
    match stripped(b"history\n", rest) {
        Some(rest) => with_lines(alloc, bytes, ended, rest),
        None => Err(fault_at(bytes, rest)),
    }
}

/// The report that is written so, from the first byte to the last.
///
/// `Fault` has the line of the first word, or end of a line, with which no report goes on; where the bytes
/// end too early, that of the last byte, and 1 where there is none. Of bytes that are 4 GiB or more nothing is
/// told but want of memory.
pub fn read_report(alloc: Global, bytes: &[u8]) -> Result<Report, SyntaxError>
    // The bytes are the text of the report that is read, and of no other one. The text of a report is refused for
    // want of memory alone.
    ensures read { IfOk result (λ report. IsReport report × (text_of report ≡ bytes.now)) }
    ensures only_report { (report : Report) → IsReport report → text_of report ≡ bytes.now → Gives result (Ok report) }

    // Bytes with a fault are no report's text, and stop to be one on the line that is told. Such bytes are refused
    // with that line, but for want of memory.
    ensures stopped { IfErr result (IsStopOf bytes.now) }
    ensures only_fault { (fault : Syntax) → StopsOn bytes.now fault.line → Gives result (Err fault) }
{
    if u32::try_from(bytes.len()).is_err() {
        return Err(SyntaxError::NoMemory);
    }
    whole_of(alloc, bytes)
}
