//! What the program replies, as data.

use audit_check::Disagreement;
use script_parse::Refusal;
use thor_value::Text;

/// What the program replies: what it has to write, as data. `status_of` has its status, `text_of` in `specs/Replies.antt`
/// its text.
#[derive(Drop)]
pub enum Reply {
    /// The report of a run, and whether all its items are finished.
    Report { finished: bool, text: Text },
    /// The summary of a run, and whether all its items are finished.
    Summary { finished: bool, text: Text },
    /// The script breaks no rule.
    Accepted,
    /// The bytes are no script, or the script is refused.
    Refused { refusal: Refusal },
    /// This limit is passed.
    Limit { limit: u64 },
    /// A disk of this repository failed while the store was opened.
    DiskFault { repo: u8 },
    /// A disk of this repository has, at this place, bytes that are no store's.
    Damaged { repo: u8, disk: u8, place: u64 },
    /// The words are not those of a command.
    Words,
    /// The source failed.
    SourceFault,
    /// The report is true of the script.
    Legal,
    /// The report isn't true of the script, and this is its first line that isn't.
    Disagrees { at: Disagreement },
    /// What should be a report is none: it stops to be one on this line, counted from 1.
    NoReport { line: u32 },
}
