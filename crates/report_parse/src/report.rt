use serial_model::Ends;
use thor_value::{Answer, Orefs, Sequence, Ts, Who};

/// What the text of a report tells of a run.
#[derive(Debug, Drop)]
pub struct Report {
    /// How each item ended, in the order of the text. Of an unknown item the text tells no tries: they are 0.
    pub ended: Ends,
    /// The lines of the serial history, in the order of the text.
    pub lines: Lines,
    /// What looks at the past were answered, in the order of the text.
    pub looks: Looks,
    /// How far backups are confirmed, in the order of the text.
    pub backups: Backups,
}

/// What a line of the serial history tells: an entry without the item of the script that it performs.
#[derive(Debug, Drop)]
pub struct Line {
    /// The timestamp, which is also the name of the transaction.
    pub ts: Ts,
    /// Whose item it is.
    pub who: Who,
    /// An upgrade's number, from 1; 0 for a transaction.
    pub number: u32,
    /// The names of the objects that it created, in the order in which it made them.
    pub fresh: Orefs,
    pub answer: Answer,
}

/// Lines, in the order of the history.
pub type Lines = Sequence<Line>;

/// What the line of a look at the past tells.
#[derive(Debug, Drop)]
pub struct Look {
    /// Its number among the looks of the script, as the line has it.
    pub number: u32,
    /// The timestamp up to which it sees the history.
    pub ts: Ts,
    pub looked: Looked,
}

/// What a look at the past has come to.
#[derive(Debug, Drop)]
pub enum Looked {
    /// It was answered.
    Answered(Answer),
    /// It isn't answered, since it would write.
    Writes,
}

/// Looks, in the order of the text.
pub type Looks = Sequence<Look>;

/// What the line of a backup tells.
#[derive(Clone, Copy, Debug)]
pub struct Backup {
    /// The repository of which it is one.
    pub repo: u8,
    /// The place of the repository's history up to which it is confirmed.
    pub place: u64,
}

/// Backups, in the order of the text.
pub type Backups = Sequence<Backup>;
