ghost use Rattle.std.specs.Prelude.{◌≡◌, IfOk, length, take, drop, ◌++◌};

use std::marker::Model;

/// How a disk's bytes got what they were before: `old` in place of what stands from `from` up to `end`.
#[derive(Debug, Drop)]
pub struct Change {
    from: usize,
    end: usize,
    old: Vec<u8>,
}

impl Model for Change {
    ghost use Rattle.disk_trait.specs.Change.{PutBack};

    ghost Value = { PutBack };

    ghost view = { λ change. record { from = change.from; end = change.end; old = change.old.items } };
}

impl Change {
    pub(crate) fn new(from: usize, end: usize, old: Vec<u8>) -> Change
        ensures { result ≡ record { from = from; end = end; old = old.items } }
    {
        Change { from, end, old }
    }

    /// The first place that differs.
    pub fn from(&self) -> usize
        ensures { result ≡ self.now.from }
    {
        self.from
    }

    /// The place behind the last that differs.
    pub fn end(&self) -> usize
        ensures { result ≡ self.now.end }
    {
        self.end
    }

    /// What stood there before.
    pub fn old(&self) -> &[u8]
        ensures { result.now ≡ self.now.old }
    {
        &self.old
    }
}

/// What a call on a disk in memory did.
#[derive(Debug, Drop)]
pub enum Did {
    /// It failed and changed nothing.
    Failed,
    /// It read so many bytes from a place on.
    Read { at: u64, len: usize },
    /// It told the length.
    Length,
    /// It wrote from a place on, up to the end of the change.
    Wrote { at: usize, change: Change },
    /// It made what was written stay.
    Synced,
    /// It crashed the disk and left the image of this pick.
    Restarted { pick: u64, change: Change },
}

/// A call on a disk in memory, and the moment at which it ended.
#[derive(Debug, Drop)]
pub struct Call {
    pub time: u64,
    pub did: Did,
}
