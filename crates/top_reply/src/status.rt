ghost use Rattle.std.specs.Prelude.{◌≡◌};
ghost use Rattle.top_reply.specs.Statuses.{code_of};

/// How the program ended.
#[derive(Clone, Copy, Debug, PartialEq, Eq)]
pub enum Status {
    /// What the command asks for was written, and all items are finished.
    Done,
    /// The report was written, and an item was refused, or what became of it isn't known.
    Unfinished,
    /// The words are not those of a command.
    Words,
    /// The script is refused.
    Script,
    /// The source failed.
    SourceFault,
    /// The sink failed.
    SinkFault,
    /// A disk failed while the store was opened.
    DiskFault,
    /// The disks have bytes that are no store's.
    Damaged,
    /// A limit is passed: on bytes, clients, events or upgrades of the script, or on lives, sequences or
    /// entries of the store.
    Limit,
    /// Memory was not there, or the run didn't pass the check of its own history.
    NoMemory,
    /// What is to be audited is no report.
    Report,
    /// The report that is audited isn't true of the script.
    Disagrees,
}

impl Status {
    /// The exit status of the program.
    pub fn code(self) -> u8
        ensures { result ≡ code_of self }
    {
        match self {
            Status::Done => 0,
            Status::Unfinished => 1,
            Status::Words => 2,
            Status::Script => 3,
            Status::SourceFault => 4,
            Status::SinkFault => 5,
            Status::DiskFault => 6,
            Status::Damaged => 7,
            Status::Limit => 8,
            Status::NoMemory => 9,
            Status::Report => 10,
            Status::Disagrees => 11,
        }
    }
}
