use log_entries::Entry;
use spec_trace::KeptItem;
use thor_value::Sequence;

/// Entries of a history.
pub type Entries = Sequence<Entry>;

/// The items of a trace as they are kept beside its history.
pub type Marks = Sequence<KeptItem>;

/// What happened at a repository since it was opened: the entries of its history, and the marks, among
/// which each entry is named by its place.
pub struct Trace {
    /// The entries. An entry's place is its index.
    pub history: Entries,
    /// The items of the trace, in order.
    pub marks: Marks,
}

impl Drop for Trace {
    fn drop(self) {
        let Trace { history, marks } = self;
        drop(history);
        drop(marks);
    }
}

/// One trace for each repository.
pub type Traces = Sequence<Trace>;
