/// What stands beside a run: a place at which a test can hold a thread back, and who is told how far the run is, and why nothing is
/// told of it. It answers nothing.
pub trait Gate {
    /// Returns once the gate lets the caller pass this point.
    fn pass(&self, point: u32);

    /// A run of so many items begins.
    fn begin_run(&self, items: usize);

    /// So many more of its items have ended.
    fn end_items(&self, count: usize);

    /// The history of the run didn't pass its check, so nothing is told of the run.
    fn find_unsound(&self);

    /// A disk gave other bytes than as the store was read, so that the store wasn't opened.
    fn find_changed(&self);
}

/// The gate of a program: it lets everyone pass at once, and tells nobody anything of a run.
#[derive(Clone, Copy, Debug)]
pub struct OpenGate;

impl Gate for OpenGate {
    fn pass(&self, _point: u32) {}

    fn begin_run(&self, _items: usize) {}

    fn end_items(&self, _count: usize) {}

    fn find_unsound(&self) {}

    fn find_changed(&self) {}
}
