use thor_value::Obj;

/// What a look for an object finds.
#[derive(Drop)]
pub enum Looked<'a> {
    /// The object as it stands now: what the try has made of it, else the copy.
    Here(&'a Obj),
    /// Its page isn't held.
    NoPage,
    /// Its page is held, and has nothing in this slot: there was nothing, or the copy was dropped.
    NoSlot,
}
