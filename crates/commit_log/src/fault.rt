/// Why logs weren't found.
#[derive(Clone, Copy, Debug, PartialEq, Eq)]
pub enum FindFault {
    /// A disk failed. Its count of faults rose in this call.
    Failed { disk: u8 },
    /// The open header or record at this place of a log disk runs past its end, or no gate stands behind it.
    Damaged { disk: u8, place: u64 },
    /// Memory was not there.
    NoMemory,
}
