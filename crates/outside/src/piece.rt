ghost use Rattle.std.specs.Prelude.{◌≡◌, length, min, take};

/// How many bytes a call on a source or a sink in memory moves at most.
pub(crate) const PIECE: usize = 32;

/// How many of so many bytes go in one call.
pub(crate) fn piece_length(count: usize) -> usize
    ensures { result ≡ min 32 count }
{
    PIECE.min(count)
}

/// Copies the front of `from` to the front of `into`: a piece, or as many bytes as there are on both
/// sides.
pub(crate) fn copy_piece(from: &[u8], into: &mut [u8]) -> usize
    ensures count { result ≡ min 32 (min (length from.now) (length into.new)) }
    ensures copied { take result into.new ≡ take result from.now }
{
    let count = piece_length(from.len().min(into.len()));
    into[..count].copy_from_slice(&from[..count]);
    count
}
