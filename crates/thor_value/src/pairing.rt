ghost use Rattle.std.specs.Prelude.{◌≡◌, Ok, Err, IfOk, IfErr};

/// A value, and what was made behind it. Where that could not be made the value is let go.
///
/// What a caller owns is let go here in one call, whatever it owns. A `?` beside it would have the
/// check of the caller follow all that is owned.
pub fn both<A: Drop, B, E>(first: A, second: Result<B, E>) -> Result<(A, B), E>
    ensures made { IfOk result (λ made. (made.0 ≡ first) × (second ≡ Ok made.1)) }
    ensures failed { IfErr result (λ fault. second ≡ Err fault) }
{
    match second {
        Ok(second) => Ok((first, second)),
        Err(fault) => Err(fault),
    }
}
