//! The search among names that rise.

ghost use Rattle.std.specs.Prelude.{IfErr, IfOk, IsTrue};
ghost use Rattle.thor_value.specs.Rising.{IsBehind, IsGap, IsThere, Rise};

use crate::names::Oref;

/// The place of a name, or the one where it would stand.
pub fn place_of(names: &[Oref], oref: Oref) -> Result<usize, usize>
    requires { Rise names.now }
    ensures found { IfOk result (λ at. IsThere names.now oref at) }
    ensures absent { IfErr result (λ at. IsGap names.now oref at) }
{
    names.binary_search(&oref)
}

/// Whether a name comes behind the last of these, or there is none.
pub fn comes_last(names: &[Oref], oref: Oref) -> bool
    requires { Rise names.now }
    ensures { IsTrue result → IsBehind names.now oref }
{
    match names.last() {
        None => true,
        Some(last) => last.cmp(&oref).is_lt(),
    }
}
