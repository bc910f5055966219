//! What holds of the orders of names and of timestamps, and of finite maps from them. Each law is
//! a function with an empty body, whose clauses are proved once for all callers.

ghost use Rattle.std.specs.Cmp.{IsTotalOrder};
ghost use Rattle.std.specs.Prelude.{◌≡◌};
ghost use Rattle.std.specs.declared.cmp.Ordering.TheVariants.{Equal};
ghost use Rattle.thor_value.specs.Names.{oref_cmp, ts_cmp, Before, zero_ts};
ghost use Rattle.thor_value.specs.declared.names.Oref.{Oref};
ghost use Rattle.thor_value.specs.declared.names.Ts.{Ts};

/// Names are in a total order, which tells all of them apart.
pub fn names_are_ordered()
    ensures total { IsTotalOrder oref_cmp }
    ensures apart { (x y : Oref) → oref_cmp x y ≡ Equal → x ≡ y }
{}

/// Timestamps are in a total order, which tells all of them apart. No timestamp is before the zero
/// timestamp, and none is before itself.
pub fn timestamps_are_ordered()
    ensures total { IsTotalOrder ts_cmp }
    ensures apart { (t u : Ts) → ts_cmp t u ≡ Equal → t ≡ u }
    ensures least { (t : Ts) → ¬ Before t zero_ts }
    ensures strict { (t : Ts) → ¬ Before t t }
{}
