//! What is proved of the growth of a trace by others.

ghost use Rattle.spec_trace.specs.Gaps.{GrowsByOthers, StaysOrEnds};
ghost use Rattle.spec_history.specs.History.{Base};
ghost use Rattle.spec_trace.specs.Session.{Session, session};
ghost use Rattle.spec_trace.specs.Trace.{Item};
ghost use Rattle.std.specs.Prelude.{Bool, List, Some, ◌++◌, ℕ, ◌≡◌};
ghost use Rattle.thor_value.specs.FiniteMap.{Map};
ghost use Rattle.thor_value.specs.Names.{oref_cmp};
ghost use Rattle.thor_value.specs.declared.names.Ts.{Ts};
ghost use Rattle.thor_value.specs.declared.values.Obj.{Obj};

/// Behind any number of items that others made, a client's session isn't live any more, or its client is
/// in step, knows what it knew, and each of its copies is current still.
pub fn copies_outlive_others()
    ensures { (b : Base) (T more : List Item) (s : ℕ) (v : Session) (committed : Ts → Bool) (copies : Map oref_cmp Obj) →
        GrowsByOthers b T more s v committed copies →
        (w : Session) × (session b (T ++ more) s ≡ Some w) × StaysOrEnds b (T ++ more) s v committed copies w }
{}
