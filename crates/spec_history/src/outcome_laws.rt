//! What is proved of entries and outcomes, both ways.

ghost use Rattle.log_entries.specs.declared.entry.Entry.{Entry};
ghost use Rattle.spec_history.specs.History.{Base, Known, known_by};
ghost use Rattle.spec_history.specs.Outcomes.{Causes, EntriesMake, EntriesTell};
ghost use Rattle.spec_history.specs.Sound.{sound};
ghost use Rattle.std.specs.Prelude.{List, Some, [], ◌∷◌, ◌++◌, ◌≡◌, ◌⊎◌};
ghost use Rattle.thor_value.specs.declared.names.Ts.{Ts};

/// Behind one more entry a transaction has the outcome that it had, or the entry gave it this one.
pub fn entries_settle()
    ensures { (b : Base) (H : List Entry) (e : Entry) → sound b (H ++ e ∷ []) → (t : Ts) (o w : Known) →
        known_by b H t ≡ Some o → known_by b (H ++ e ∷ []) t ≡ Some w →
        (w.fate ≡ o.fate) ⊎ Causes b e t w.fate }
{}

/// Requests, decisions and what is learned of them tell how their transactions stand, each once; and an
/// aborted transaction was aborted by an entry.
pub fn entries_tell()
    ensures { (b : Base) (H : List Entry) → sound b H → EntriesTell b H }
{}

/// The kept decisions and the last single commits are told by the entries.
pub fn entries_make()
    ensures { (b : Base) (H : List Entry) → sound b H → EntriesMake b H }
{}
