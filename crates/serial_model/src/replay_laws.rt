//! What holds of every history. Each law is a function with an empty body, whose clauses are proved once for
//! all callers.

ghost use Rattle.std.specs.Prelude.{◌≡◌, ◌≤◌, ◌++◌, ◌∷◌, ◌↔◌, ℕ, List, [], length, take};
ghost use Rattle.thor_value.specs.FiniteMap.{IsSorted};
ghost use Rattle.class_defs.specs.declared.store.Plain.{Plain};
ghost use Rattle.class_defs.specs.declared.store.Schemas.{Schemas};
ghost use Rattle.serial_model.specs.History.{after, after_entry, IsLegal, IsLegalEntry};
ghost use Rattle.serial_model.specs.Replays.{AreApplied, AreMade, IsAbove, last_ts};
ghost use Rattle.serial_model.specs.Whole.{IsFirst};
ghost use Rattle.serial_model.specs.declared.entries.Did.{Did};

/// The first entries of a legal history are one too.
pub fn beginnings_are_legal()
    ensures { (s : Schemas) → (history : List Did) → (store : Plain) → (n : ℕ)
        → IsLegal s history store → IsLegal s (take n history) store }
{}

/// A legal history goes on with an entry that is legal on the store behind it, and whose timestamp is above the
/// last one.
pub fn histories_go_on()
    ensures legal { (s : Schemas) → (history : List Did) → (d : Did) → (store : Plain)
        → IsLegal s history store → IsAbove (last_ts history) d.ts
        → IsLegalEntry s (after s history store) d → IsLegal s (history ++ d ∷ []) store }
    ensures above { (s : Schemas) → (history : List Did) → (d : Did) → (store : Plain)
        → IsLegal s (history ++ d ∷ []) store → IsAbove (last_ts history) d.ts }
    ensures entry { (s : Schemas) → (history : List Did) → (d : Did) → (store : Plain)
        → IsLegal s (history ++ d ∷ []) store → IsLegalEntry s (after s history store) d }
    ensures store { (s : Schemas) → (history : List Did) → (d : Did) → (store : Plain)
        → after s (history ++ d ∷ []) store ≡ after_entry s (after s history store) d }
{}

/// The store behind a history is a finite map where the one before it is: its names rise.
pub fn histories_keep_names_in_order()
    ensures { (s : Schemas) → (history : List Did) → (store : Plain)
        → IsSorted store.objects → IsSorted (after s history store).objects }
{}

/// The schemas of a store without upgrades are as upgrades make them.
pub fn first_schemas_are_made()
    ensures { (s : Schemas) → length s.first.classes ≤ 65536 → IsFirst s.first → s.upgraded ≡ [] → AreMade s }
{}

/// So are those behind upgrades, each of which makes its schema out of the one before it.
pub fn upgraded_schemas_are_made()
    ensures { (s : Schemas) → length s.first.classes ≤ 65536 → IsFirst s.first → AreApplied s → AreMade s }
{}
