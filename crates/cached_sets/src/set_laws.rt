//! What the calls do to each session and each object.

ghost use Rattle.cached_sets.specs.Meaning.{IsOrdered, NeverFall, has_page, place_in, unless_below};
ghost use Rattle.cached_sets.specs.Sets.{Sets, acknowledge, cache, drop_session, no_sets, note, touch};
ghost use Rattle.cached_sets.specs.Noted.{places_of};
ghost use Rattle.link_table.specs.Pairs.{is_pair};
ghost use Rattle.std.specs.List.{filter};
ghost use Rattle.std.specs.Option.{option_and_then};
ghost use Rattle.std.specs.Prelude.{List, None, Some, [], cond, false, nat_eq, nat_le, not, true, ℕ, ◌&&◌, ◌++◌, ◌||◌, ◌∷◌, ◌≡◌};
ghost use Rattle.thor_value.specs.FiniteMap.{IsSorted, has};
ghost use Rattle.thor_value.specs.declared.names.Oref.{Oref};
ghost use Rattle.validation_queue.specs.Names.{is_among};

/// A write is in the invalid sets of just the other sessions that have the page of a written object, at
/// the place of the write, until it is acknowledged; a session has the pages that it cached. So a fold over the calls of a
/// repository that keeps pages and invalid sets for each session has those of `Sets`.
pub fn sets_say_what_was_called()
    ensures begins { (s : ℕ) (x : Oref) → place_in no_sets s x ≡ None }
    ensures empty { (s page : ℕ) → has_page no_sets s page ≡ false }
    ensures touched { (S : Sets) (writer : ℕ) (names : List Oref) (k s : ℕ) (x : Oref) → has S.invalid s ≡ true →
        place_in (touch S writer names k) s x
        ≡ cond (not (nat_eq s writer) && has_page S s x.page && is_among names x) (Some k) (place_in S s x) }
    ensures cached { (S : Sets) (n page s p : ℕ) →
        has_page (cache S n page) s p ≡ has_page S s p || is_pair s p (n, page) }
    ensures opened { (S : Sets) (n page : ℕ) → has (cache S n page).invalid n ≡ true }
    ensures acknowledged { (S : Sets) (n upto s : ℕ) (x : Oref) → IsOrdered S.invalid →
        place_in (acknowledge S n upto) s x
        ≡ cond (nat_eq n s) (option_and_then (unless_below upto) (place_in S s x)) (place_in S s x) }
    ensures dropped { (S : Sets) (n s : ℕ) (x : Oref) → IsOrdered S.invalid →
        place_in (drop_session S n) s x ≡ cond (nat_eq n s) None (place_in S s x) }
{}

/// The sets begin in the order of their keys, and each call leaves them so.
pub fn sets_stay_ordered()
    ensures begin { IsOrdered no_sets.invalid }
    ensures cached { (S : Sets) (s page : ℕ) → IsOrdered S.invalid → IsOrdered (cache S s page).invalid }
    ensures touched { (S : Sets) (writer : ℕ) (names : List Oref) (k : ℕ) → IsOrdered S.invalid →
        IsOrdered (touch S writer names k).invalid }
    ensures acknowledged { (S : Sets) (s upto : ℕ) → IsOrdered S.invalid →
        IsOrdered (acknowledge S s upto).invalid }
    ensures dropped { (S : Sets) (s : ℕ) → IsOrdered S.invalid → IsOrdered (drop_session S s).invalid }
{}

/// A session has the places that were noted of it and that its client hasn't acknowledged, in the order of noting, where
/// that never falls.
pub fn places_say_what_was_told()
    ensures begins { (s : ℕ) → places_of no_sets.noted s ≡ [] }
    ensures noted { (S : Sets) (n k s : ℕ) →
        places_of (note S n k).noted s ≡ places_of S.noted s ++ cond (nat_eq n s) (k ∷ []) [] }
    ensures acknowledged { (S : Sets) (n upto s : ℕ) → NeverFall (places_of S.noted n) →
        places_of (acknowledge S n upto).noted s
        ≡ cond (nat_eq n s) (filter (nat_le upto) (places_of S.noted s)) (places_of S.noted s) }
    ensures dropped { (S : Sets) (n s : ℕ) → IsSorted S.noted →
        places_of (drop_session S n).noted s ≡ cond (nat_eq n s) [] (places_of S.noted s) }
    ensures begins_ordered { IsSorted no_sets.noted }
    ensures noted_ordered { (S : Sets) (n k : ℕ) → IsSorted S.noted → IsSorted (note S n k).noted }
    ensures acknowledged_ordered { (S : Sets) (n upto : ℕ) → IsSorted S.noted →
        IsSorted (acknowledge S n upto).noted }
    ensures dropped_ordered { (S : Sets) (n : ℕ) → IsSorted S.noted → IsSorted (drop_session S n).noted }
{}
