//! The definitions, computed on two small traces (`specs/Examples.antt`).

ghost use Rattle.std.specs.Prelude.{◌≡◌, ℕ, ◌∷◌, ◌++◌, [], Some, None, true, false};
ghost use Rattle.log_entries.specs.declared.entry.Entry.TheVariants.{Decided, Finished, Life, One, Prepared};
ghost use Rattle.spec_trace.specs.Trace.{E, Item, M};
ghost use Rattle.spec_trace.specs.declared.mark.Mark.TheVariants.{Connected, Drew, Fetched, Forgot, Granted};
ghost use Rattle.law_board_calls.specs.Examples.{at, away, connected, drawn, home, part, two};
ghost use Rattle.law_board_calls.specs.Justified.{AllHavePrepared, BelowHavePrepared, HasCommitted, HasDrawn, HasSession, IsGivenUp, OthersHaveFinished};
ghost use Rattle.law_board_calls.specs.Made.{KindMakes, Makes};
ghost use Rattle.law_board_calls.specs.Shown.{NeedsNoCall, client_of, is_open, prepared, shows};
ghost use Rattle.law_board_calls.specs.declared.calls.Call.{Call};
ghost use Rattle.law_board_calls.specs.declared.calls.CallKind.TheVariants.{Connect, Decide, Fetch, Grant};

/// Which client an item shows, behind the items before it.
pub fn clients_of_items()
    ensures by_session { shows home (M (Fetched 1 0 0)) ≡ Some 3 }
    ensures by_request { shows drawn (E (Prepared (part 5 1 (1 ∷ [])))) ≡ Some 3 }
    ensures connecting { shows home (M (Connected 4 2)) ≡ Some 2 }
    ensures connected_anew { shows (home ++ M (Connected 1 2) ∷ []) (M (Fetched 1 0 0)) ≡ Some 2 }
    ensures deciding { shows home (E (Decided (at 5) true)) ≡ Some 3 }
    ensures deciding_the_unknown { shows home (E (Decided (at 6) true)) ≡ None }
    ensures finishing { shows home (E (Finished (at 5) true)) ≡ None }
    ensures forgetting { shows home (M (Forgot (at 5))) ≡ None }
    ensures no_session { shows home (M (Fetched 9 0 0)) ≡ None }
{}

/// Which items need no call.
pub fn items_that_need_no_call()
    ensures life { NeedsNoCall home (E (Life 2)) }
    ensures settled_by_an_opening { NeedsNoCall connected (E (Finished (at 5) false)) }
    ensures finished_in_this_run { NeedsNoCall away (E (Finished (at 5) false)) → ⊥ }
    ensures marks { NeedsNoCall home (M (Fetched 1 0 0)) → ⊥ }
{}

/// Which items a call makes.
pub fn items_of_calls()
    ensures same { KindMakes 3 (Fetch 1 7 0) (M (Fetched 1 7 0)) }
    ensures another_page { KindMakes 3 (Fetch 1 7 0) (M (Fetched 1 8 0)) → ⊥ }
    ensures chosen_there { KindMakes 3 (Grant 1) (M (Granted 1 9)) }
    ensures another_client { KindMakes 3 Connect (M (Connected 1 2)) → ⊥ }
    ensures as_decided { KindMakes 3 (Decide 1 (at 5) true) (E (Decided (at 5) false)) → ⊥ }
{}

/// A call makes items where the trace ended when it was made, and nowhere else.
pub fn calls_have_one_place()
    ensures { (c : Call) (repo other place behind : ℕ) (i j : Item) → Makes c repo place i → Makes c other behind j → (repo ≡ other) × (place ≡ behind) }
{}

/// The first draw of a timestamp shows its client.
pub fn first_draws()
    ensures drawn { HasDrawn 3 (at 5) drawn }
    ensures still { HasDrawn 3 (at 5) home }
    ensures another_client { HasDrawn 2 (at 5) drawn → ⊥ }
    ensures another_time { HasDrawn 3 (at 6) drawn → ⊥ }
{}

/// What traces have to show for a call.
pub fn justified_calls()
    ensures session { HasSession 3 1 home }
    ensures below { BelowHavePrepared (two home connected) 1 (part 5 2 (0 ∷ [])) }
    ensures all { AllHavePrepared (two home away) 0 (at 5) }
    ensures committed { HasCommitted (at 5) (home ++ E (Decided (at 5) true) ∷ []) }
    ensures aborted { IsGivenUp (at 5) (home ++ E (Decided (at 5) false) ∷ []) }
    ensures undecided_at_a_life { IsGivenUp (at 5) (home ++ E (Life 2) ∷ []) }
    ensures forgotten { IsGivenUp (at 5) (home ++ M (Forgot (at 5)) ∷ []) }
    ensures finished { OthersHaveFinished (two home (away ++ E (Finished (at 5) true) ∷ [])) 0 (at 5) }
{}
