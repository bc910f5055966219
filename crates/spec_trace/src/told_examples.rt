//! The definitions of sessions, computed on a small trace (`specs/SessionExamples.antt`).

ghost use Rattle.spec_history.specs.Examples.{at, away, box, far, home, reading_x, set_x, two_commits, x};
ghost use Rattle.spec_history.specs.Checking.{is_sound};
ghost use Rattle.spec_trace.specs.Current.{IsCurrent, RightAt};
ghost use Rattle.spec_history.specs.History.{Aborted, Committed, Open, objects_at, known_by};
ghost use Rattle.spec_trace.specs.Session.{Ended, Invalid, Live, Page, Retired, session, waiting};
ghost use Rattle.spec_trace.specs.SessionExamples.{acknowledged, committed_there, connected_anew, hasty, invalid_taken, kept_marks, known_in, own_aborted, own_finished, own_prepared, restarted, stage_in, waiting_in, written_since, x_invalid_in};
ghost use Rattle.spec_trace.specs.Trace.{E, entries, items};
ghost use Rattle.spec_trace.specs.Verdict.{verdict};
ghost use Rattle.base_reasons.specs.declared.reason.Reason.TheVariants as reasons;
ghost use Rattle.repo_refusals.specs.declared.refusal.Refusal.TheVariants as refused;
ghost use Rattle.std.specs.Option.{IsSomeAnd, option_map};
ghost use Rattle.std.specs.Prelude.{◌≡◌, [], ◌∷◌, ◌++◌, None, Some, false, take, true};
ghost use Rattle.thor_value.specs.FiniteMap.{get};

/// What a session is told, what waits for it, and what its client knows.
pub fn session_examples()
    ensures page { waiting_in (take 4 written_since) ≡ Some (Page 0 1 ∷ []) }
    ensures nothing_written { x_invalid_in (take 8 written_since) ≡ None }
    ensures told { waiting_in written_since ≡ Some (Invalid (x ∷ []) 2 ∷ []) }
    ensures known { known_in written_since ≡ Some 1 }
    ensures stale { x_invalid_in written_since ≡ Some 2 }
    ensures own { option_map waiting (session home written_since 1) ≡ Some [] }
    ensures taken { waiting_in invalid_taken ≡ Some [] }
    ensures known_then { known_in invalid_taken ≡ Some 3 }
    ensures stale_until_acknowledged { x_invalid_in invalid_taken ≡ Some 2 }
    ensures acknowledged { x_invalid_in acknowledged ≡ None }
    ensures fetched_again { waiting_in acknowledged ≡ Some (Page 0 3 ∷ []) }
{}

/// Which sessions are live, which are retired, and which have ended. A retired one is told nothing more,
/// and ends as a live one does.
pub fn session_life_examples()
    ensures live { stage_in home written_since ≡ Some Live }
    ensures anew { stage_in home connected_anew ≡ Some Ended }
    ensures restarted { stage_in home restarted ≡ Some Ended }
    ensures patient { stage_in hasty (take 8 written_since) ≡ Some Live }
    ensures silent { stage_in hasty written_since ≡ Some Retired }
    ensures untold { option_map waiting (session hasty (written_since ++ E (set_x 3 8) ∷ []) 2) ≡ Some (Invalid (x ∷ []) 2 ∷ []) }
    ensures silent_anew { stage_in hasty connected_anew ≡ Some Ended }
    ensures silent_restarted { stage_in hasty restarted ≡ Some Ended }
    ensures gone { verdict hasty written_since 2 (reading_x 3) ≡ Some (refused.Reason (reasons.Gone 2)) }
    ensures nobody { stage_in home (take 2 written_since) ≡ None }
{}

/// A write of a session's own: what stands here is still the old object while the transaction is
/// undecided here, and the new one is current all the same. Behind the commit it is right.
pub fn own_write_examples()
    ensures undecided { option_map (λ w. w.fate) (known_by away (entries own_prepared) (at 1)) ≡ Some Open }
    ensures old { get (objects_at away (entries own_prepared) 1) far ≡ Some (box 0) }
    ensures current { IsSomeAnd (session away own_prepared 1) (λ v. IsCurrent away (entries own_prepared) 1 v committed_there far (box 7)) }
    ensures committed { option_map (λ w. w.fate) (known_by away (entries own_finished) (at 1)) ≡ Some (Committed 2) }
    ensures right { IsSomeAnd (session away own_finished 1) (λ v. RightAt away (entries own_finished) 1 v far (box 7) 3) }
    ensures sound { is_sound away (entries own_finished) ≡ true }
    ensures aborted { option_map (λ w. w.fate) (known_by away (entries own_aborted) (at 1)) ≡ Some Aborted }
{}

/// The history of a trace is its entries, and they keep their places.
pub fn trace_example()
    ensures { entries (items two_commits kept_marks) ≡ two_commits }
{}
