//! Worked rows of the definition of a schedule's events.

ghost use Rattle.std.specs.Prelude.{◌≡◌, ◌++◌, [], ◌∷◌, codes, Some, None, Ok, Err};
ghost use Rattle.schedule.specs.declared.events.EventKind.TheVariants.{Step, Deliver, Flush, Checkpoint, Stop, Restart, Settle, Unknown};
ghost use Rattle.schedule.specs.Breaks.{least_breach};
ghost use Rattle.schedule.specs.Rows.{events_in, event};

/// The events of short schedules.
#[tactic(auto, unfolding(script_text::specs::Tokens::tokens_of, script_text::specs::Tokens::tokens_among, script_text::specs::Pieces::pieces, script_text::specs::Pieces::first_piece, script_text::specs::Pieces::word_piece, script_text::specs::Pieces::number_piece, script_text::specs::Pieces::symbol_piece, schedule::specs::Schedule::events_of, schedule::specs::Schedule::read, schedule::specs::Schedule::step, schedule::specs::Schedule::mark_of))]
fn events()
    ensures nothing { events_in [] ≡ Ok [] }
    ensures each_kind { events_in (codes "s1 d2.0 f0 k1 x1.2 c0.9 q7") ≡ Ok (event 1 (Step 1) ∷ event 1 (Deliver 2 0) ∷ event 1 (Flush 0)
        ∷ event 1 (Checkpoint 1) ∷ event 1 (Stop 1 2) ∷ event 1 (Restart 0 9) ∷ event 1 (Settle 7) ∷ []) }
    ensures three_words { events_in (codes "d1 ." ++ 10 ∷ codes "0") ≡ Ok (event 1 (Deliver 1 0) ∷ []) }
    ensures greatest { events_in (codes "s4294967295 s4294967296") ≡ Ok (event 1 (Step 4294967295) ∷ event 1 Unknown ∷ []) }
    ensures leading_zeros { events_in (codes "s0 s01 d1.00") ≡ Ok (event 1 (Step 0) ∷ event 1 Unknown ∷ event 1 Unknown ∷ []) }
    ensures wrong_form { events_in (codes "s1.0 d1 s x1") ≡ Ok (event 1 Unknown ∷ event 1 Unknown ∷ event 1 Unknown ∷ event 1 Unknown ∷ []) }
{}

/// Texts that are no schedule, with the line at which they can't go on.
#[tactic(auto, unfolding(script_text::specs::Tokens::tokens_of, script_text::specs::Tokens::tokens_among, script_text::specs::Pieces::pieces, script_text::specs::Pieces::first_piece, script_text::specs::Pieces::word_piece, script_text::specs::Pieces::number_piece, script_text::specs::Pieces::symbol_piece, schedule::specs::Schedule::events_of, schedule::specs::Schedule::read, schedule::specs::Schedule::step, schedule::specs::Schedule::mark_of))]
fn faults()
    ensures number { events_in (codes "s1" ++ 10 ∷ codes "5") ≡ Err (record { line = 2 }) }
    ensures point_at_the_end { events_in (codes "d1." ++ 10 ∷ []) ≡ Err (record { line = 1 }) }
    ensures name_behind_a_point { events_in (codes "d1." ++ 10 ∷ codes "s1") ≡ Err (record { line = 2 }) }
    ensures keyword { events_in (codes "s1 client") ≡ Err (record { line = 1 }) }
{}

/// The least line of an event that breaks the rule, with two clients and two repositories.
#[tactic(auto, unfolding(schedule::specs::Breaks::least_breach))]
fn breaches()
    ensures none { least_breach 2 2 (event 1 (Step 2) ∷ event 2 (Flush 1) ∷ []) ≡ None }
    ensures client_0 { least_breach 2 2 (event 1 (Step 0) ∷ []) ≡ Some 1 }
    ensures client_3 { least_breach 2 2 (event 4 (Deliver 3 0) ∷ []) ≡ Some 4 }
    ensures repository_2 { least_breach 2 2 (event 1 (Stop 2 0) ∷ []) ≡ Some 1 }
    ensures unknown { least_breach 2 2 (event 1 (Step 1) ∷ event 7 Unknown ∷ event 5 (Flush 9) ∷ event 6 Unknown ∷ []) ≡ Some 5 }
{}

#[test]
fn worked_rows() {
    events();
    faults();
    breaches();
}
