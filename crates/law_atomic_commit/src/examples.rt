//! Small runs of two repositories (`specs/AcrossExamples.antt`): each history is sound by itself, and each
//! clause of what two-phase commit keeps is needed.

ghost use Rattle.law_atomic_commit.specs.AcrossExamples.{abroad, at, box, crossing, dropped, hasty, parted, unheard, z};
ghost use Rattle.law_atomic_commit.specs.AskedExamples.{coordinated};
ghost use Rattle.law_atomic_commit.specs.Asking.{coordinator_answer};
ghost use Rattle.law_atomic_commit.specs.AtomicTest.{is_agreed, is_everywhere, is_given_up, is_known_there};
ghost use Rattle.law_atomic_commit.specs.Several.{committed, histories};
ghost use Rattle.spec_history.specs.Checking.{is_sound};
ghost use Rattle.spec_history.specs.History.{objects_at};
ghost use Rattle.spec_trace.specs.Calls.{Settled, Undecided};
ghost use Rattle.std.specs.Prelude.{Some, ◌&&◌, ◌≡◌, true, false};
ghost use Rattle.thor_value.specs.FiniteMap.{get};

/// Two transactions that cross, of which one is aborted, and a third that reads what the other wrote.
pub fn crossing_transactions()
    ensures sound { (is_sound (crossing.base 0) (crossing.history 0) && is_sound (crossing.base 1) (crossing.history 1)) ≡ true }
    ensures atomic { (is_known_there crossing && is_everywhere crossing && is_agreed crossing && is_given_up crossing) ≡ true }
    ensures first { committed crossing (at 1) ≡ true }
    ensures second { committed crossing (at 2) ≡ false }
    ensures third { committed crossing (at 3) ≡ true }
{}

/// What is committed elsewhere and aborted by its coordinator: another transaction has read it.
pub fn needs_agreement()
    ensures sound { (is_sound (parted.base 0) (parted.history 0) && is_sound (parted.base 1) (parted.history 1)) ≡ true }
    ensures rest { (is_known_there parted && is_everywhere parted && is_given_up parted) ≡ true }
    ensures broken { is_agreed parted ≡ false }
    ensures met { get (objects_at (parted.base 1) (parted.history 1) 3) z ≡ Some (box 6) }
    ensures committed { committed parted (at 1) ≡ false }
{}

/// What is aborted elsewhere and committed by its coordinator: another transaction has missed it.
pub fn needs_giving_up()
    ensures sound { (is_sound (dropped.base 0) (dropped.history 0) && is_sound (dropped.base 1) (dropped.history 1)) ≡ true }
    ensures rest { (is_known_there dropped && is_everywhere dropped && is_agreed dropped) ≡ true }
    ensures broken { is_given_up dropped ≡ false }
    ensures met { get (objects_at (dropped.base 1) (dropped.history 1) 3) z ≡ Some (box 0) }
    ensures committed { committed dropped (at 1) ≡ true }
{}

/// What is committed elsewhere and unknown to its coordinator.
pub fn needs_the_coordinator()
    ensures sound { (is_sound (unheard.base 0) (unheard.history 0) && is_sound (unheard.base 1) (unheard.history 1)) ≡ true }
    ensures rest { (is_everywhere unheard && is_given_up unheard) ≡ true }
    ensures broken { is_known_there unheard ≡ false }
{}

/// What committed before each participant had prepared it.
pub fn needs_all_participants()
    ensures sound { (is_sound (hasty.base 0) (hasty.history 0) && is_sound (hasty.base 1) (hasty.history 1)) ≡ true }
    ensures rest { (is_known_there hasty && is_agreed hasty && is_given_up hasty) ≡ true }
    ensures broken { is_everywhere hasty ≡ false }
    ensures other { committed hasty (abroad 2) ≡ true }
{}

/// What a coordinator answers: of one that is forgotten, of one that was aborted, of one whose decision is kept, of
/// one that committed alone and was followed by another of its client, of that one, of one that is undecided, and of
/// one that never came.
pub fn answers_of_a_coordinator()
    ensures sound { (is_sound (coordinated.base 0) ((histories coordinated).history 0) && is_sound (coordinated.base 1) ((histories coordinated).history 1)) ≡ true }
    ensures atomic { (is_known_there (histories coordinated) && is_everywhere (histories coordinated) && is_agreed (histories coordinated) && is_given_up (histories coordinated)) ≡ true }
    ensures forgotten { coordinator_answer coordinated (at 1) ≡ Settled false }
    ensures aborted { coordinator_answer coordinated (at 2) ≡ Settled false }
    ensures kept { coordinator_answer coordinated (at 3) ≡ Settled true }
    ensures followed { coordinator_answer coordinated (at 4) ≡ Settled false }
    ensures alone { coordinator_answer coordinated (at 5) ≡ Settled true }
    ensures undecided { coordinator_answer coordinated (at 6) ≡ Undecided }
    ensures unseen { coordinator_answer coordinated (at 7) ≡ Settled false }
{}
