//! The commits of small runs of two repositories, computed, and what goes wrong where a clause of atomicity is
//! left out.

ghost use Rattle.law_atomic_commit.specs.AcrossExamples.{abroad, at, box, crossing, dropped, parted, unheard, v, x, y, z};
ghost use Rattle.law_atomic_commit.specs.AtomicTest.{is_agreed, is_everywhere, is_given_up, is_known_there};
ghost use Rattle.spec_history.specs.Checking.{is_sound};
ghost use Rattle.spec_history.specs.History.{objects_at, state};
ghost use Rattle.std.specs.Map.{keys_of};
ghost use Rattle.std.specs.Prelude.{Some, [], ◌&&◌, ◌≡◌, ◌∷◌, false, option_map, slice_get, take, true};
ghost use Rattle.thor_value.specs.FiniteMap.{get, keys};
ghost use Rattle.law_global_order.specs.Examples.{blind, box_in, halved, text, upgraded, upgraded_in_part};
ghost use Rattle.law_global_order.specs.Serial.{after_commits};
ghost use Rattle.law_global_order.specs.Turns.{texts_after};
ghost use Rattle.law_global_order.specs.Whole.{commits, finished, stored};

/// Two transactions that cross, of which one is aborted, and a third that reads what the other wrote. What
/// repository 1 hasn't heard of is there once it is finished.
pub fn crossing_commits()
    ensures commits { keys (commits crossing) ≡ at 1 ∷ at 3 ∷ [] }
    ensures x { get (stored crossing (commits crossing).pairs 0) x ≡ Some (box 5) }
    ensures y { get (stored crossing (commits crossing).pairs 0) y ≡ Some (box 8) }
    ensures z { get (stored crossing (commits crossing).pairs 1) z ≡ Some (box 6) }
    ensures finished { get (finished crossing (commits crossing).pairs 1) z ≡ Some (box 6) }
    ensures history { get (state (crossing.base 1) (crossing.history 1)).objects z ≡ Some (box 0) }
    ensures v { get (stored crossing (commits crossing).pairs 1) v ≡ Some (box 0) }
{}

/// Where what is committed elsewhere was aborted by its coordinator, or isn't known to it, a transaction met
/// what no commit before it left; where what its coordinator committed was aborted elsewhere, one missed what
/// a commit before it left.
pub fn unjoined_commits()
    ensures parted { keys (commits parted) ≡ abroad 2 ∷ [] }
    ensures parted_met { get (objects_at (parted.base 1) (parted.history 1) 3) z ≡ Some (box 6) }
    ensures parted_left { get (stored parted [] 1) z ≡ Some (box 0) }
    ensures unheard { keys (commits unheard) ≡ abroad 2 ∷ [] }
    ensures unheard_met { get (objects_at (unheard.base 1) (unheard.history 1) 3) z ≡ Some (box 6) }
    ensures unheard_left { get (stored unheard [] 1) z ≡ Some (box 0) }
    ensures dropped { keys (commits dropped) ≡ at 1 ∷ abroad 2 ∷ [] }
    ensures dropped_met { get (objects_at (dropped.base 1) (dropped.history 1) 3) z ≡ Some (box 0) }
    ensures dropped_left { get (stored dropped (take 1 (commits dropped).pairs) 1) z ≡ Some (box 6) }
{}

/// An upgrade between transactions of two repositories, and one that is left prepared at repository 1 while
/// its coordinator has committed it.
pub fn commits_with_an_upgrade()
    ensures sound { (is_sound (upgraded.base 0) (upgraded.history 0) && is_sound (upgraded.base 1) (upgraded.history 1)) ≡ true }
    ensures atomic { (is_known_there upgraded && is_everywhere upgraded && is_agreed upgraded && is_given_up upgraded) ≡ true }
    ensures commits { keys (commits upgraded) ≡ at 1 ∷ at 2 ∷ abroad 3 ∷ at 4 ∷ [] }
    ensures texts { texts_after [] (commits upgraded).pairs ≡ text ∷ [] }
    ensures x { get (stored upgraded (commits upgraded).pairs 0) x ≡ Some (box_in 1 8) }
    ensures v { get (stored upgraded (commits upgraded).pairs 1) v ≡ Some (box_in 1 7) }
    ensures z { get (stored upgraded (commits upgraded).pairs 1) z ≡ Some (box_in 1 9) }
    ensures finished { get (finished upgraded (commits upgraded).pairs 1) z ≡ Some (box_in 1 9) }
    ensures history { get (state (upgraded.base 1) (upgraded.history 1)).objects z ≡ Some (box 0) }
{}

/// What goes wrong where a history isn't sound. Where writers needn't read, of two writers that come against their
/// timestamps the history keeps one and the commits leave the other. Where one that names other participants may commit
/// alone, what it would have written there is missing. Where an upgrade needn't be everywhere, a transaction behind it
/// met none.
pub fn unsound_commits()
    ensures blind { is_sound (blind.base 0) (blind.history 0) ≡ false }
    ensures blind_commits { keys (commits blind) ≡ at 5 ∷ at 9 ∷ at 10 ∷ [] }
    ensures blind_met { get (objects_at (blind.base 0) (blind.history 0) 3) x ≡ Some (box 5) }
    ensures blind_left { get (stored blind (take 2 (commits blind).pairs) 0) x ≡ Some (box 9) }
    ensures halved { is_sound (halved.base 0) (halved.history 0) ≡ false }
    ensures halved_rest { (is_known_there halved && is_agreed halved && is_given_up halved) ≡ true }
    ensures halved_everywhere { is_everywhere halved ≡ false }
    ensures halved_writes { option_map (λ e. keys_of e.1.writes) (slice_get (commits halved).pairs 0) ≡ Some (x ∷ []) }
    ensures upgraded { is_sound (upgraded_in_part.base 0) (upgraded_in_part.history 0) ≡ false }
    ensures upgraded_commits { keys (commits upgraded_in_part) ≡ at 2 ∷ abroad 3 ∷ [] }
    ensures upgraded_met { (state (upgraded_in_part.base 1) (take 1 (upgraded_in_part.history 1))).texts ≡ [] }
    ensures upgraded_left { texts_after [] (take 1 (commits upgraded_in_part).pairs) ≡ text ∷ [] }
{}
