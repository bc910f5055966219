//! Worked examples of what disks stand for: a function with an empty body, whose clauses compute.

ghost use Rattle.commit_log.specs.Examples.{at, name, number};
ghost use Rattle.std.specs.Prelude.{Some, [], false, true, ◌∷◌, ◌≡◌};
ghost use Rattle.store_opening.specs.Examples.{both, there};
ghost use Rattle.store_opening.specs.OpenedStore.{is_committed, objects_of, states_of};
ghost use Rattle.thor_value.specs.FiniteMap.{get};

/// An object in a page and in the buffer is the buffer's. What is prepared counts where its coordinator keeps the
/// decision to commit it, and only there.
pub fn disks_stand_for_their_objects()
    ensures in_the_buffer { get (objects_of both) (name 0 0) ≡ Some (number 3) }
    ensures on_the_page { get (objects_of both) (name 0 1) ≡ Some (number 2) }
    ensures decided { is_committed (states_of both) (at 5 0) ≡ true }
    ensures undecided { is_committed (states_of both) (at 6 0) ≡ false }
    ensures all { (objects_of both).pairs ≡ (name 0 0, number 3) ∷ (name 0 1, number 2) ∷ (there 0, number 4) ∷ (there 1, number 6) ∷ [] }
{}
