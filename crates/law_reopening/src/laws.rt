//! What is proved of openings.

ghost use Rattle.spec_history.specs.Examples.{recovered};
ghost use Rattle.spec_history.specs.Opening.{IsBase, Recovered, opened};
ghost use Rattle.law_reopening.specs.Recovering.{CanOpen};
ghost use Rattle.std.specs.Prelude.{Bool, Option, ℕ};
ghost use Rattle.thor_value.specs.declared.names.Ts.{Ts};

/// What a repository's disks stand for, where it can be opened, makes a base: whichever of the transactions
/// that were left prepared their coordinators commit, once these are settled the history can begin.
pub fn what_is_recovered_opens_as_a_base()
    ensures { (R : Recovered) (limit : ℕ) (silence : Option ℕ) (tells : Bool) (commits : Ts → Bool) → CanOpen R commits →
        IsBase (opened R limit silence tells commits) }
{}

/// What an earlier run left with one transaction prepared, under another coordinator, can be opened, whichever way it
/// ends.
pub fn what_was_left_prepared_can_open()
    ensures { (commits : Bool) → CanOpen recovered (λ t. commits) }
{}
