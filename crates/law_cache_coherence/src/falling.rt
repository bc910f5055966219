//! That a client comes to an end, where something falls at each of its steps.

ghost use Rattle.client_state.specs.Owing.{calls_of, calls_of_all};
ghost use Rattle.client_state.specs.declared.duties.Duty.TheVariants.{Finish, Forget};
ghost use Rattle.client_items.specs.Falling.{Falls, Left};
ghost use Rattle.session_outbox.specs.declared.answers.Verdict.{Verdict};
ghost use Rattle.std.specs.Prelude.{Bool, [], true, ℕ, ◌+◌, ◌∷◌, ◌≡◌};
ghost use Rattle.thor_value.specs.declared.names.Ts.{Ts};

/// What holds of what is left as soon as it holds of all that is less holds of all: so there is no step for ever where
/// something falls at each.
pub fn falling_ends()
    ensures induction { (holds : Left → Bool) → ((old : Left) → ((new : Left) → Falls old new → holds new ≡ true) → holds old ≡ true) → (l : Left) → holds l ≡ true }
    ensures never { (f : ℕ → Left) → ¬ ((n : ℕ) → Falls (f n) (f (n + 1))) }
{}

/// A verdict that two participants are to be told takes three calls at most, the last to forget it.
pub fn owed_calls()
    ensures finish { (v : Verdict) (forgets : Bool) → calls_of (Finish v (1 ∷ 2 ∷ []) forgets) ≡ 3 }
    ensures both { (v : Verdict) (t : Ts) (forgets : Bool) → calls_of_all (Finish v (1 ∷ []) forgets ∷ Forget t ∷ []) ≡ 3 }
{}
