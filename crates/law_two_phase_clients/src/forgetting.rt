//! That a coordinator is made to forget only what each other participant has taken.

ghost use Rattle.client_items.specs.declared.news.News.{News};
ghost use Rattle.client_port.specs.Views.{View};
ghost use Rattle.client_state.specs.Pending.{Pending};
ghost use Rattle.client_state.specs.Stepping.{Present, StepsSo};
ghost use Rattle.client_state.specs.declared.duties.Duties.{Duties};
ghost use Rattle.client_state.specs.declared.held.Held.{Held};
ghost use Rattle.law_two_phase_clients.specs.Forgetting.{AbortsNever, DutiesTold, ForgetsTaken, SentHas, taken_by};
ghost use Rattle.std.specs.Prelude.{List, ℕ};
ghost use Rattle.thor_value.specs.declared.names.Ts.{Ts};

/// Through all its steps a client has noted, of each verdict after which the coordinator may still be made to forget, that each participant but those that are
/// still to be told has answered; and by a step a coordinator is made to forget only what each other participant has taken. `taken` has who has answered
/// so far, `others` the participants of each transaction but its coordinator.
pub fn forgotten_verdicts_were_taken()
    ensures comes { (others : Ts → List ℕ) (taken : List (Ts × ℕ)) (item : Present) (old new : View) (before after : Held) (a z : Pending) (d e : Duties) (came : News) → (step : StepsSo item old new before after a z d e came) →
        SentHas others a before.links.items → AbortsNever old new before after step.moves → DutiesTold others taken d.verdicts → DutiesTold others (taken_by old new before after step.moves taken) e.verdicts }
    ensures forgets { (others : Ts → List ℕ) (taken : List (Ts × ℕ)) (item : Present) (old new : View) (before after : Held) (a z : Pending) (d e : Duties) (came : News) → (step : StepsSo item old new before after a z d e came) →
        SentHas others a before.links.items → DutiesTold others taken d.verdicts → ForgetsTaken others taken old new before after step.moves }
{}
