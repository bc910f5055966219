//! That a client hands on verdicts only as they were told.

ghost use Rattle.client_items.specs.declared.news.News.{News};
ghost use Rattle.client_port.specs.Views.{View};
ghost use Rattle.client_state.specs.Pending.{Pending};
ghost use Rattle.client_state.specs.Stepping.{Present, StepsSo};
ghost use Rattle.client_state.specs.declared.duties.Duties.{Duties};
ghost use Rattle.client_state.specs.declared.held.Held.{Held};
ghost use Rattle.law_two_phase_clients.specs.Handing.{DutiesStand, HandsOnSo, HasToHandOn, StoodOrIsTold};

/// Behind a step a client has to hand on only verdicts that it had to hand on before, or that a repository has told by the step's call; and what the call
/// hands on it had to. So through all its steps it hands on only what it was told.
pub fn verdicts_are_handed_on_as_told()
    ensures comes { (item : Present) (old new : View) (before after : Held) (a z : Pending) (d e : Duties) (came : News) → (step : StepsSo item old new before after a z d e came) →
        DutiesStand (StoodOrIsTold d old new) e }
    ensures hands { (item : Present) (old new : View) (before after : Held) (a z : Pending) (d e : Duties) (came : News) → (step : StepsSo item old new before after a z d e came) →
        HandsOnSo (HasToHandOn d) old new before after step.moves }
{}
