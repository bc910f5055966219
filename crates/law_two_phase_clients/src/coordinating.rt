//! That a client asks only the repository that decides what it has sent.

ghost use Rattle.client_items.specs.declared.news.News.{News};
ghost use Rattle.client_port.specs.Views.{View};
ghost use Rattle.client_state.specs.Handing.{IsSentBy};
ghost use Rattle.client_state.specs.Pending.{Pending};
ghost use Rattle.client_state.specs.Stepping.{Present, StepsSo};
ghost use Rattle.client_state.specs.Written.{LeavesSo};
ghost use Rattle.client_state.specs.declared.duties.Duties.{Duties};
ghost use Rattle.client_state.specs.declared.held.Held.{Held};
ghost use Rattle.client_state.specs.declared.link.Link.{Link};
ghost use Rattle.client_state.specs.declared.transaction.Sent.{Sent};
ghost use Rattle.law_two_phase_clients.specs.Coordinating.{AsksCoordinators};
ghost use Rattle.std.specs.Prelude.{List, ℕ, ◌≡◌};

/// What a client has sent to be decided, and what its links keep of Unknown items, is decided by the repository that it asks, through all its steps: so each
/// verdict on a transaction of its own is told by the one from which the transaction's timestamp is.
pub fn coordinators_are_asked()
    ensures stays { (item : Present) (old new : View) (before after : Held) (a z : Pending) (d e : Duties) (came : News) → (step : StepsSo item old new before after a z d e came) →
        LeavesSo item old new before after step.moves a z came step.tries → AsksCoordinators a before.links.items → AsksCoordinators z after.links.items }
    ensures told { (a : Pending) (links : List Link) (r : ℕ) (sent : Sent) → IsSentBy a links r sent → AsksCoordinators a links → r ≡ sent.ts.repo }
{}
