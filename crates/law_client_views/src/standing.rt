//! That what is unsettled of a client can be read off a repository's state.

ghost use Rattle.client_port.specs.Growing.{Grew};
ghost use Rattle.client_port.specs.Views.{Calm};
ghost use Rattle.law_client_views.specs.Standing.{Restarts, Stops, unsettled_of};
ghost use Rattle.law_repo_memory.specs.Agreeing.{trace_of};
ghost use Rattle.law_repo_memory.specs.Running.{Repository};
ghost use Rattle.law_repo_runs.specs.Restarting.{Does, Restart, RestartFails};
ghost use Rattle.law_repo_runs.specs.Standing.{Phase};
ghost use Rattle.spec_history.specs.History.{Base};
ghost use Rattle.spec_trace.specs.Trace.{IsTrace, Item};
ghost use Rattle.std.specs.Prelude.{List, ℕ};

/// Where what is unsettled of a client is read off a repository's state, each restart is growth for it, and so is a stop by
/// another, whatever was being written. The restarts are those of a repository, that come up and that fail.
pub fn states_tell_what_is_unsettled()
    ensures restart { (b : Base) (c : ℕ) (p q : Phase) (T S : List Item) → Restarts p T q S →
        Grew b c (unsettled_of b c T p) T (unsettled_of b c S q) S }
    ensures stop { (b : Base) (c : ℕ) (p : Phase) (T : List Item) → Stops b c T p → Grew b c Calm T (unsettled_of b c T p) T }
    ensures comes_up { (b : Base) (x y : Repository) (p q : Phase) → IsTrace x.trace.history x.trace.marks →
        Does b x p Restart y q → Restarts p (trace_of x.trace) q (trace_of y.trace) }
    ensures fails { (b : Base) (x y : Repository) (p q : Phase) → IsTrace x.trace.history x.trace.marks →
        Does b x p RestartFails y q → Restarts p (trace_of x.trace) q (trace_of y.trace) }
{}
