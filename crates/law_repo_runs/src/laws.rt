//! What is proved of runs of events of one repository.

ghost use Rattle.spec_history.specs.History.{Base};
ghost use Rattle.spec_history.specs.Sound.{sound};
ghost use Rattle.law_repo_memory.specs.Agreeing.{trace_of};
ghost use Rattle.law_repo_memory.specs.Running.{IsInAgreement, Repository};
ghost use Rattle.law_repo_runs.specs.Restarting.{Does, Event, Opens, Runs};
ghost use Rattle.law_repo_runs.specs.Standing.{IsRight, Phase, Up};
ghost use Rattle.law_repo_sessions.specs.Agreeing.{SessionsAgree};
ghost use Rattle.spec_trace.specs.Exact.{exact};
ghost use Rattle.std.specs.Prelude.{List};

/// Behind its opening a repository is as its trace says, where no transaction of another repository was left prepared.
pub fn repositories_open()
    ensures { (b : Base) (x y : Repository) → Opens b x y → IsRight b y Up }
{}

/// Whatever happens to it, it is so: behind entries and marks, flushes and checkpoints, faults with an entry that was being
/// written, and restarts that take this entry or not.
pub fn runs_stay_right()
    ensures event { (b : Base) (x y : Repository) (p q : Phase) (e : Event) → IsRight b x p → Does b x p e y q → IsRight b y q }
    ensures run { (b : Base) (x y : Repository) (p q : Phase) (es : List Event) → IsRight b x p → Runs b x p es y q → IsRight b y q }
{}

/// What that means: its history is sound and each item of its trace exact, and while it is up its memory and what it keeps
/// of its sessions say what the trace says.
pub fn what_is_right()
    ensures sound { (b : Base) (x : Repository) (p : Phase) → IsRight b x p → sound b x.trace.history }
    ensures exact { (b : Base) (x : Repository) (p : Phase) → IsRight b x p → exact b (trace_of x.trace) }
    ensures memory { (b : Base) (x : Repository) → IsRight b x Up → IsInAgreement b x }
    ensures sessions { (b : Base) (x : Repository) → IsRight b x Up → SessionsAgree b (trace_of x.trace) x.memory.sessions }
{}
