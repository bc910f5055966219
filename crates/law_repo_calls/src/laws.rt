//! What runs of events leave.

ghost use Rattle.spec_history.specs.History.{Base};
ghost use Rattle.repo_core.specs.Shown.{Shown};
ghost use Rattle.law_repo_calls.specs.Seen.{IsRun, StandsRight, phase, seen};
ghost use Rattle.law_repo_runs.specs.Standing.{IsRight};

/// A call that is a run of events leaves a repository right that was so: its history is sound, its trace exact, and what is
/// in memory says what the trace says.
pub fn calls_stay_right()
    ensures right { (b : Base) (x y : Shown) → StandsRight b x → IsRun b x y → StandsRight b y }
    ensures is { (b : Base) (x : Shown) → StandsRight b x → IsRight b (seen x) (phase x) }
{}
