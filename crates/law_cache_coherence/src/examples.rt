//! What fits a trace and what doesn't, on small traces (`specs/Examples.antt`).

ghost use Rattle.law_cache_coherence.specs.Examples.{awaiting, copy_of_x, keeping, newer_of_x, no_copy, page_waits, unanswered};
ghost use Rattle.law_cache_coherence.specs.Fitting.{Agrees, AgreesStanding, FitsAt};
ghost use Rattle.spec_history.specs.Examples.{home};
ghost use Rattle.client_port.specs.Views.{Calm};
ghost use Rattle.spec_trace.specs.ExactExamples.{fetched, nothing_committed};
ghost use Rattle.spec_trace.specs.SessionExamples.{invalid_taken, restarted, written_since};
ghost use Rattle.spec_trace.specs.Trace.{entries};

/// A copy fits where it was right at a place that isn't known to be passed: as the page was taken, and when another
/// client has written the object, while the message of that waits. Behind the message none fits. Behind a restart the
/// session is gone, and all fits until its client is told.
pub fn what_fits()
    ensures taken { FitsAt 2 home Calm fetched nothing_committed (keeping 1 copy_of_x) }
    ensures written { FitsAt 2 home Calm written_since nothing_committed (keeping 1 copy_of_x) }
    ensures dropped { FitsAt 2 home Calm invalid_taken nothing_committed (keeping 3 no_copy) }
    ensures restarted { FitsAt 2 home Calm restarted nothing_committed (keeping 1 copy_of_x) }
{}

/// A copy that is kept behind the message that names it doesn't fit; nor does a client that has raised what it knows before
/// it took the message, one that hasn't raised it behind, one under another client's session, and a copy that is newer than a
/// page that waits.
pub fn what_does_not_fit()
    ensures kept { ¬ FitsAt 2 home Calm invalid_taken nothing_committed (keeping 3 copy_of_x) }
    ensures early { ¬ FitsAt 2 home Calm written_since nothing_committed (keeping 3 no_copy) }
    ensures late { ¬ FitsAt 2 home Calm invalid_taken nothing_committed (keeping 1 no_copy) }
    ensures other { ¬ FitsAt 1 home Calm fetched nothing_committed (keeping 1 copy_of_x) }
    ensures newer { ¬ FitsAt 2 home Calm page_waits nothing_committed (awaiting newer_of_x) }
{}

/// Where a decision to commit has come while its call stopped, and its client isn't told yet, it needn't be counted: the session
/// that prepared it has ended.
pub fn what_agrees()
    ensures unanswered { AgreesStanding home Calm unanswered 1 nothing_committed }
    ensures counted { ¬ Agrees home (entries unanswered) 1 nothing_committed }
{}
