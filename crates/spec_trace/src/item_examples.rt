//! What items owe to the trace before them, computed on small traces (`specs/ExactExamples.antt`).

ghost use Rattle.spec_trace.specs.Calls.{Settled, Undecided, asked, drawer, is_kept, last_drawn, next_page, next_session, welcome};
ghost use Rattle.spec_trace.specs.Exact.{ComesFromSession, ItemIsExact, exact};
ghost use Rattle.spec_trace.specs.ExactExamples.{borrowed, copy_of_x, creating, deciding, fetched, forgetting, granted_to_other, nothing_committed, opened, refusing, restarted, since_fetched};
ghost use Rattle.spec_history.specs.Examples.{again, at, create_z, home, reading_x, upgraded, x};
ghost use Rattle.spec_trace.specs.Current.{Takes};
ghost use Rattle.spec_trace.specs.Epochs.{upgrades_before};
ghost use Rattle.spec_trace.specs.Gaps.{ByOthers, GrowsByOthers};
ghost use Rattle.spec_history.specs.History.{commits};
ghost use Rattle.spec_trace.specs.Session.{Invalid, session};
ghost use Rattle.std.specs.Option.{IsSomeAnd};
ghost use Rattle.spec_trace.specs.SessionExamples.{connected_anew, invalid_taken, written_since};
ghost use Rattle.spec_trace.specs.Trace.{E, M};
ghost use Rattle.spec_trace.specs.VerdictExamples.{second_reads};
ghost use Rattle.spec_trace.specs.declared.mark.Mark.TheVariants as the;
ghost use Rattle.base_reasons.specs.declared.reason.Reason.TheVariants as reasons;
ghost use Rattle.repo_refusals.specs.declared.refusal.Refusal.TheVariants as refused;
ghost use Rattle.std.specs.Prelude.{None, Some, [], ◌∷◌, ◌++◌, ◌≡◌, false, take, true};
ghost use Rattle.thor_value.specs.Names.{zero_ts};

/// Traces that a repository may have.
pub fn exact_examples()
    ensures written_since { exact home written_since }
    ensures creating { exact home creating }
    ensures forgetting { exact home forgetting }
    ensures refusing { exact home refusing }
{}

/// Items that no repository adds: a session number twice, a page that isn't the next one, a message that
/// doesn't wait, a timestamp below the last one or of another life, a refusal that isn't the verdict's, a
/// call of a session that has ended, a request under another client's session, one that writes on a page
/// that wasn't granted or that was granted to another session, and a decision that nobody made.
pub fn inexact_examples()
    ensures number { ¬ ItemIsExact home opened (M (the.Connected 1 2)) }
    ensures page { ¬ ItemIsExact home opened (M (the.Granted 1 2)) }
    ensures message { ¬ ItemIsExact home opened (M (the.Took 1 1)) }
    ensures time { ¬ ItemIsExact home (take 3 creating) (M (the.Drew 1 (at 1))) }
    ensures life { ¬ ItemIsExact home opened (M (the.Drew 1 (again 1))) }
    ensures refusal { ¬ ItemIsExact home opened (M (the.Refused 1 (Some (reading_x 3)) (refused.Reason (reasons.Epoch 1)))) }
    ensures ended { ¬ ItemIsExact home connected_anew (M (the.Fetched 2 0 0)) }
    ensures client { ¬ ComesFromSession home invalid_taken borrowed }
    ensures granted { ¬ ItemIsExact home opened (E (create_z 1)) }
    ensures paged { ¬ ItemIsExact home granted_to_other (E (create_z 1)) }
    ensures forgotten { ¬ ItemIsExact home opened (M (the.Forgot (at 1))) }
{}

/// What a trace answers to calls.
pub fn call_examples()
    ensures session { next_session written_since ≡ 3 }
    ensures page { next_page home creating ≡ 2 }
    ensures drawn { last_drawn home creating ≡ 1 }
    ensures restarted { last_drawn home restarted ≡ 7 }
    ensures drawer { drawer creating (at 1) ≡ Some 1 }
    ensures nobody { drawer creating (at 2) ≡ None }
    ensures undecided { asked home (take 6 deciding) (at 1) ≡ Undecided }
    ensures kept { asked home deciding (at 1) ≡ Settled true }
    ensures forgotten { asked home forgetting (at 1) ≡ Settled false }
    ensures alone { asked home creating (at 1) ≡ Settled true }
    ensures unknown { asked home opened (at 1) ≡ Settled false }
    ensures is_kept { is_kept home deciding (at 1) ≡ true }
    ensures welcome { welcome home written_since ≡ record { session = 3; epoch = 0; threshold = zero_ts; place = 3; upgrades = [] } }
{}

/// A copy that a client fetched, behind what others have done since: all that the law of growth asks, and
/// a message that the client takes then.
pub fn growth_examples()
    ensures grows { IsSomeAnd (session home fetched 2) (λ v. GrowsByOthers home fetched since_fetched 2 v nothing_committed copy_of_x) }
    ensures own { ¬ ByOthers home 1 fetched since_fetched }
    ensures takes { IsSomeAnd (session home written_since 2) (λ v. IsSomeAnd (session home invalid_taken 2) (λ w. Takes home written_since 2 v w 2 (Invalid (x ∷ []) 2))) }
    ensures fence { upgrades_before (at 3) (commits home upgraded) ≡ 1 }
    ensures before { upgrades_before (at 1) (commits home upgraded) ≡ 0 }
{}
