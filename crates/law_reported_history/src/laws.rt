//! What is proved of the history that is reported of a run, and of what is left of its repositories.

ghost use Rattle.cluster_core.specs.Committed.{committed_lines};
ghost use Rattle.cluster_core.specs.Histories.{AreHistories, EndsAs};
ghost use Rattle.cluster_core.specs.Seated.{run_of};
ghost use Rattle.cluster_port.specs.Sited.{IsLeft};
ghost use Rattle.disk_trait.specs.AllDisks.{MayLeaveAll, TellsAll};
ghost use Rattle.law_atomic_commit.specs.Several.{AreSound};
ghost use Rattle.law_reported_history.specs.Left.{StandFor};
ghost use Rattle.law_reported_history.specs.Reported.{as_told, performed, several_of, told_line};
ghost use Rattle.law_serializability.specs.WholeHistory.{whole_history};
ghost use Rattle.repo_trace.specs.declared.trace.Trace.{Trace};
ghost use Rattle.serial_model.specs.Outcomes.{Answers, all_items};
ghost use Rattle.serial_model.specs.declared.entries.Did.{Did};
ghost use Rattle.serial_model.specs.declared.entries.What.{What};
ghost use Rattle.serial_model.specs.declared.outcomes.Ended.{Ended};
ghost use Rattle.spec_history.specs.History.{Base};
ghost use Rattle.spec_history.specs.Laws.{LivesFollow};
ghost use Rattle.std.specs.List.{slice_get};
ghost use Rattle.std.specs.Prelude.{List, Some, map, true, ℕ, ◌≡◌};
ghost use Rattle.thor_value.specs.declared.values.Who.{Who};
ghost use Rattle.top_history_check.specs.Lines.{line_of};

use disk_trait::Parts;

/// The histories that the traces of a run tell are sound together, by the bases with which its repositories began, where these have
/// any. So the lives of each follow one another, from the one that the opening began.
pub fn traces_of_a_run_are_sound<P: Parts>()
    ensures sound { (given : List P) (traces : List Trace) (h : AreHistories P.disks given traces) → (run_of h.places h.mob h.start).based ≡ true →
        AreSound (several_of (run_of h.places h.mob h.start).base traces) }
    ensures lives { (given : List P) (traces : List Trace) (h : AreHistories P.disks given traces) → (run_of h.places h.mob h.start).based ≡ true →
        (r : ℕ) → LivesFollow ((run_of h.places h.mob h.start).base r) ((several_of (run_of h.places h.mob h.start).base traces).history r) }
{}

/// What traces tell as committed are the lines of their whole history, where each of their histories is sound.
pub fn committed_lines_are_the_whole_history()
    ensures { (items : Who → What) (base : ℕ → Base) (traces : List Trace) → AreSound (several_of base traces) →
        committed_lines traces ≡ map told_line (whole_history items (several_of base traces)) }
{}

/// So a history of these lines that answers the items of a script is the whole history of the traces.
pub fn reported_histories_are_whole()
    ensures { (clients : List (List What)) (base : ℕ → Base) (traces : List Trace) (h : List Did) (ended : List Ended) →
        AreSound (several_of base traces) → Answers h (all_items clients) ended → map line_of h ≡ committed_lines traces →
        h ≡ map as_told (whole_history (performed clients) (several_of base traces)) }
{}

/// What a crash leaves of the disks of each repository behind a run stands for its history, where the disks tell what they hold: for the
/// state that the history says, but for the objects, or for that with one entry more.
pub fn what_is_left_stands_for_the_history<P: Parts>()
    ensures left { (given ended : List P) (traces : List Trace) (e : EndsAs P.disks given ended traces) → (run_of e.histories.places e.histories.mob e.histories.start).based ≡ true →
        (r : ℕ) (part : P) (t : Trace) → slice_get ended r ≡ Some part → slice_get traces r ≡ Some t → IsLeft ((run_of e.histories.places e.histories.mob e.histories.start).base r) (P.disks part) t }
    ensures stands { (b : Base) (part : P) (t : Trace) (images : ℕ → List ℕ) → IsLeft b (P.disks part) t → TellsAll (P.disks part) → MayLeaveAll (P.disks part) (P.disks part).time images →
        StandFor b t.history images }
{}
