//! What is proved of epochs and of thresholds.

ghost use Rattle.log_entries.specs.declared.entry.Entry.{Entry};
ghost use Rattle.spec_trace.specs.Epochs.{BringsOldVersions, FencesCount, TellsEpochs, ThresholdsCommit};
ghost use Rattle.spec_history.specs.History.{Base};
ghost use Rattle.spec_history.specs.Opening.{IsBase};
ghost use Rattle.spec_trace.specs.Session.{session};
ghost use Rattle.spec_history.specs.Sound.{sound};
ghost use Rattle.spec_trace.specs.Trace.{Item, entries};
ghost use Rattle.std.specs.Option.{IfSome};
ghost use Rattle.std.specs.Prelude.{List, ℕ};
ghost use Rattle.thor_value.specs.Names.{AtMost};
ghost use Rattle.repo_refusals.specs.Window.{window};

/// A request's epoch is the base's plus the upgrades before it, by place and by timestamp alike.
pub fn fences_count()
    ensures { (b : Base) (H : List Entry) → sound b H → FencesCount b H }
{}

/// The messages to a session tell it each epoch before what is of that epoch. So no page brings a version
/// that its client hasn't been told of.
pub fn epochs_are_told()
    ensures told { (b : Base) (T : List Item) (s : ℕ) → IfSome (session b T s) (λ v. TellsEpochs b (entries T) v) }
    ensures brought { (b : Base) (T : List Item) (s : ℕ) → IsBase b → sound b (entries T) →
        IfSome (session b T s) (λ v. BringsOldVersions b (entries T) v) }
{}

/// The window's threshold and the greatest timestamp are those of transactions that committed, or the
/// base's. So the threshold isn't below what committed in earlier runs.
pub fn thresholds_commit()
    ensures committed { (b : Base) (H : List Entry) → sound b H → ThresholdsCommit b H }
    ensures above { (b : Base) (H : List Entry) → sound b H → AtMost b.top (window b H).threshold }
{}
