//! What is proved of runs of events.

ghost use Rattle.log_entries.specs.declared.entry.Entry.TheVariants.{Life};
ghost use Rattle.spec_history.specs.History.{Base};
ghost use Rattle.spec_history.specs.Sound.{sound};
ghost use Rattle.law_repo_memory.specs.Running.{CanBegin, Does, EntryComes, Event, IsInAgreement, Repository, Runs};
ghost use Rattle.std.specs.Prelude.{List, ◌+◌, ◌≡◌};
ghost use Rattle.repo_trace.specs.Recorded.{nothing};

/// What a repository's memory has agrees with its history behind the Life of its opening, where no transaction of
/// another repository was left prepared.
pub fn repositories_begin()
    ensures { (b : Base) (x y : Repository) → CanBegin b x.held → x.trace ≡ nothing →
        EntryComes b x (Life (x.held.life + 1)) y → IsInAgreement b y }
{}

/// Whatever events come, what a repository's memory has agrees with its history, and its history owes nothing.
pub fn runs_agree()
    ensures event { (b : Base) (x y : Repository) (e : Event) → IsInAgreement b x → Does b x e y → IsInAgreement b y }
    ensures agreement { (b : Base) (x y : Repository) (es : List Event) → IsInAgreement b x → Runs b x es y → IsInAgreement b y }
    ensures sound { (b : Base) (x y : Repository) (es : List Event) → IsInAgreement b x → Runs b x es y → sound b y.trace.history }
{}
