//! What is proved of the histories of several repositories.

ghost use Rattle.law_atomic_commit.specs.Growing.{Continues, MayCome, grown, opened_at};
ghost use Rattle.law_atomic_commit.specs.Several.{Alike, AllParts, AreSound, CoordinatorsAreLeast, HasCommitted, IsAtomic, Repositories, Several, UpgradesAreEverywhere, committed, histories, with_item};
ghost use Rattle.log_entries.specs.declared.entry.Entry.{Entry};
ghost use Rattle.spec_trace.specs.Current.{NoneAborted};
ghost use Rattle.spec_history.specs.History.{Base, Known};
ghost use Rattle.spec_trace.specs.Trace.{E, M};
ghost use Rattle.spec_trace.specs.declared.mark.Mark.{Mark};
ghost use Rattle.std.specs.Prelude.{List, true, ℕ, ◌++◌, ◌<◌, ◌≡◌, ◌≢◌};
ghost use Rattle.thor_value.specs.declared.names.Ts.{Ts};

/// A transaction that has committed is aborted nowhere, so each current copy asks for what holds: at no
/// prefix of any history. At each participant it is undecided or committed.
pub fn committed_parts_live()
    ensures parts { (S : Several) → IsAtomic S → AllParts S }
    ensures nowhere { (S : Several) → IsAtomic S → (r : ℕ) → NoneAborted (S.base r) (S.history r) (committed S) }
    ensures prefixes { (S : Several) → IsAtomic S → AreSound S → (r : ℕ) (H more : List Entry) →
        S.history r ≡ H ++ more → NoneAborted (S.base r) H (committed S) }
{}

/// Whether a transaction has committed is a test, and stays true.
pub fn commits_stay()
    ensures tells { (S : Several) (t : Ts) → committed S t ≡ true → (w : Known) × HasCommitted S t w }
    ensures told { (S : Several) (t : Ts) (w : Known) → HasCommitted S t w → committed S t ≡ true }
    ensures stays { (S : Several) (r : ℕ) (e : Entry) → AreSound S → Continues S r e → (t : Ts) →
        committed S t ≡ true → committed (grown S r e) t ≡ true }
{}

/// What each request's sender vouches for, of all repositories: the least participant coordinates, and
/// upgrades are everywhere.
pub fn participants_are_known()
    ensures least { (S : Several) → AreSound S → CoordinatorsAreLeast S }
    ensures upgrades { (S : Several) → AreSound S → UpgradesAreEverywhere S }
{}

/// What two-phase commit keeps stays kept with one more entry anywhere, where its call knows what it
/// has to know of the other repositories.
pub fn atomic_stays()
    ensures sound { (S : Several) (r : ℕ) (e : Entry) → AreSound S → Continues S r e → AreSound (grown S r e) }
    ensures atomic { (S : Several) (r : ℕ) (e : Entry) → AreSound S → IsAtomic S → Continues S r e → IsAtomic (grown S r e) }
    ensures alike { (S : Several) (r : ℕ) (e : Entry) → AreSound S → IsAtomic S → Alike S → Continues S r e → Alike (grown S r e) }
{}

/// What a call knows of the other repositories stays true, whatever comes at them.
pub fn knowledge_stays()
    ensures { (S : Several) (n r : ℕ) (d e : Entry) → AreSound S → Continues S n d → r ≢ n → MayCome S r e → MayCome (grown S n d) r e }
{}

/// All holds where nothing has come.
pub fn several_begin()
    ensures sound { (repos : ℕ) (base : ℕ → Base) → ((r : ℕ) → r < repos → (base r).repo ≡ r) →
        ((r : ℕ) → r < repos → (base r).repos ≡ repos) → AreSound (opened_at repos base) }
    ensures atomic { (repos : ℕ) (base : ℕ → Base) → IsAtomic (opened_at repos base) }
    ensures alike { (repos : ℕ) (base : ℕ → Base) → Alike (opened_at repos base) }
{}

/// One more entry in a trace is one more in its history, and a mark changes none.
pub fn traces_give_histories()
    ensures entry { (R : Repositories) (r n : ℕ) (e : Entry) →
        (histories (with_item R r (E e))).history n ≡ (grown (histories R) r e).history n }
    ensures mark { (R : Repositories) (r n : ℕ) (m : Mark) →
        (histories (with_item R r (M m))).history n ≡ (histories R).history n }
{}
