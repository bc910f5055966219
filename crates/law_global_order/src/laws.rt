//! What is proved of several repositories with two-phase commit, beside `law_atomic_commit`.

ghost use Rattle.law_atomic_commit.specs.Growing.{Continues, grown};
ghost use Rattle.law_atomic_commit.specs.Several.{Alike, AreSound, IsAtomic, Several};
ghost use Rattle.log_entries.specs.declared.entry.Entry.{Entry};
ghost use Rattle.log_entries.specs.declared.request.Request.{Request};
ghost use Rattle.spec_history.specs.History.{Known};
ghost use Rattle.std.specs.Prelude.{Bool, List, ℕ, ◌≡◌};
ghost use Rattle.thor_value.specs.declared.names.Ts.{Ts};
ghost use Rattle.law_global_order.specs.Serial.{AllRest, BeganWith, HasMet, IsSerial, Joined, Joins, bases, after_commits};
ghost use Rattle.law_global_order.specs.Turns.{EpochAtTurn, FreshAtTurn, IsPrepared, JoinedAtEnd, JoinedAtTurn, TextsAtEnd, UpgradesAgree, WritersAgree, texts_after};
ghost use Rattle.law_global_order.specs.Whole.{AreTheCommits, Commit, commits, stored, whole};

/// The commits that are computed are all that have committed, each as a whole, by rising timestamps.
pub fn commits_are_computed()
    ensures { (S : Several) → AreSound S → AreTheCommits S (commits S) }
{}

/// Of the writers of an object that a committed transaction read, those that committed below its request are
/// those that have committed and are before it.
pub fn readers_meet_commits()
    ensures { (S : Several) → AreSound S → IsAtomic S → WritersAgree S }
{}

/// What a committed transaction read at its place is what the commits before it leave.
pub fn commits_are_joined()
    ensures { (S : Several) → AreSound S → IsAtomic S → JoinedAtTurn S }
{}

/// A created object isn't there at its transaction's turn.
pub fn created_objects_are_fresh()
    ensures { (S : Several) → AreSound S → IsAtomic S → FreshAtTurn S }
{}

/// Each transaction is before or behind an upgrade alike at all repositories and by timestamp.
pub fn upgrades_fence_all()
    ensures { (S : Several) → AreSound S → IsAtomic S → UpgradesAgree S }
{}

/// The upgrades that a committed transaction met, at each participant, are those of the commits before it.
pub fn epochs_are_joined()
    ensures { (S : Several) → AreSound S → IsAtomic S → Alike S → EpochAtTurn S }
{}

/// What all commits leave is what the repositories come to once they have finished what has committed.
pub fn repositories_come_to_commits()
    ensures { (S : Several) → AreSound S → IsAtomic S → JoinedAtEnd S }
{}

/// So do the upgrades: those that a repository has installed, with those that have committed and are undecided there.
pub fn repositories_come_to_upgrades()
    ensures { (S : Several) → AreSound S → IsAtomic S → Alike S → TextsAtEnd S }
{}

/// The commits of several repositories are one serial history by rising timestamps, from all that was opened,
/// whatever it is that transactions do; and what there is behind it is what the commits left at each
/// repository.
pub fn several_are_serial()
    ensures serial { (S : Several) (does : Joined → Request → Bool) (L : Joined) → AreSound S → IsAtomic S → Alike S →
        AllRest S does → Joins S.repos (bases S) L.objects → BeganWith S L.texts → IsSerial does L (commits S).pairs }
    ensures objects { (S : Several) (L : Joined) → AreSound S → Alike S → Joins S.repos (bases S) L.objects →
        Joins S.repos (stored S (commits S).pairs) (after_commits L (commits S).pairs).objects }
    ensures texts { (L : Joined) (es : List Commit) → (after_commits L es).texts ≡ texts_after L.texts es }
{}

/// From when each participant has prepared a transaction, what it read and wrote as a whole stays, and so does what it met:
/// whatever comes, what has all that it met then has what it met before. So what it rests on stays.
pub fn prepared_transactions_stay()
    ensures prepared { (S : Several) (r : ℕ) (e : Entry) → AreSound S → Continues S r e → (t : Ts) (w : Known) → IsPrepared S t w →
        (v : Known) × IsPrepared (grown S r e) t v × (v.request ≡ w.request) }
    ensures whole { (S : Several) (r : ℕ) (e : Entry) → AreSound S → Continues S r e → (t : Ts) (w : Known) → IsPrepared S t w →
        whole (grown S r e) t w.request ≡ whole S t w.request }
    ensures met { (S : Several) (r : ℕ) (e : Entry) → AreSound S → Continues S r e → (t : Ts) (w : Known) → IsPrepared S t w →
        (L : Joined) → HasMet (grown S r e) t L → HasMet S t L }
{}
