//! That what several repositories commit is one legal serial history. Each law is a function with an empty body, whose
//! clauses are proved once for all callers.

ghost use Rattle.law_atomic_commit.specs.Growing.{Continues, grown};
ghost use Rattle.law_atomic_commit.specs.Several.{Alike, AreSound, IsAtomic, Several};
ghost use Rattle.class_defs.specs.Eager.{eager};
ghost use Rattle.class_defs.specs.declared.store.Root.{Root};
ghost use Rattle.class_defs.specs.declared.store.Schemas.{Schemas};
ghost use Rattle.log_entries.specs.declared.entry.Entry.{Entry};
ghost use Rattle.log_entries.specs.declared.request.Kind.{Kind};
ghost use Rattle.spec_history.specs.History.{Known};
ghost use Rattle.law_serializability.specs.Reopening.{IsReopening};
ghost use Rattle.law_serializability.specs.Resting.{AreChecked, AreHere, EachIsTx, EachRests, IsOpening, OpeningFits, RestsAs};
ghost use Rattle.law_serializability.specs.WholeHistory.{stored_map, whole_history};
ghost use Rattle.serial_model.specs.History.{IsLegal, after};
ghost use Rattle.serial_model.specs.declared.entries.What.{What};
ghost use Rattle.std.specs.Prelude.{List, [], ℕ, ◌<◌, ◌≡◌};
ghost use Rattle.law_lazy_history.specs.Standing.{MapFits};
ghost use Rattle.thor_value.specs.declared.names.Ts.{Ts};
ghost use Rattle.thor_value.specs.declared.values.Who.{Who};
ghost use Rattle.law_global_order.specs.Serial.{Joined, Joins, after_commits};
ghost use Rattle.law_global_order.specs.Turns.{IsPrepared};
ghost use Rattle.law_global_order.specs.Whole.{commits, stored};

/// Serial without upgrades. Sound local histories, atomic over repositories, whose transactions rest on what they read,
/// are one legal serial history by rising timestamp, where all that commits is application transactions and no upgrade
/// is installed: legal from the store that was opened; and the store behind it is what the commits left at each
/// repository.
pub fn histories_without_upgrades_are_serial()
    ensures legal { (s : Schemas) → (items : Who → What) → (roots : List Root) → (S : Several) → (L : Joined)
        → AreSound S → IsAtomic S → Alike S → EachIsTx s items S → IsOpening S L → L.texts ≡ []
        → IsLegal s (whole_history items S) (eager s (stored_map roots L)) }
    ensures behind { (s : Schemas) → (items : Who → What) → (roots : List Root) → (S : Several) → (L : Joined)
        → AreSound S → IsAtomic S → Alike S → EachIsTx s items S → IsOpening S L → L.texts ≡ []
        → after s (whole_history items S) (eager s (stored_map roots L)) ≡ eager s (stored_map roots (after_commits L (commits S).pairs)) }
    ensures objects { (S : Several) → (L : Joined) → AreSound S → Alike S → IsOpening S L
        → Joins S.repos (stored S (commits S).pairs) (after_commits L (commits S).pairs).objects }
{}

/// The serial law. Sound local histories, atomic over repositories, whose transactions rest on what they read, are one
/// legal serial history by rising timestamp, with upgrades at their places and lazy transforms unseen, where the items and
/// the schemas of all epochs break no rule and what was opened fits. The store behind it is what the commits left at each
/// repository, and it fits.
pub fn histories_are_serial()
    ensures legal { (s : Schemas) → (items : Who → What) → (roots : List Root) → (S : Several) → (L : Joined)
        → AreSound S → IsAtomic S → Alike S → EachRests s items roots S
        → IsOpening S L → AreHere S L → OpeningFits s roots L → AreChecked s items roots S.repos
        → IsLegal s (whole_history items S) (eager s (stored_map roots L)) }
    ensures behind { (s : Schemas) → (items : Who → What) → (roots : List Root) → (S : Several) → (L : Joined)
        → AreSound S → IsAtomic S → Alike S → EachRests s items roots S
        → IsOpening S L → AreHere S L → OpeningFits s roots L → AreChecked s items roots S.repos
        → after s (whole_history items S) (eager s (stored_map roots L)) ≡ eager s (stored_map roots (after_commits L (commits S).pairs)) }
    ensures fits { (s : Schemas) → (items : Who → What) → (roots : List Root) → (S : Several) → (L : Joined)
        → AreSound S → IsAtomic S → Alike S → EachRests s items roots S
        → IsOpening S L → AreHere S L → OpeningFits s roots L → AreChecked s items roots S.repos
        → MapFits s (stored_map roots (after_commits L (commits S).pairs)) }
{}

/// The next opening. What the repositories have together, once each has finished what has committed, is what the
/// commits left. So the store that it stands for is the store behind the whole history, and it fits: a run that begins
/// with it begins where this one ended.
pub fn the_next_opening_goes_on()
    ensures joined { (S : Several) → (L N : Joined) → AreSound S → IsAtomic S → Alike S
        → IsOpening S L → AreHere S L → 0 < S.repos → IsReopening S N → N ≡ after_commits L (commits S).pairs }
    ensures store { (s : Schemas) → (items : Who → What) → (roots : List Root) → (S : Several) → (L N : Joined)
        → AreSound S → IsAtomic S → Alike S → EachRests s items roots S
        → IsOpening S L → AreHere S L → OpeningFits s roots L → AreChecked s items roots S.repos
        → 0 < S.repos → IsReopening S N
        → eager s (stored_map roots N) ≡ after s (whole_history items S) (eager s (stored_map roots L)) }
    ensures fits { (s : Schemas) → (items : Who → What) → (roots : List Root) → (S : Several) → (L N : Joined)
        → AreSound S → IsAtomic S → Alike S → EachRests s items roots S
        → IsOpening S L → AreHere S L → OpeningFits s roots L → AreChecked s items roots S.repos
        → 0 < S.repos → IsReopening S N → MapFits s (stored_map roots N) }
{}

/// What a transaction rests on stays, whatever comes, from when each participant has prepared it. So it is owed once, where
/// the transaction commits.
pub fn what_is_rested_on_stays()
    ensures { (s : Schemas) → (items : Who → What) → (roots : List Root) → (S : Several) → (r : ℕ) → (e : Entry)
        → AreSound S → Continues S r e → (t : Ts) → (w : Known) → IsPrepared S t w → (k : Kind)
        → RestsAs s items roots S t w.request k → RestsAs s items roots (grown S r e) t w.request k }
{}
