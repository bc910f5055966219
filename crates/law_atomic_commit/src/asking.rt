//! What is proved of a coordinator that is asked about a transaction.

ghost use Rattle.law_atomic_commit.specs.Asking.{ForgottenAreFinished, IsFinished, IsGivenUp, SinglesWereBefore, answer_by, coordinator_answer};
ghost use Rattle.law_atomic_commit.specs.Growing.{Continues, MayFinish};
ghost use Rattle.law_atomic_commit.specs.Several.{Alike, AreSound, HasCommitted, IsAtomic, Repositories, histories, part, with_item};
ghost use Rattle.log_entries.specs.declared.entry.Entry.{Entry};
ghost use Rattle.spec_history.specs.History.{Base, Known, Open, is_undecided, known_by, state};
ghost use Rattle.spec_trace.specs.Calls.{Settled, Undecided, asked, forgets, is_forgotten, is_kept, is_last_alone};
ghost use Rattle.spec_trace.specs.Trace.{E, Item, M, entries};
ghost use Rattle.spec_trace.specs.declared.mark.Mark.{Mark};
ghost use Rattle.std.specs.Prelude.{List, Some, [], false, is_some, true, ℕ, ◌≡◌, ◌≢◌, ◌⊎◌};
ghost use Rattle.thor_value.specs.FiniteMap.{get};
ghost use Rattle.thor_value.specs.declared.names.Ts.{Ts};
ghost use Rattle.two_phase.specs.Contents.{Contents, keeps, open_at, standing};

/// What a coordinator answers who is asked about a transaction is told rightly. What it says is undecided is so
/// wherever it stands. What it says is committed has committed, or did so alone in an earlier run. What it says is
/// aborted was, or never came, or committed and was forgotten, or committed alone and was followed by another of its
/// client; what has committed otherwise it says is committed. So whoever has the transaction undecided at another
/// repository may finish it as it is told.
pub fn what_is_asked_is_told_rightly()
    ensures undecided { (R : Repositories) → AreSound (histories R) → IsAtomic (histories R) → (t : Ts) → coordinator_answer R t ≡ Undecided →
        (n : ℕ) (o : Known) → part (histories R) n t ≡ Some o → o.fate ≡ Open }
    ensures committed { (R : Repositories) → AreSound (histories R) → (t : Ts) → coordinator_answer R t ≡ Settled true →
        ((w : Known) × HasCommitted (histories R) t w) ⊎ (is_last_alone (R.base t.repo) [] t ≡ true) }
    ensures aborted { (R : Repositories) → AreSound (histories R) → (t : Ts) → coordinator_answer R t ≡ Settled false → IsGivenUp R t }
    ensures remembered { (R : Repositories) → AreSound (histories R) → (t : Ts) (w : Known) → HasCommitted (histories R) t w →
        is_forgotten (R.trace t.repo) t ≡ false →
        (w.request.others ≢ []) ⊎ (is_last_alone (R.base t.repo) (R.trace t.repo) t ≡ true) → coordinator_answer R t ≡ Settled true }
    ensures commits { (R : Repositories) → AreSound (histories R) → IsAtomic (histories R) → SinglesWereBefore R →
        (n : ℕ) (t : Ts) (o : Known) → n ≢ t.repo → part (histories R) n t ≡ Some o → o.fate ≡ Open →
        coordinator_answer R t ≡ Settled true → MayFinish (histories R) t true }
    ensures aborts { (R : Repositories) → AreSound (histories R) → IsAtomic (histories R) → Alike (histories R) → ForgottenAreFinished R →
        (n : ℕ) (t : Ts) (o : Known) → n ≢ t.repo → part (histories R) n t ≡ Some o → o.fate ≡ Open →
        coordinator_answer R t ≡ Settled false → MayFinish (histories R) t false }
{}

/// A table of transactions in two phases answers about what its repository coordinates as the trace has it, where what
/// it has agrees with that: open is what is undecided, kept is what the trace keeps, and the last single commits are
/// the history's.
pub fn tables_answer_as_their_traces()
    ensures { (b : Base) (T : List Item) (c : Contents) (t : Ts) → t.repo ≡ b.repo →
        is_some (open_at c t) ≡ is_undecided (known_by b (entries T) t) → keeps (get c.transactions t) ≡ is_kept b T t →
        c.alone ≡ (state b (entries T)).alone → answer_by (standing c t) ≡ asked b T t }
{}

/// What is forgotten has committed at each participant, and stays so: where whoever forgets it knows that.
pub fn forgotten_stay_finished()
    ensures entry { (R : Repositories) (r : ℕ) (e : Entry) → AreSound (histories R) → Continues (histories R) r e →
        ForgottenAreFinished R → ForgottenAreFinished (with_item R r (E e)) }
    ensures mark { (R : Repositories) (r : ℕ) (m : Mark) →
        ((t : Ts) → forgets t (M m) ≡ true → IsFinished (histories R) t) →
        ForgottenAreFinished R → ForgottenAreFinished (with_item R r (M m)) }
{}
