//! Transactions of a client's own that won't commit any more, and sessions of whose transactions no other will: each growth
//! and each call leaves them so.

ghost use Rattle.law_atomic_commit.specs.Several.{committed};
ghost use Rattle.law_cache_coherence.specs.Doomed.{ActsWithin, DoomedAt, IsDoomed, IsQuiet, LeavesUndecided};
ghost use Rattle.law_cache_coherence.specs.Examples.{lost, prepared};
ghost use Rattle.law_cache_coherence.specs.Fitting.{NoneToFinish};
ghost use Rattle.law_cache_coherence.specs.Seen.{IsSeenRight};
ghost use Rattle.log_entries.specs.declared.entry.Entry.TheVariants.{Decided};
ghost use Rattle.spec_history.specs.Examples.{at, home};
ghost use Rattle.spec_history.specs.History.{Base};
ghost use Rattle.spec_history.specs.Sound.{sound};
ghost use Rattle.session_outbox.specs.declared.answers.Welcome.{Welcome};
ghost use Rattle.client_port.specs.Acting.{Acts};
ghost use Rattle.client_port.specs.Growing.{Grew};
ghost use Rattle.client_port.specs.Views.{Calm, MayCome, Unsettled, View};
ghost use Rattle.client_port.specs.Works.{ConnectWork, Does};
ghost use Rattle.law_client_views.specs.Conditions.{seen_histories};
ghost use Rattle.spec_trace.specs.Exact.{exact};
ghost use Rattle.spec_trace.specs.ExactExamples.{deciding};
ghost use Rattle.spec_trace.specs.Notices.{lives};
ghost use Rattle.spec_trace.specs.Session.{session};
ghost use Rattle.spec_trace.specs.Trace.{Item, entries};
ghost use Rattle.std.specs.Prelude.{Bool, List, Ok, false, true, ℕ, ◌≡◌};
ghost use Rattle.thor_value.specs.declared.names.Ts.{Ts};

/// A doomed transaction stays so, whatever others do, with stops and restarts of its coordinator in between and an own call
/// that stopped there; and behind each call of the client's but a decision to commit it, whatever that is answered.
pub fn doomed_transactions_stay()
    ensures growth { (c : ℕ) (b : Base) (u w : Unsettled) (T S : List Item) (t : Ts) → Grew b c u T w S → exact b S → sound b (entries S) → t.repo ≡ b.repo →
        DoomedAt c b u T t → DoomedAt c b w S t }
    ensures calls { (old new : View) (t : Ts) (known : Ts → Bool) (a : Acts old new) → LeavesUndecided old new a t → IsSeenRight new t.repo known →
        IsDoomed old t → IsDoomed new t }
{}

/// A quiet session stays so behind each call of the client's that prepares and decides to commit what is running alone.
pub fn quiet_sessions_stay()
    ensures { (old new : View) (r s : ℕ) (running known : Ts → Bool) (a : Acts old new) → ActsWithin old new a running → ((n : ℕ) → IsSeenRight new n known) →
        IsQuiet old r s running → IsQuiet new r s running }
{}

/// A session that begins is quiet, with nothing running.
pub fn joined_sessions_are_quiet()
    ensures { (old new : View) (r : ℕ) (w : Welcome) (known : Ts → Bool) → Does {X = Welcome} old new r (Ok w) (ConnectWork old.opened.client (Ok w)) → IsSeenRight new r known →
        IsQuiet new r w.session (λ t. false) }
{}

/// What is doomed has not committed. So, where nothing is running, a quiet session has nothing to finish: none of what it
/// prepared and is undecided has committed at its coordinator, by what is seen.
pub fn quiet_sessions_owe_nothing()
    ensures doomed { (port : View) (t : Ts) → IsDoomed port t → committed (seen_histories port) t ≡ false }
    ensures none { (port : View) (r s : ℕ) → IsQuiet port r s (λ t. false) → port.unsettled r ≡ Calm → lives (session (port.opened.base r) (port.seen r) s) ≡ true →
        NoneToFinish (port.opened.base r) (entries (port.seen r)) s (committed (seen_histories port)) }
{}

/// What is prepared is doomed until it is decided to commit, where a decision to abort is on its way too, and behind a
/// restart of its coordinator. It isn't once that is decided or on its way; nor is it another client's.
pub fn what_is_doomed()
    ensures prepared { DoomedAt 1 home Calm prepared (at 1) }
    ensures aborting { DoomedAt 1 home (MayCome (Decided (at 1) false)) prepared (at 1) }
    ensures lost { DoomedAt 1 home Calm lost (at 1) }
    ensures committing { ¬ DoomedAt 1 home (MayCome (Decided (at 1) true)) prepared (at 1) }
    ensures decided { ¬ DoomedAt 1 home Calm deciding (at 1) }
    ensures other { ¬ DoomedAt 2 home Calm prepared (at 1) }
{}
