//! What is known of the outcomes of transactions over several repositories.

ghost use Rattle.law_atomic_commit.specs.Several.{IsAtomic, Several, committed};
ghost use Rattle.law_cache_coherence.specs.Fitting.{Agrees};
ghost use Rattle.spec_history.specs.History.{Base, IsCommitted, Known, known_by};
ghost use Rattle.spec_history.specs.Sound.{sound};
ghost use Rattle.client_port.specs.Growing.{Grew};
ghost use Rattle.client_port.specs.Views.{Calm};
ghost use Rattle.spec_trace.specs.Exact.{exact};
ghost use Rattle.spec_trace.specs.Gaps.{client_in};
ghost use Rattle.spec_trace.specs.Trace.{Item, entries};
ghost use Rattle.std.specs.Prelude.{List, Some, ℕ, ◌≡◌};
ghost use Rattle.thor_value.specs.declared.names.Ts.{Ts};

/// Where two-phase commit has been kept, what has committed at its coordinator agrees with each history.
pub fn atomic_histories_agree()
    ensures { (S : Several) → IsAtomic S → (r s : ℕ) → Agrees (S.base r) (S.history r) s (committed S) }
{}

/// Others decide nothing of a client's: a transaction that its session prepared at its coordinator hasn't committed
/// behind what others made there, stops and restarts in between, where it hadn't before and nothing of the client's was
/// unsettled.
pub fn others_decide_nothing()
    ensures { (c : ℕ) (b : Base) (T S : List Item) → Grew b c Calm T Calm S → exact b S → sound b (entries S) →
        (t : Ts) (o w : Known) → t.repo ≡ b.repo → known_by b (entries T) t ≡ Some o → client_in b T o.request.session ≡ Some c →
        known_by b (entries S) t ≡ Some w → IsCommitted w.fate → IsCommitted o.fate }
{}
