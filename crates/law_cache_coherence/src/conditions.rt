//! What a call of two-phase commit is asked to show (`law_board_calls::Justified`) is what its entry may come with
//! (`law_atomic_commit::MayCome`), so two-phase commit stays kept.

ghost use Rattle.law_atomic_commit.specs.Growing.{MayCome};
ghost use Rattle.law_atomic_commit.specs.Several.{AreSound, Repositories, histories, part};
ghost use Rattle.law_board_calls.specs.Justified.{AllHavePrepared, BelowHavePrepared, HasCommitted};
ghost use Rattle.log_entries.specs.declared.entry.Entry.TheVariants.{Decided, Finished, Prepared};
ghost use Rattle.log_entries.specs.declared.request.Request.{Request};
ghost use Rattle.spec_history.specs.Participants.{HasParticipants, IsAlone, IsShared};
ghost use Rattle.spec_history.specs.Sound.{sound};
ghost use Rattle.law_client_views.specs.Conditions.{MaySend};
ghost use Rattle.client_port.specs.Views.{View};
ghost use Rattle.client_port.specs.Works.{alone_entry};
ghost use Rattle.spec_trace.specs.Exact.{exact};
ghost use Rattle.spec_trace.specs.Trace.{E, entries};
ghost use Rattle.spec_trace.specs.Verdict.{verdict};
ghost use Rattle.std.specs.Prelude.{None, [], true, ℕ, ◌++◌, ◌<◌, ◌∷◌, ◌≡◌};
ghost use Rattle.thor_value.specs.declared.names.Ts.{Ts};

/// A request whose client shows that all participants below have prepared their parts may come: its coordinator, the
/// least, has. A decision to commit may come where all are shown to have prepared, and a commit may be finished
/// where its coordinator is shown to have decided so.
pub fn shown_calls_may_come()
    ensures prepare { (R : Repositories) → AreSound (histories R) → (r : ℕ) (q : Request) → r < R.repos → HasParticipants (R.base r) q →
        BelowHavePrepared R.trace r q → MayCome (histories R) r (Prepared q) }
    ensures decide { (R : Repositories) → AreSound (histories R) → (r : ℕ) (t : Ts) → AllHavePrepared R.trace r t →
        MayCome (histories R) r (Decided t true) }
    ensures finish { (R : Repositories) → AreSound (histories R) → (r : ℕ) (t : Ts) → HasCommitted t (R.trace t.repo) →
        MayCome (histories R) r (Finished t true) }
{}

/// A request for which its sender vouches, and which the verdict accepts, continues the trace: that stays sound and exact
/// with its entry.
pub fn sent_requests_continue()
    ensures prepare { (port : View) (r s : ℕ) (q : Request) → MaySend port r s q →
        sound (port.opened.base r) (entries (port.seen r)) → exact (port.opened.base r) (port.seen r) →
        verdict (port.opened.base r) (port.seen r) s q ≡ None → IsShared q →
        sound (port.opened.base r) (entries (port.seen r ++ E (Prepared q) ∷ [])) × exact (port.opened.base r) (port.seen r ++ E (Prepared q) ∷ []) }
    ensures commit_one { (port : View) (r s : ℕ) (q : Request) → MaySend port r s q →
        sound (port.opened.base r) (entries (port.seen r)) → exact (port.opened.base r) (port.seen r) →
        verdict (port.opened.base r) (port.seen r) s q ≡ None → IsAlone (port.opened.base r) q →
        sound (port.opened.base r) (entries (port.seen r ++ E (alone_entry q) ∷ [])) × exact (port.opened.base r) (port.seen r ++ E (alone_entry q) ∷ []) }
{}
