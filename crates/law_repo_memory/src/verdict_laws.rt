//! What is proved of requests that a repository accepts by its memory.

ghost use Rattle.log_entries.specs.declared.entry.Entry.TheVariants.{One, Prepared, Upgraded};
ghost use Rattle.log_entries.specs.declared.request.Request.{Request};
ghost use Rattle.repo_state.specs.declared.held.Held.{Held};
ghost use Rattle.repo_sessions.specs.Sessions.{Kept};
ghost use Rattle.spec_history.specs.History.{Base, epoch_of, known_by};
ghost use Rattle.spec_history.specs.Laws.{Continues};
ghost use Rattle.spec_history.specs.Participants.{IsAlone, IsShared};
ghost use Rattle.spec_history.specs.Requests.{is_upgrade};
ghost use Rattle.spec_history.specs.Sound.{Vouches};
ghost use Rattle.law_repo_memory.specs.Agreeing.{Agrees, state_of, trace_of};
ghost use Rattle.law_repo_memory.specs.Judging.{IsAccepted, SessionsAnswer};
ghost use Rattle.law_repo_sessions.specs.Agreeing.{SessionsAgree};
ghost use Rattle.spec_trace.specs.Trace.{Item};
ghost use Rattle.spec_trace.specs.Verdict.{verdict};
ghost use Rattle.std.specs.Prelude.{List, None, false, length, min, true, ℕ, ◌-◌, ◌<◌, ◌^◌, ◌≡◌};
ghost use Rattle.std.specs.Map.{keys_of};
ghost use Rattle.std.specs.Option.{option_or};
ghost use Rattle.thor_value.specs.Names.{AtMost};
ghost use Rattle.validation_queue.specs.Names.{IsInOrder};
ghost use Rattle.repo_refusals.specs.Refusals.{full_of_writes};
ghost use Rattle.thor_value.specs.declared.names.Ts.{Ts};
ghost use Rattle.repo_trace.specs.Recorded.{Recorded};
ghost use Rattle.repo_refusals.specs.Window.{window};
ghost use Rattle.repo_volatile.specs.Volatile.{Memory, knows, verdict as by_memory};

/// The verdict by what is in memory, and behind it the buffer's, is the verdict by the trace. So a request that is
/// accepted by what is in memory is accepted by the trace. It isn't below the window's threshold, and a transaction
/// that isn't known by what is in memory isn't by the history. The epoch that is held is the history's, as long as it
/// is counted.
pub fn verdicts_agree()
    ensures exact { (b : Base) (r : Recorded) (h : Held) (M : Memory) (s : ℕ) (q : Request) → Agrees b r h M →
        SessionsAnswer b (trace_of r) M.sessions → IsInOrder q.ros (keys_of q.writes) →
        verdict b (trace_of r) s q ≡ option_or (by_memory M (epoch_of (state_of b r)) s q) (full_of_writes b q) }
    ensures accepted { (b : Base) (r : Recorded) (h : Held) (M : Memory) (s : ℕ) (q : Request) → Agrees b r h M →
        SessionsAnswer b (trace_of r) M.sessions → IsAccepted b r h M s q → verdict b (trace_of r) s q ≡ None }
    ensures above { (b : Base) (r : Recorded) (h : Held) (M : Memory) (s : ℕ) (q : Request) → Agrees b r h M →
        SessionsAnswer b (trace_of r) M.sessions → IsAccepted b r h M s q → AtMost (window b r.history).threshold q.tx }
    ensures unknown { (b : Base) (r : Recorded) (h : Held) (M : Memory) (t : Ts) → Agrees b r h M →
        knows M t ≡ false → known_by b r.history t ≡ None }
    ensures epoch { (b : Base) (r : Recorded) (h : Held) (M : Memory) → Agrees b r h M →
        length h.upgrades < 2 ^ 32 → min (length h.upgrades) (2 ^ 32 - 1) ≡ epoch_of (state_of b r) }
{}

/// A request that is accepted by what is in memory, and for which its sender vouches, owes nothing: the history stays
/// sound with its entry.
pub fn accepted_requests_are_owed()
    ensures prepared { (b : Base) (r : Recorded) (h : Held) (M : Memory) (s : ℕ) (q : Request) → Agrees b r h M →
        SessionsAnswer b (trace_of r) M.sessions → IsAccepted b r h M s q → Vouches b (state_of b r) q → IsShared q →
        Continues b r.history (Prepared q) }
    ensures one { (b : Base) (r : Recorded) (h : Held) (M : Memory) (s : ℕ) (q : Request) → Agrees b r h M →
        SessionsAnswer b (trace_of r) M.sessions → IsAccepted b r h M s q → Vouches b (state_of b r) q → IsAlone b q →
        is_upgrade q ≡ false → Continues b r.history (One q) }
    ensures upgraded { (b : Base) (r : Recorded) (h : Held) (M : Memory) (s : ℕ) (q : Request) → Agrees b r h M →
        SessionsAnswer b (trace_of r) M.sessions → IsAccepted b r h M s q → Vouches b (state_of b r) q → IsAlone b q →
        is_upgrade q ≡ true → Continues b r.history (Upgraded q) }
{}

/// Where what is kept of the sessions agrees with the trace, it says what verdicts look at.
pub fn sessions_answer()
    ensures { (b : Base) (T : List Item) (K : Kept) → SessionsAgree b T K → SessionsAnswer b T K }
{}
