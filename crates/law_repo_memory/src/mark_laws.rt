//! What is proved of marks: memory and history agree behind each.

ghost use Rattle.log_entries.specs.declared.entry.Entry.TheVariants.{Decided};
ghost use Rattle.log_entries.specs.declared.request.Request.{Request};
ghost use Rattle.repo_state.specs.declared.held.Held.{Held};
ghost use Rattle.repo_sessions.specs.Sessions.{is_live, has_session};
ghost use Rattle.spec_history.specs.History.{Base, epoch_of};
ghost use Rattle.law_repo_memory.specs.Agreeing.{Agrees, state_of, trace_of};
ghost use Rattle.law_repo_memory.specs.Judging.{IsAccepted, SessionsAnswer};
ghost use Rattle.law_repo_memory.specs.Running.{IsInAgreement, MarkComes, ObjectsMove, Repository};
ghost use Rattle.spec_trace.specs.Calls.{drawn_time};
ghost use Rattle.spec_trace.specs.Exact.{ComesFromSession, EntryIsExact, MarkIsExact, WritesOnPages, most_pages};
ghost use Rattle.spec_trace.specs.Session.{session};
ghost use Rattle.spec_trace.specs.declared.mark.Mark.TheVariants as the;
ghost use Rattle.spec_trace.specs.declared.mark.Mark.{Mark};
ghost use Rattle.std.specs.List.{AllByRecursion};
ghost use Rattle.std.specs.Map.{keys_of};
ghost use Rattle.std.specs.Option.{IsSomeAnd};
ghost use Rattle.std.specs.Prelude.{Bool, None, Some, false, length, true, ℕ, ◌<◌, ◌^◌, ◌≡◌, ◌≤◌};
ghost use Rattle.thor_value.specs.declared.names.Ts.{Ts};
ghost use Rattle.repo_trace.specs.Recorded.{Recorded};
ghost use Rattle.two_phase.specs.Contents.{open_at};
ghost use Rattle.validation_queue.specs.Names.{IsInOrder};
ghost use Rattle.repo_refusals.specs.Refusals.{bytes_of};
ghost use Rattle.base_reasons.specs.declared.reason.Reason.TheVariants as reasons;
ghost use Rattle.repo_refusals.specs.declared.refusal.Refusal.TheVariants as refused;
ghost use Rattle.repo_refusals.specs.declared.refusal.Refusal.{Refusal};
ghost use Rattle.repo_volatile.specs.Volatile.{Memory, verdict};

/// Memory and history agree behind each mark, and where objects move.
pub fn marks_agree()
    ensures marked { (b : Base) (x y : Repository) (m : Mark) → IsInAgreement b x → MarkComes b x m y → IsInAgreement b y }
    ensures moved { (b : Base) (x y : Repository) → IsInAgreement b x → ObjectsMove x y → IsInAgreement b y }
{}

/// A time that is drawn above the last one, and the page that is granted next, are exact marks of the trace.
pub fn marks_are_exact()
    ensures drew { (b : Base) (r : Recorded) (h : Held) (M : Memory) (s : ℕ) (t : Ts) → Agrees b r h M →
        SessionsAnswer b (trace_of r) M.sessions → is_live M.sessions s ≡ true → M.drawn < t.time → t.time < 2 ^ 62 →
        t.repo ≡ h.repo → t.life ≡ h.life → MarkIsExact b (trace_of r) (the.Drew s t) }
    ensures granted { (b : Base) (r : Recorded) (h : Held) (M : Memory) (s : ℕ) → Agrees b r h M →
        SessionsAnswer b (trace_of r) M.sessions → is_live M.sessions s ≡ true → h.next_grant < most_pages →
        MarkIsExact b (trace_of r) (the.Granted s h.next_grant) }
{}

/// What is refused by what is in memory is refused by the trace: a request of a session, by the first refusal that
/// holds, and by the buffer where no other does; a draw or a grant by a session that isn't live; a grant where all pages
/// are granted; a draw at the end of the clock.
pub fn refusals_are_exact()
    ensures request { (b : Base) (r : Recorded) (h : Held) (M : Memory) (q : Request) (why : Refusal) → Agrees b r h M →
        SessionsAnswer b (trace_of r) M.sessions → IsInOrder q.ros (keys_of q.writes) →
        verdict M (epoch_of (state_of b r)) q.session q ≡ Some why →
        MarkIsExact b (trace_of r) (the.Refused q.session (Some q) why) }
    ensures buffer { (b : Base) (r : Recorded) (h : Held) (M : Memory) (q : Request) → Agrees b r h M →
        SessionsAnswer b (trace_of r) M.sessions → IsInOrder q.ros (keys_of q.writes) →
        verdict M (epoch_of (state_of b r)) q.session q ≡ None → b.limit < bytes_of q →
        MarkIsExact b (trace_of r) (the.Refused q.session (Some q) (refused.Reason (reasons.Full b.limit))) }
    ensures gone { (b : Base) (r : Recorded) (h : Held) (M : Memory) (s : ℕ) → Agrees b r h M →
        SessionsAnswer b (trace_of r) M.sessions → is_live M.sessions s ≡ false →
        MarkIsExact b (trace_of r) (the.Refused s None (refused.Reason (reasons.Gone s))) }
    ensures pages { (b : Base) (r : Recorded) (h : Held) (M : Memory) (s : ℕ) → Agrees b r h M →
        SessionsAnswer b (trace_of r) M.sessions → is_live M.sessions s ≡ true → most_pages ≤ h.next_grant →
        MarkIsExact b (trace_of r) (the.Refused s None (refused.Reason (reasons.Full most_pages))) }
    ensures clock { (b : Base) (r : Recorded) (h : Held) (M : Memory) (s now floor : ℕ) → Agrees b r h M →
        SessionsAnswer b (trace_of r) M.sessions → is_live M.sessions s ≡ true → 2 ^ 62 ≤ drawn_time now M.drawn floor →
        MarkIsExact b (trace_of r) (the.Refused s None (refused.Reason reasons.ClockEnd)) }
{}

/// A request that is accepted by what is in memory comes from its session, where its sender is the session's client and
/// writes on pages that were granted and that the session has; and a transaction of a session that hasn't ended is decided by
/// its session.
pub fn entries_are_exact()
    ensures request { (b : Base) (r : Recorded) (h : Held) (M : Memory) (q : Request) → Agrees b r h M →
        SessionsAnswer b (trace_of r) M.sessions → IsAccepted b r h M q.session q →
        IsSomeAnd (session b (trace_of r) q.session) (λ v. v.client ≡ q.who.client) → q.upto ≤ length r.history →
        AllByRecursion (λ w. w.0.page < h.next_grant) q.writes → WritesOnPages b (trace_of r) q.session q →
        ComesFromSession b (trace_of r) q }
    ensures decided { (b : Base) (r : Recorded) (h : Held) (M : Memory) (t : Ts) (q : Request) (c : Bool) →
        Agrees b r h M → SessionsAnswer b (trace_of r) M.sessions → open_at h.table t ≡ Some q →
        has_session M.sessions q.session ≡ true → EntryIsExact b (trace_of r) (Decided t c) }
{}
