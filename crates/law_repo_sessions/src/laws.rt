//! What is kept of the sessions of a repository says what its trace says of them, behind each event.

ghost use Rattle.cached_sets.specs.Noted.{most_noted};
ghost use Rattle.cached_sets.specs.Sets as sets;
ghost use Rattle.log_entries.specs.declared.entry.Entry.TheVariants.{Life};
ghost use Rattle.log_entries.specs.declared.entry.Entry.{Entry};
ghost use Rattle.log_entries.specs.declared.request.Request.{Request};
ghost use Rattle.repo_sessions.specs.Sessions.{Kept, acknowledged, begun, ended, is_live, no_sessions, sent, has_session, taken};
ghost use Rattle.spec_history.specs.History.{Base, is_life};
ghost use Rattle.session_outbox.specs.Messages.{first, place_of};
ghost use Rattle.session_outbox.specs.Outbox.{waiting};
ghost use Rattle.session_outbox.specs.declared.message.Message.TheVariants.{Grant, Page};
ghost use Rattle.session_outbox.specs.declared.message.Message.{Message};
ghost use Rattle.law_repo_sessions.specs.Agreeing.{SessionsAgree};
ghost use Rattle.spec_trace.specs.Notices.{lives, notice_of, is_unended};
ghost use Rattle.law_repo_sessions.specs.Coming.{HasCome};
ghost use Rattle.spec_trace.specs.Exact.{MarkIsExact};
ghost use Rattle.spec_trace.specs.Session.{Session, invalid, session, session_lives};
ghost use Rattle.spec_trace.specs.Trace.{E, Item, M, entries};
ghost use Rattle.spec_trace.specs.Verdict.{stale, stale_from};
ghost use Rattle.spec_trace.specs.declared.mark.Mark.TheVariants as the;
ghost use Rattle.std.specs.List.{slice_get};
ghost use Rattle.std.specs.Option.{IsSomeAnd, option_and_then, option_map};
ghost use Rattle.std.specs.Prelude.{List, None, Option, Some, [], false, length, true, ℕ, ◌+◌, ◌++◌, ◌<◌, ◌^◌, ◌∷◌, ◌≡◌, ◌≤◌};
ghost use Rattle.thor_value.specs.declared.names.Oref.{Oref};
ghost use Rattle.thor_value.specs.declared.names.Ts.{Ts};
ghost use Rattle.validation_queue.specs.Clashes.{first_some};
ghost use Rattle.validation_queue.specs.Names.{Rises};
ghost use Rattle.base_reasons.specs.declared.reason.Reason.TheVariants as reasons;
ghost use Rattle.repo_refusals.specs.declared.refusal.Refusal.TheVariants as refused;
ghost use Rattle.repo_refusals.specs.declared.refusal.Refusal.{Refusal};

/// No session is kept at the beginning, a Life ends all of them, and a client that connects gets a new one and
/// loses its older one.
pub fn beginnings_keep_agreement()
    ensures beginning { (b : Base) → b.silence ≡ Some most_noted → SessionsAgree b [] no_sessions }
    ensures life { (b : Base) (T : List Item) (K : Kept) (n : ℕ) → SessionsAgree b T K →
        SessionsAgree b (T ++ E (Life n) ∷ []) (ended K) }
    ensures connected { (b : Base) (T : List Item) (K : Kept) (client s : ℕ) → s ≡ K.last + 1 → SessionsAgree b T K →
        SessionsAgree b (T ++ M (the.Connected s client) ∷ []) (begun K client s) }
{}

/// A page that a live session fetches or is granted is sent, and a message is taken. A draw, a refusal and a
/// forgotten decision change nothing.
pub fn marks_keep_agreement()
    ensures fetched { (b : Base) (T : List Item) (K : Kept) (s page upto : ℕ) (bytes : List ℕ) →
        SessionsAgree b T K → is_live K s ≡ true → upto ≤ length (entries T) →
        SessionsAgree b (T ++ M (the.Fetched s page upto) ∷ [])
        (acknowledged (sent K s page (Page page bytes (length (entries T)))) s upto) }
    ensures granted { (b : Base) (T : List Item) (K : Kept) (s page : ℕ) → SessionsAgree b T K → is_live K s ≡ true →
        SessionsAgree b (T ++ M (the.Granted s page) ∷ []) (sent K s page (Grant page (length (entries T)))) }
    ensures taken { (b : Base) (T : List Item) (K : Kept) (s : ℕ) (m : Message) → SessionsAgree b T K →
        is_live K s ≡ true → first (waiting K.waiting s) ≡ Some m →
        SessionsAgree b (T ++ M (the.Took s (place_of m)) ∷ []) (taken K s) }
    ensures none_taken { (b : Base) (T : List Item) (K : Kept) (s : ℕ) → SessionsAgree b T K →
        first (waiting K.waiting s) ≡ None → SessionsAgree b T (taken K s) }
    ensures drawn { (b : Base) (T : List Item) (K : Kept) (s : ℕ) (t : Ts) → SessionsAgree b T K →
        SessionsAgree b (T ++ M (the.Drew s t) ∷ []) K }
    ensures forgotten { (b : Base) (T : List Item) (K : Kept) (t : Ts) → SessionsAgree b T K →
        SessionsAgree b (T ++ M (the.Forgot t) ∷ []) K }
    ensures refused { (b : Base) (T : List Item) (K : Kept) (s : ℕ) (q : Option Request) (r : Refusal) →
        SessionsAgree b T K → SessionsAgree b (T ++ M (the.Refused s q r) ∷ []) K }
{}

/// An entry that is no Life acknowledges what its request does, and is told where it commits; then the sessions are given up
/// whose clients leave more unacknowledged than they may.
pub fn entries_keep_agreement()
    ensures { (b : Base) (T : List Item) (e : Entry) (K L : Kept) → is_life e ≡ false → SessionsAgree b T K →
        HasCome b T e K L → SessionsAgree b (T ++ E e ∷ []) L }
{}

/// A session is live by what is kept exactly where it is so by the trace, and so it has ended. Of some names the least stale one is
/// that of the trace's invalid set; so a request whose names rise is refused as stale exactly as the definition
/// says. The message that is taken next is the first that was sent and not taken.
pub fn agreement_answers()
    ensures live { (b : Base) (T : List Item) (K : Kept) (s : ℕ) → SessionsAgree b T K →
        is_live K s ≡ lives (session b T s) }
    ensures unended { (b : Base) (T : List Item) (K : Kept) (s : ℕ) → SessionsAgree b T K →
        has_session K s ≡ is_unended (session b T s) }
    ensures there { (b : Base) (T : List Item) (K : Kept) (s : ℕ) → SessionsAgree b T K → is_live K s ≡ true →
        IsSomeAnd (session b T s) (λ v. session_lives v ≡ true) }
    ensures stale { (b : Base) (T : List Item) (K : Kept) (s : ℕ) (v : Session) (q : Request) → SessionsAgree b T K →
        session b T s ≡ Some v → Rises q.ros →
        option_map (λ p. refused.Reason (reasons.Stale p.0 p.1)) (sets.stale K.sets s q.ros q.upto) ≡ stale b (entries T) s v q }
    ensures not_stale { (b : Base) (T : List Item) (K : Kept) (s : ℕ) (v : Session) (names : List Oref) (upto : ℕ) →
        SessionsAgree b T K → session b T s ≡ Some v → sets.stale K.sets s names upto ≡ None →
        first_some (λ x. option_and_then (stale_from upto x) (invalid b (entries T) s v x)) names ≡ None }
    ensures message { (b : Base) (T : List Item) (K : Kept) (s : ℕ) (v : Session) → SessionsAgree b T K →
        session b T s ≡ Some v → session_lives v ≡ true →
        option_map notice_of (first (waiting K.waiting s)) ≡ slice_get v.sent v.taken }
{}

/// What agrees makes exact marks: a client connects under the next number, a live session fetches what it may,
/// and the message that waits first is taken.
pub fn agreement_makes_exact_marks()
    ensures connected { (b : Base) (T : List Item) (K : Kept) (client s : ℕ) → SessionsAgree b T K → s ≡ K.last + 1 →
        s < 2 ^ 32 → 0 < length (entries T) → MarkIsExact b T (the.Connected s client) }
    ensures fetched { (b : Base) (T : List Item) (K : Kept) (s page upto : ℕ) → SessionsAgree b T K →
        is_live K s ≡ true → upto ≤ length (entries T) → MarkIsExact b T (the.Fetched s page upto) }
    ensures taken { (b : Base) (T : List Item) (K : Kept) (s : ℕ) (m : Message) → SessionsAgree b T K →
        is_live K s ≡ true → first (waiting K.waiting s) ≡ Some m → MarkIsExact b T (the.Took s (place_of m)) }
{}
