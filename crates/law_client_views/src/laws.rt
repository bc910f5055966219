//! How seen traces grow, and that the promises of calls can be kept.

ghost use Rattle.log_entries.specs.declared.request.Request.{Request};
ghost use Rattle.repo_sessions.specs.Sessions.{Kept, is_live};
ghost use Rattle.spec_history.specs.History.{Base, epoch_of, state};
ghost use Rattle.session_outbox.specs.Messages.{first};
ghost use Rattle.session_outbox.specs.Outbox.{waiting};
ghost use Rattle.session_outbox.specs.declared.answers.Welcome.{Welcome};
ghost use Rattle.session_outbox.specs.declared.message.Message.{Message};
ghost use Rattle.client_port.specs.Growing.{Grew, MayHalt};
ghost use Rattle.law_client_views.specs.Plain as plain;
ghost use Rattle.law_client_views.specs.Plain.{left_by, message_of};
ghost use Rattle.client_port.specs.Views.{Calm, Halted, Unsettled};
ghost use Rattle.client_port.specs.Works.{AskWork, CommitWork, ConnectWork, DecideWork, DrawWork, FetchWork, FinishWork, ForgetWork, GrantWork, PrepareWork, ReceiveWork, RefusedUnmarked, behind_taken};
ghost use Rattle.law_repo_sessions.specs.Agreeing.{SessionsAgree};
ghost use Rattle.spec_trace.specs.Calls.{next_page};
ghost use Rattle.spec_trace.specs.Exact.{most_pages};
ghost use Rattle.spec_trace.specs.Gaps.{ByOthers};
ghost use Rattle.spec_trace.specs.Trace.{Item, M, entries};
ghost use Rattle.spec_trace.specs.declared.mark.Mark.TheVariants as the;
ghost use Rattle.std.specs.Prelude.{Bool, List, Ok, Option, [], false, length, true, ℕ, ◌+◌, ◌++◌, ◌<◌, ◌∷◌, ◌≡◌};
ghost use Rattle.thor_value.specs.declared.names.Ts.{Ts};
ghost use Rattle.repo_refusals.specs.Window.{window};
ghost use Rattle.base_reasons.specs.declared.reason.Reason.TheVariants as reasons;
ghost use Rattle.repo_refusals.specs.declared.refusal.Refusal.TheVariants as refused;

/// A trace that didn't grow grew by nothing, and what grew twice grew. Where nothing is unsettled, what comes is
/// others', and nothing of the client's is unsettled then; another's call may have stopped the repository.
pub fn growth_composes()
    ensures none { (b : Base) (c : ℕ) (u : Unsettled) (T : List Item) → Grew b c u T u T }
    ensures both { (b : Base) (c : ℕ) (u v w : Unsettled) (T S R : List Item) → Grew b c u T v S → Grew b c v S w R →
        Grew b c u T w R }
    ensures calm { (b : Base) (c : ℕ) (T : List Item) (w : Unsettled) (S : List Item) (g : Grew b c Calm T w S) →
        ByOthers b c T g.gap × MayHalt Calm w }
    ensures halts { (b : Base) (c : ℕ) (T : List Item) → Grew b c Calm T Halted T }
{}

/// A plain repository, which is its trace and reads each answer off it, keeps the promise of each call.
pub fn plain_calls_keep_their_promises()
    ensures connect { (b : Base) (T : List Item) (client : ℕ) →
        ConnectWork client (plain.connect b T client).0 b T (plain.connect b T client).1 (left_by (plain.connect b T client).0) }
    ensures fetch { (b : Base) (T : List Item) (s page upto : ℕ) →
        FetchWork s page upto (plain.fetch b T s page upto).0 b T (plain.fetch b T s page upto).1 Calm }
    ensures grant { (b : Base) (T : List Item) (s : ℕ) →
        GrantWork s (plain.grant b T s).0 b T (plain.grant b T s).1 Calm }
    ensures receive { (pages : ℕ → ℕ → List ℕ) (texts : ℕ → List ℕ) (b : Base) (T : List Item) (s : ℕ) →
        ReceiveWork s (plain.receive (message_of pages texts) b T s).0 b T (plain.receive (message_of pages texts) b T s).1 Calm }
    ensures draw { (b : Base) (T : List Item) (s now floor : ℕ) →
        DrawWork s floor (plain.draw b T s now floor).0 b T (plain.draw b T s now floor).1 Calm }
    ensures prepare { (b : Base) (T : List Item) (s : ℕ) (q : Request) → q.session ≡ s →
        PrepareWork s q (plain.prepare b T s q).0 b T (plain.prepare b T s q).1 Calm }
    ensures commit_one { (b : Base) (T : List Item) (s : ℕ) (q : Request) → q.session ≡ s →
        CommitWork s q (plain.commit_one b T s q).0 b T (plain.commit_one b T s q).1 Calm }
    ensures decide { (b : Base) (T : List Item) (s : ℕ) (t : Ts) (c : Bool) →
        DecideWork s t c (plain.decide b T s t c).0 b T (plain.decide b T s t c).1 Calm }
    ensures finish { (b : Base) (T : List Item) (t : Ts) (c : Bool) →
        FinishWork t c (plain.finish b T t c).0 b T (plain.finish b T t c).1 Calm }
    ensures forget { (b : Base) (T : List Item) (t : Ts) → ForgetWork t (plain.forget T t).0 b T (plain.forget T t).1 Calm }
    ensures ask { (b : Base) (T : List Item) (t : Ts) → AskWork t (plain.ask b T t).0 b T (plain.ask b T t).1 Calm }
{}

/// What is kept of a repository's sessions, where it says what the trace says, answers as a port promises: the next
/// number, who is live, and the message that waits first.
pub fn kept_sessions_keep_promises()
    ensures connect { (b : Base) (T : List Item) (K : Kept) (client : ℕ) (w : Welcome) → SessionsAgree b T K →
        w.session ≡ K.last + 1 → w.epoch ≡ epoch_of (state b (entries T)) →
        w.threshold ≡ (window b (entries T)).threshold → w.place ≡ length (entries T) →
        w.upgrades ≡ (state b (entries T)).texts →
        ConnectWork client (Ok w) b T (T ++ M (the.Connected w.session client) ∷ []) Calm }
    ensures fetch { (b : Base) (T : List Item) (K : Kept) (s page upto : ℕ) → SessionsAgree b T K → is_live K s ≡ true →
        FetchWork s page upto (Ok tt) b T (T ++ M (the.Fetched s page upto) ∷ []) Calm }
    ensures grant { (b : Base) (T : List Item) (K : Kept) (s : ℕ) → SessionsAgree b T K → is_live K s ≡ true →
        next_page b T < most_pages →
        GrantWork s (Ok tt) b T (T ++ M (the.Granted s (next_page b T)) ∷ []) Calm }
    ensures gone { (b : Base) (T : List Item) (K : Kept) (s : ℕ) → SessionsAgree b T K → is_live K s ≡ false →
        RefusedUnmarked b T s (refused.Reason (reasons.Gone s)) T Calm }
    ensures receive { (b : Base) (T : List Item) (K : Kept) (s : ℕ) (m : Option Message) → SessionsAgree b T K →
        is_live K s ≡ true → first (waiting K.waiting s) ≡ m →
        ReceiveWork s (Ok m) b T (behind_taken T s m) Calm }
{}
