//! That the promises of calls can be kept where repositories stop and are restarted, and entries may still come.

ghost use Rattle.log_entries.specs.declared.entry.Entry.TheVariants.{Decided, Finished, Prepared};
ghost use Rattle.log_entries.specs.declared.entry.Entry.{Entry};
ghost use Rattle.log_entries.specs.declared.request.Request.{Request};
ghost use Rattle.spec_history.specs.History.{Base, is_life, is_undecided, known_by, state};
ghost use Rattle.spec_history.specs.Sound.{owes, sound};
ghost use Rattle.session_outbox.specs.declared.answers.Asked as answer;
ghost use Rattle.session_outbox.specs.declared.answers.Verdict.{Verdict};
ghost use Rattle.session_outbox.specs.declared.answers.Welcome.{Welcome};
ghost use Rattle.session_outbox.specs.declared.message.Message.{Message};
ghost use Rattle.client_port.specs.Growing.{Called, Grew};
ghost use Rattle.law_client_views.specs.Outages.{Outage, idle, restarted, restarted_with, stopped, with_seen};
ghost use Rattle.law_client_views.specs.Plain as plain;
ghost use Rattle.client_port.specs.Views.{Calm, Halted, MayCome, Unsettled, View};
ghost use Rattle.client_port.specs.Works.{AskWork, CommitWork, ConnectWork, DecideWork, Does, DrawWork, FetchWork, FinishWork, ForgetWork, GrantWork, IsOutage, PrepareWork, ReceiveWork, alone_entry, is_prepared_by};
ghost use Rattle.spec_trace.specs.Exact.{EntryIsExact, exact};
ghost use Rattle.spec_trace.specs.Gaps.{maker};
ghost use Rattle.spec_trace.specs.Trace.{E, Item, entries};
ghost use Rattle.spec_trace.specs.Verdict.{verdict};
ghost use Rattle.std.specs.Option.{is_none};
ghost use Rattle.std.specs.Prelude.{Bool, List, Option, false, true, ℕ, ◌≡◌, ◌≢◌};
ghost use Rattle.thor_value.specs.declared.names.Ts.{Ts};
ghost use Rattle.repo_refusals.specs.declared.refusal.Refusal.{Refusal};

/// A plain repository that is out of order and does nothing keeps the promise of each call.
pub fn idle_calls_keep_their_promises()
    ensures connect { (b : Base) (T : List Item) (client : ℕ) (r : Refusal) → IsOutage r → ConnectWork client (idle {X = Welcome} T r).answer b T T Halted }
    ensures fetch { (b : Base) (T : List Item) (s page upto : ℕ) (r : Refusal) → IsOutage r → FetchWork s page upto (idle {X = Unit {0}} T r).answer b T T Halted }
    ensures grant { (b : Base) (T : List Item) (s : ℕ) (r : Refusal) → IsOutage r → GrantWork s (idle {X = Unit {0}} T r).answer b T T Halted }
    ensures receive { (b : Base) (T : List Item) (s : ℕ) (r : Refusal) → IsOutage r → ReceiveWork s (idle {X = Option Message} T r).answer b T T Halted }
    ensures draw { (b : Base) (T : List Item) (s floor : ℕ) (r : Refusal) → IsOutage r → DrawWork s floor (idle {X = Ts} T r).answer b T T Halted }
    ensures prepare { (b : Base) (T : List Item) (s : ℕ) (q : Request) (r : Refusal) → IsOutage r → PrepareWork s q (idle {X = ℕ} T r).answer b T T Halted }
    ensures commit_one { (b : Base) (T : List Item) (s : ℕ) (q : Request) (r : Refusal) → IsOutage r → CommitWork s q (idle {X = ℕ} T r).answer b T T Halted }
    ensures decide { (b : Base) (T : List Item) (s : ℕ) (t : Ts) (c : Bool) (r : Refusal) → IsOutage r → DecideWork s t c (idle {X = Verdict} T r).answer b T T Halted }
    ensures finish { (b : Base) (T : List Item) (t : Ts) (c : Bool) (r : Refusal) → IsOutage r → FinishWork t c (idle {X = Option ℕ} T r).answer b T T Halted }
    ensures forget { (b : Base) (T : List Item) (t : Ts) (r : Refusal) → IsOutage r → ForgetWork t (idle {X = Unit {0}} T r).answer b T T Halted }
    ensures ask { (b : Base) (T : List Item) (t : Ts) (r : Refusal) → IsOutage r → AskWork t (idle {X = answer.Asked} T r).answer b T T Halted }
{}

/// A plain repository that stops while it writes an entry keeps the promise of the call: the entry may come where it is
/// valid.
pub fn stopped_calls_keep_their_promises()
    ensures prepare { (b : Base) (T : List Item) (s n : ℕ) (q : Request) →
        PrepareWork s q (stopped {X = ℕ} T n (is_none (verdict b T s q)) (Prepared q)).answer b T T (stopped {X = ℕ} T n (is_none (verdict b T s q)) (Prepared q)).unsettled }
    ensures commit_one { (b : Base) (T : List Item) (s n : ℕ) (q : Request) →
        CommitWork s q (stopped {X = ℕ} T n (is_none (verdict b T s q)) (alone_entry q)).answer b T T (stopped {X = ℕ} T n (is_none (verdict b T s q)) (alone_entry q)).unsettled }
    ensures decide { (b : Base) (T : List Item) (s n : ℕ) (t : Ts) (c : Bool) →
        DecideWork s t c (stopped {X = Verdict} T n (is_prepared_by s (known_by b (entries T) t)) (Decided t c)).answer b T T (stopped {X = Verdict} T n (is_prepared_by s (known_by b (entries T) t)) (Decided t c)).unsettled }
    ensures finish { (b : Base) (T : List Item) (t : Ts) (n : ℕ) (c : Bool) →
        FinishWork t c (stopped {X = Option ℕ} T n (is_undecided (known_by b (entries T) t)) (Finished t c)).answer b T T (stopped {X = Option ℕ} T n (is_undecided (known_by b (entries T) t)) (Finished t c)).unsettled }
{}

/// What a plain repository's restart adds, with the entry that may come or without it, is growth that a client may meet: the
/// one whose call stopped, one that knows that the repository is down, and any other. The trace stays sound and exact.
pub fn restarts_are_growth()
    ensures without { (b : Base) (c : ℕ) (T : List Item) (e : Entry) → Grew b c (MayCome e) T Calm (restarted b T) }
    ensures with { (b : Base) (c : ℕ) (T : List Item) (e : Entry) → is_life e ≡ false → Grew b c (MayCome e) T Calm (restarted_with b T e) }
    ensures others { (b : Base) (c : ℕ) (T : List Item) → Grew b c Calm T Calm (restarted b T) }
    ensures others_with { (b : Base) (c : ℕ) (T : List Item) (e : Entry) → maker b T (E e) ≢ Some c → Grew b c Calm T Calm (restarted_with b T e) }
    ensures halted { (b : Base) (c : ℕ) (T : List Item) → Grew b c Halted T Calm (restarted b T) }
    ensures halted_with { (b : Base) (c : ℕ) (T : List Item) (e : Entry) → is_life e ≡ false → maker b T (E e) ≢ Some c →
        Grew b c Halted T Calm (restarted_with b T e) }
    ensures owed { (b : Base) (T : List Item) → sound b (entries T) → sound b (entries (restarted b T)) }
    ensures owed_with { (b : Base) (T : List Item) (e : Entry) → sound b (entries T) → owes b (state b (entries T)) e →
        sound b (entries (restarted_with b T e)) }
    ensures kept { (b : Base) (T : List Item) → exact b T → exact b (restarted b T) }
    ensures kept_with { (b : Base) (T : List Item) (e : Entry) → exact b T → EntryIsExact b T e → exact b (restarted_with b T e) }
{}

/// A port to plain repositories calls as is said of calls: where nothing is unsettled it meets the trace that is seen, and
/// what the repository made of it is seen then; where an entry may still come, or the repository is down, it meets that, and
/// all stays. (Its client alone acts, or others don't in that call.) So one that commits does what is promised of it.
pub fn plain_ports_do()
    ensures called { (old : View) (r : ℕ) (after : List Item) (u : Unsettled) → old.unsettled r ≡ Calm →
        Called old (with_seen old r after u) r (old.seen r) Calm × ((with_seen old r after u).seen r ≡ after) × ((with_seen old r after u).unsettled r ≡ u) }
    ensures down { (old : View) (r : ℕ) → Called old old r (old.seen r) (old.unsettled r) }
    ensures commit_one { (old : View) (r s : ℕ) (q : Request) → old.unsettled r ≡ Calm → q.session ≡ s →
        Does old (with_seen old r (plain.commit_one (old.opened.base r) (old.seen r) s q).1 Calm) r
        (plain.commit_one (old.opened.base r) (old.seen r) s q).0 (CommitWork s q (plain.commit_one (old.opened.base r) (old.seen r) s q).0) }
{}
