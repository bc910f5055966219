//! What each call of a client makes of what it keeps: its work (`law_client_views::Works`) leads from what fits to what fits,
//! where the client changes its link and its copies as said here.

ghost use Rattle.law_cache_coherence.specs.Fitting.{Agrees, Copies, FitsAt, HoldsNone, Kept, NoneToFinish, SameCopies, awaits_behind, behind_message, with_writes};
ghost use Rattle.log_entries.specs.declared.request.Request.{Request};
ghost use Rattle.spec_history.specs.History.{Base, Known, known_by, state};
ghost use Rattle.spec_history.specs.Requests.{has_read};
ghost use Rattle.spec_history.specs.Sound.{sound};
ghost use Rattle.session_outbox.specs.declared.answers.Asked as answer;
ghost use Rattle.session_outbox.specs.declared.answers.Verdict.{Verdict};
ghost use Rattle.session_outbox.specs.declared.answers.Welcome.{Welcome};
ghost use Rattle.session_outbox.specs.declared.message.Message.{Message};
ghost use Rattle.client_port.specs.Views.{Calm, Unsettled};
ghost use Rattle.client_port.specs.Works.{AskWork, CommitWork, ConnectWork, DecideWork, DrawWork, FetchWork, FinishWork, ForgetWork, GrantWork, PrepareWork, ReceiveWork, is_prepared_by};
ghost use Rattle.spec_trace.specs.Notices.{notice_of};
ghost use Rattle.spec_trace.specs.Current.{NoneAborted};
ghost use Rattle.spec_trace.specs.Session.{bound};
ghost use Rattle.spec_trace.specs.Trace.{Item, entries};
ghost use Rattle.spec_trace.specs.Verdict.{verdict};
ghost use Rattle.spec_trace.specs.Exact.{WritesOnPages};
ghost use Rattle.std.specs.Prelude.{Bool, Err, List, None, Ok, Option, Result, Some, false, true, ℕ, ◌≡◌};
ghost use Rattle.thor_value.specs.FiniteMap.{get};
ghost use Rattle.thor_value.specs.declared.names.Oref.{Oref};
ghost use Rattle.thor_value.specs.declared.names.Ts.{Ts};
ghost use Rattle.thor_value.specs.declared.values.Obj.{Obj};
ghost use Rattle.repo_refusals.specs.declared.refusal.Refusal.{Refusal};

/// A client that holds nothing of a repository and connects keeps the session that it was told, and knows the places
/// below the welcome's.
pub fn joined_clients_fit()
    ensures { (c : ℕ) (b : Base) (committed : Ts → Bool) (at after : List Item) (u : Unsettled) (w : Welcome) (copies : Copies) →
        HoldsNone b copies → ConnectWork c (Ok w) b at after u →
        FitsAt c b u after committed (record { session = w.session; upto = w.place; awaits = false; copies = copies }) }
{}

/// A client that waits for no answer and asks for a page, or for a page of names, waits for it. Where it is refused
/// nothing changes.
pub fn asked_clients_fit()
    ensures fetch { (c : ℕ) (b : Base) (committed : Ts → Bool) (at after : List Item) (u : Unsettled) (kept : Kept) (page : ℕ) →
        sound b (entries after) → NoneAborted b (entries after) committed → FitsAt c b Calm at committed kept →
        kept.awaits ≡ false → NoneToFinish b (entries at) kept.session committed → FetchWork kept.session page kept.upto (Ok tt) b at after u →
        FitsAt c b u after committed (record kept { awaits = true }) }
    ensures fetch_refused { (c : ℕ) (b : Base) (committed : Ts → Bool) (at after : List Item) (u : Unsettled) (kept : Kept) (page : ℕ) (r : Refusal) →
        sound b (entries after) → NoneAborted b (entries after) committed → FitsAt c b Calm at committed kept →
        FetchWork kept.session page kept.upto (Err r) b at after u → FitsAt c b u after committed kept }
    ensures grant { (c : ℕ) (b : Base) (committed : Ts → Bool) (at after : List Item) (u : Unsettled) (kept : Kept) →
        sound b (entries after) → NoneAborted b (entries after) committed → FitsAt c b Calm at committed kept →
        kept.awaits ≡ false → GrantWork kept.session (Ok tt) b at after u → FitsAt c b u after committed (record kept { awaits = true }) }
    ensures grant_refused { (c : ℕ) (b : Base) (committed : Ts → Bool) (at after : List Item) (u : Unsettled) (kept : Kept) (r : Refusal) →
        sound b (entries after) → NoneAborted b (entries after) committed → FitsAt c b Calm at committed kept →
        GrantWork kept.session (Err r) b at after u → FitsAt c b u after committed kept }
{}

/// A client that takes a message knows the places that it makes known. A page's objects are put in the place of its copies, and
/// what others wrote is dropped. Where none waits, or the call is refused, nothing changes.
pub fn receiving_clients_fit()
    ensures message { (c : ℕ) (b : Base) (committed : Ts → Bool) (at after : List Item) (u : Unsettled) (kept : Kept) (m : Message) (copies : Copies) →
        sound b (entries after) → NoneAborted b (entries after) committed → FitsAt c b Calm at committed kept →
        (b.tells ≡ true → SameCopies b copies (behind_message b (entries at) (notice_of m) kept.copies)) →
        ReceiveWork kept.session (Ok (Some m)) b at after u →
        FitsAt c b u after committed (record { session = kept.session; upto = bound (notice_of m); awaits = awaits_behind (notice_of m) kept.awaits; copies = copies }) }
    ensures none { (c : ℕ) (b : Base) (committed : Ts → Bool) (at after : List Item) (u : Unsettled) (kept : Kept) →
        sound b (entries after) → NoneAborted b (entries after) committed → FitsAt c b Calm at committed kept →
        ReceiveWork kept.session (Ok None) b at after u → FitsAt c b u after committed kept }
    ensures refused { (c : ℕ) (b : Base) (committed : Ts → Bool) (at after : List Item) (u : Unsettled) (kept : Kept) (r : Refusal) →
        sound b (entries after) → NoneAborted b (entries after) committed → FitsAt c b Calm at committed kept →
        ReceiveWork kept.session (Err r) b at after u → FitsAt c b u after committed kept }
{}

/// A client that draws keeps what it keeps, and so does one whose request is prepared, or is refused. One whose
/// transaction commits at one repository holds what it wrote there.
pub fn sending_clients_fit()
    ensures draw { (c : ℕ) (b : Base) (committed : Ts → Bool) (at after : List Item) (u : Unsettled) (kept : Kept) (floor : ℕ) (t : Ts) →
        sound b (entries after) → NoneAborted b (entries after) committed → FitsAt c b Calm at committed kept →
        DrawWork kept.session floor (Ok t) b at after u → FitsAt c b u after committed kept }
    ensures draw_refused { (c : ℕ) (b : Base) (committed : Ts → Bool) (at after : List Item) (u : Unsettled) (kept : Kept) (floor : ℕ) (r : Refusal) →
        sound b (entries after) → NoneAborted b (entries after) committed → FitsAt c b Calm at committed kept →
        DrawWork kept.session floor (Err r) b at after u → FitsAt c b u after committed kept }
    ensures prepare { (c : ℕ) (b : Base) (committed : Ts → Bool) (at after : List Item) (u : Unsettled) (kept : Kept) (q : Request) (place : ℕ) →
        sound b (entries after) → NoneAborted b (entries after) committed → FitsAt c b Calm at committed kept →
        q.upto ≡ kept.upto → committed q.tx ≡ false → PrepareWork kept.session q (Ok place) b at after u →
        FitsAt c b u after committed kept }
    ensures prepare_refused { (c : ℕ) (b : Base) (committed : Ts → Bool) (at after : List Item) (u : Unsettled) (kept : Kept) (q : Request) (r : Refusal) →
        sound b (entries after) → NoneAborted b (entries after) committed → FitsAt c b Calm at committed kept →
        PrepareWork kept.session q (Err r) b at after u → FitsAt c b u after committed kept }
    ensures commit_one { (c : ℕ) (b : Base) (committed : Ts → Bool) (at after : List Item) (u : Unsettled) (kept : Kept) (q : Request) (place : ℕ) (copies : Copies) →
        sound b (entries after) → NoneAborted b (entries after) committed → FitsAt c b Calm at committed kept →
        q.upto ≡ kept.upto → kept.awaits ≡ false → NoneToFinish b (entries at) kept.session committed → WritesOnPages b at kept.session q →
        (b.tells ≡ true → SameCopies b copies (with_writes q kept.copies)) → CommitWork kept.session q (Ok place) b at after u →
        FitsAt c b u after committed (record kept { copies = copies }) }
    ensures commit_refused { (c : ℕ) (b : Base) (committed : Ts → Bool) (at after : List Item) (u : Unsettled) (kept : Kept) (q : Request) (r : Refusal) →
        sound b (entries after) → NoneAborted b (entries after) committed → FitsAt c b Calm at committed kept →
        CommitWork kept.session q (Err r) b at after u → FitsAt c b u after committed kept }
{}

/// A client that decides to commit what its session prepared holds what it wrote. One that decides to abort, or whose
/// decision is refused, keeps what it keeps.
pub fn deciding_clients_fit()
    ensures commit { (c : ℕ) (b : Base) (committed : Ts → Bool) (at after : List Item) (u : Unsettled) (kept : Kept) (t : Ts) (o : Known) (v : Verdict) (copies : Copies) →
        sound b (entries after) → NoneAborted b (entries after) committed → FitsAt c b Calm at committed kept →
        known_by b (entries at) t ≡ Some o → is_prepared_by kept.session (Some o) ≡ true → kept.awaits ≡ false →
        NoneToFinish b (entries at) kept.session committed → WritesOnPages b at kept.session o.request →
        (b.tells ≡ true → SameCopies b copies (with_writes o.request kept.copies)) → DecideWork kept.session t true (Ok v) b at after u →
        FitsAt c b u after committed (record kept { copies = copies }) }
    ensures abort { (c : ℕ) (b : Base) (committed : Ts → Bool) (at after : List Item) (u : Unsettled) (kept : Kept) (t : Ts) (v : Verdict) →
        sound b (entries after) → NoneAborted b (entries after) committed → FitsAt c b Calm at committed kept →
        DecideWork kept.session t false (Ok v) b at after u → FitsAt c b u after committed kept }
    ensures refused { (c : ℕ) (b : Base) (committed : Ts → Bool) (at after : List Item) (u : Unsettled) (kept : Kept) (t : Ts) (commit : Bool) (r : Refusal) →
        sound b (entries after) → NoneAborted b (entries after) committed → FitsAt c b Calm at committed kept →
        DecideWork kept.session t commit (Err r) b at after u → FitsAt c b u after committed kept }
{}

/// A client that hands a verdict on, has a decision forgotten or asks keeps what it keeps.
pub fn telling_clients_fit()
    ensures finish { (c : ℕ) (b : Base) (committed : Ts → Bool) (at after : List Item) (u : Unsettled) (kept : Kept) (t : Ts) (commit : Bool) (r : Result (Option ℕ) Refusal) →
        sound b (entries after) → NoneAborted b (entries after) committed → FitsAt c b Calm at committed kept →
        Agrees b (entries after) kept.session committed → FinishWork t commit r b at after u → FitsAt c b u after committed kept }
    ensures forget { (c : ℕ) (b : Base) (committed : Ts → Bool) (at after : List Item) (u : Unsettled) (kept : Kept) (t : Ts) (r : Result (Unit {0}) Refusal) →
        sound b (entries after) → NoneAborted b (entries after) committed → FitsAt c b Calm at committed kept →
        ForgetWork t r b at after u → FitsAt c b u after committed kept }
    ensures ask { (c : ℕ) (b : Base) (committed : Ts → Bool) (at after : List Item) (u : Unsettled) (kept : Kept) (t : Ts) (r : Result answer.Asked Refusal) →
        sound b (entries after) → NoneAborted b (entries after) committed → FitsAt c b Calm at committed kept →
        AskWork t r b at after u → FitsAt c b u after committed kept }
{}

/// What a committed or prepared request read by its client's copies is what stands at its place: the last writes
/// below it.
pub fn commits_rest()
    ensures { (c : ℕ) (b : Base) (T : List Item) (committed : Ts → Bool) (kept : Kept) (q : Request) →
        sound b (entries T) → known_by b (entries T) q.tx ≡ None → FitsAt c b Calm T committed kept →
        verdict b T kept.session q ≡ None → q.upto ≡ kept.upto → b.tells ≡ true →
        (x : Oref) (o : Obj) → x.repo ≡ b.repo → has_read q x ≡ true → kept.copies x ≡ Some o →
        get (state b (entries T)).objects x ≡ Some o }
{}
