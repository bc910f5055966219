//! That a client which fits with all its links fits so behind each call.

ghost use Rattle.client_cache.specs.Copies.{Contents, kept};
ghost use Rattle.law_cache_coherence.specs.Fitting.{Copies, NoneToFinish, SameCopies, with_writes};
ghost use Rattle.law_cache_coherence.specs.Links.{Becomes, BringsContent};
ghost use Rattle.law_cache_coherence.specs.Steps.{AllSeenRight, LinksFit};
ghost use Rattle.client_state.specs.Calling.{Connects, CopiesRefused, Draws, Fetches, Grants};
ghost use Rattle.client_state.specs.Learning.{links_learnt};
ghost use Rattle.client_state.specs.Links.{at_repo, is_reply};
ghost use Rattle.client_state.specs.Taking.{took};
ghost use Rattle.client_state.specs.declared.calls.Drew.{Drew};
ghost use Rattle.client_state.specs.declared.link.Link.{Link};
ghost use Rattle.client_state.specs.declared.link.Link.TheVariants.{Apart, Joined};
ghost use Rattle.client_state.specs.declared.link.Waits.{Waits};
ghost use Rattle.log_entries.specs.declared.request.Request.{Request};
ghost use Rattle.session_outbox.specs.declared.answers.Asked as answer;
ghost use Rattle.session_outbox.specs.declared.answers.At.{At};
ghost use Rattle.session_outbox.specs.declared.answers.Verdict.{Verdict};
ghost use Rattle.session_outbox.specs.declared.message.Message.{Message};
ghost use Rattle.client_port.specs.Views.{View};
ghost use Rattle.client_port.specs.Works.{AskWork, CommitWork, DecideWork, Does, FinishWork, ForgetWork, PrepareWork, ReceiveWork};
ghost use Rattle.spec_trace.specs.Notices.{notice_of};
ghost use Rattle.spec_trace.specs.Session.{place_of};
ghost use Rattle.spec_trace.specs.Trace.{entries};
ghost use Rattle.spec_trace.specs.Exact.{WritesOnPages};
ghost use Rattle.std.specs.List.{slice_get};
ghost use Rattle.std.specs.Prelude.{Bool, Err, List, None, Ok, Option, Result, Some, false, true, ℕ, ◌+◌, ◌<◌, ◌^◌, ◌≡◌, ◌≢◌};
ghost use Rattle.thor_value.specs.declared.memory.NoMemory.{NoMemory};
ghost use Rattle.thor_value.specs.declared.names.Oref.{Oref};
ghost use Rattle.thor_value.specs.declared.names.Ts.{Ts};
ghost use Rattle.thor_value.specs.declared.values.Obj.{Obj};
ghost use Rattle.repo_refusals.specs.declared.refusal.Refusal.{Refusal};

/// With all its links a client fits behind a connect, a fetch, a grant and a draw, where it changes links and copies as
/// `client_state` says.
pub fn asking_keeps_all_links()
    ensures connect { (old new : View) (repo : ℕ) (before after : List Link) (copies : Copies) (committed : Ts → Bool) →
        Connects true old new repo old.opened.client before after → AllSeenRight new committed → slice_get before repo ≡ Some Apart →
        LinksFit old committed before copies → LinksFit new committed after copies }
    ensures fetch { (old new : View) (at : At) (page upto : ℕ) (before after : List Link) (copies left : Contents) (waits : Waits) (committed : Ts → Bool) →
        Fetches true old new at page upto before after copies left → AllSeenRight new committed →
        slice_get before at.repo ≡ Some (Joined at.session upto waits) → is_reply waits ≡ false →
        NoneToFinish (new.opened.base at.repo) (entries (new.seen at.repo)) at.session committed →
        LinksFit old committed before (kept copies) → LinksFit new committed after (kept left) }
    ensures grant { (old new : View) (at : At) (upto : ℕ) (before after : List Link) (copies left : Contents) (waits : Waits) (committed : Ts → Bool) →
        Grants true old new at before after copies left → AllSeenRight new committed →
        slice_get before at.repo ≡ Some (Joined at.session upto waits) → is_reply waits ≡ false →
        LinksFit old committed before (kept copies) → LinksFit new committed after (kept left) }
    ensures draw { (old new : View) (at : At) (upto : ℕ) (answer : Result Drew NoMemory) (before after : List Link) (copies left : Contents) (waits : Waits) (committed : Ts → Bool) →
        Draws true old new at answer before after copies left → AllSeenRight new committed →
        slice_get before at.repo ≡ Some (Joined at.session upto waits) →
        LinksFit old committed before (kept copies) → LinksFit new committed after (kept left) }
{}

/// With all its links a client fits behind the refusal of a request, once it has learnt from that.
pub fn refusals_keep_all_links()
    ensures commit_one { (old new : View) (at : At) (upto : ℕ) (waits : Waits) (committed : Ts → Bool) (before : List Link) (copies left : Contents) (q : Request) (k : Refusal) →
        Does {X = ℕ} old new at.repo (Err k) (CommitWork at.session q (Err k)) → AllSeenRight new committed →
        slice_get before at.repo ≡ Some (Joined at.session upto waits) → is_reply waits ≡ false → CopiesRefused k at.repo before copies left →
        LinksFit old committed before (kept copies) → LinksFit new committed (links_learnt k at.repo before) (kept left) }
    ensures prepare { (old new : View) (at : At) (upto : ℕ) (waits : Waits) (committed : Ts → Bool) (before : List Link) (copies left : Contents) (q : Request) (k : Refusal) →
        Does {X = ℕ} old new at.repo (Err k) (PrepareWork at.session q (Err k)) → AllSeenRight new committed → q.upto ≡ upto → committed q.tx ≡ false →
        slice_get before at.repo ≡ Some (Joined at.session upto waits) → is_reply waits ≡ false → CopiesRefused k at.repo before copies left →
        LinksFit old committed before (kept copies) → LinksFit new committed (links_learnt k at.repo before) (kept left) }
{}

/// With all its links a client fits as it is behind a verdict that it hands on, a decision that it has forgotten, and a question.
pub fn telling_keeps_all_links()
    ensures finish { (old new : View) (r : ℕ) (t : Ts) (commit : Bool) (result : Result (Option ℕ) Refusal) (links : List Link) (copies : Copies) (committed : Ts → Bool) →
        Does old new r result (FinishWork t commit result) → AllSeenRight new committed → LinksFit old committed links copies → LinksFit new committed links copies }
    ensures forget { (old new : View) (r : ℕ) (t : Ts) (result : Result (Unit {0}) Refusal) (links : List Link) (copies : Copies) (committed : Ts → Bool) →
        Does old new r result (ForgetWork t result) → AllSeenRight new committed → LinksFit old committed links copies → LinksFit new committed links copies }
    ensures ask { (old new : View) (r : ℕ) (t : Ts) (result : Result answer.Asked Refusal) (links : List Link) (copies : Copies) (committed : Ts → Bool) →
        Does old new r result (AskWork t result) → AllSeenRight new committed → LinksFit old committed links copies → LinksFit new committed links copies }
{}

/// And so behind a request that is prepared, a decision to abort, and a decision that is refused.
pub fn deciding_keeps_all_links()
    ensures prepare { (old new : View) (at : At) (upto : ℕ) (waits : Waits) (committed : Ts → Bool) (links : List Link) (copies : Copies) (q : Request) (result : Result ℕ Refusal) →
        Does old new at.repo result (PrepareWork at.session q result) → AllSeenRight new committed → q.upto ≡ upto → committed q.tx ≡ false → slice_get links at.repo ≡ Some (Joined at.session upto waits) →
        LinksFit old committed links copies → LinksFit new committed links copies }
    ensures abort { (old new : View) (at : At) (upto : ℕ) (waits : Waits) (committed : Ts → Bool) (links : List Link) (copies : Copies) (t : Ts) (v : Verdict) →
        Does {X = Verdict} old new at.repo (Ok v) (DecideWork at.session t false (Ok v)) → AllSeenRight new committed → slice_get links at.repo ≡ Some (Joined at.session upto waits) →
        LinksFit old committed links copies → LinksFit new committed links copies }
    ensures refused { (old new : View) (at : At) (upto : ℕ) (waits : Waits) (committed : Ts → Bool) (links : List Link) (copies : Copies) (t : Ts) (commit : Bool) (k : Refusal) →
        Does {X = Verdict} old new at.repo (Err k) (DecideWork at.session t commit (Err k)) → AllSeenRight new committed → slice_get links at.repo ≡ Some (Joined at.session upto waits) →
        LinksFit old committed links copies → LinksFit new committed links copies }
{}

/// And behind a message that it takes, where it changes its link and its copies of that repository's objects by it, and no
/// others; where none waits, or the call is refused, as it is.
pub fn taking_keeps_all_links()
    ensures message { (old new : View) (at : At) (upto : ℕ) (waits : Waits) (committed : Ts → Bool) (links : List Link) (copies left : Copies) (m : Message) (objects : ℕ → Option Obj) →
        Does {X = Option Message} old new at.repo (Ok (Some m)) (ReceiveWork at.session (Ok (Some m))) → AllSeenRight new committed → place_of (notice_of m) + 1 < 2 ^ 64 →
        BringsContent (new.opened.base at.repo) (entries (new.seen at.repo)) objects m → Becomes at.repo objects m copies left → ((x : Oref) → x.repo ≢ at.repo → left x ≡ copies x) →
        slice_get links at.repo ≡ Some (Joined at.session upto waits) → LinksFit old committed links copies → LinksFit new committed (at_repo links at.repo (took m)) left }
    ensures none { (old new : View) (at : At) (upto : ℕ) (waits : Waits) (committed : Ts → Bool) (links : List Link) (copies : Copies) →
        Does {X = Option Message} old new at.repo (Ok None) (ReceiveWork at.session (Ok None)) → AllSeenRight new committed →
        slice_get links at.repo ≡ Some (Joined at.session upto waits) → LinksFit old committed links copies → LinksFit new committed links copies }
    ensures refused { (old new : View) (at : At) (upto : ℕ) (waits : Waits) (committed : Ts → Bool) (links : List Link) (copies : Copies) (k : Refusal) →
        Does {X = Option Message} old new at.repo (Err k) (ReceiveWork at.session (Err k)) → AllSeenRight new committed →
        slice_get links at.repo ≡ Some (Joined at.session upto waits) → LinksFit old committed links copies → LinksFit new committed links copies }
{}

/// And behind a commit, where it then holds what it wrote at that repository, and all else stays.
pub fn committing_keeps_all_links()
    ensures commit_one { (old new : View) (at : At) (upto : ℕ) (waits : Waits) (committed : Ts → Bool) (links : List Link) (copies left : Copies) (q : Request) (place : ℕ) →
        (d : Does {X = ℕ} old new at.repo (Ok place) (CommitWork at.session q (Ok place))) → AllSeenRight new committed → q.upto ≡ upto → is_reply waits ≡ false →
        NoneToFinish (old.opened.base at.repo) (entries d.at) at.session committed → WritesOnPages (old.opened.base at.repo) d.at at.session q →
        ((old.opened.base at.repo).tells ≡ true → SameCopies (old.opened.base at.repo) left (with_writes q copies)) → ((x : Oref) → x.repo ≢ at.repo → left x ≡ copies x) →
        slice_get links at.repo ≡ Some (Joined at.session upto waits) → LinksFit old committed links copies → LinksFit new committed links left }
{}
