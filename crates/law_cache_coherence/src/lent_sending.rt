//! The same of the calls that send a transaction, and of those that name no session.

ghost use Rattle.law_cache_coherence.specs.Fitting.{Copies, NoneToFinish, SameCopies, with_writes};
ghost use Rattle.law_cache_coherence.specs.Seen.{IsSeenRight, LinkIn};
ghost use Rattle.client_state.specs.Links.{is_reply};
ghost use Rattle.client_state.specs.declared.link.Link.{Link};
ghost use Rattle.client_state.specs.declared.link.Link.TheVariants.{Joined};
ghost use Rattle.client_state.specs.declared.link.Waits.{Waits};
ghost use Rattle.log_entries.specs.declared.request.Request.{Request};
ghost use Rattle.session_outbox.specs.declared.answers.Asked as answer;
ghost use Rattle.session_outbox.specs.declared.answers.At.{At};
ghost use Rattle.session_outbox.specs.declared.answers.Verdict.{Verdict};
ghost use Rattle.client_port.specs.Views.{View};
ghost use Rattle.client_port.specs.Works.{AskWork, CommitWork, DecideWork, Does, FinishWork, ForgetWork, PrepareWork};
ghost use Rattle.spec_trace.specs.Trace.{entries};
ghost use Rattle.spec_trace.specs.Exact.{WritesOnPages};
ghost use Rattle.std.specs.Prelude.{Bool, Err, Ok, Option, Result, Some, false, true, ℕ, ◌≡◌};
ghost use Rattle.thor_value.specs.declared.names.Ts.{Ts};
ghost use Rattle.repo_refusals.specs.declared.refusal.Refusal.{Refusal};

/// A client whose request is prepared, or is refused, fits as it is. One whose transaction commits at one repository, and that
/// then holds what it wrote there, fits so.
pub fn sending_links_fit()
    ensures prepare { (old new : View) (at : At) (upto : ℕ) (waits : Waits) (committed : Ts → Bool) (copies : Copies) (q : Request) (result : Result ℕ Refusal) →
        Does old new at.repo result (PrepareWork at.session q result) → IsSeenRight new at.repo committed → q.upto ≡ upto → committed q.tx ≡ false →
        LinkIn old at.repo committed (Joined at.session upto waits) copies → LinkIn new at.repo committed (Joined at.session upto waits) copies }
    ensures commit_one { (old new : View) (at : At) (upto : ℕ) (waits : Waits) (committed : Ts → Bool) (copies left : Copies) (q : Request) (place : ℕ) →
        (d : Does {X = ℕ} old new at.repo (Ok place) (CommitWork at.session q (Ok place))) → IsSeenRight new at.repo committed → q.upto ≡ upto → is_reply waits ≡ false →
        NoneToFinish (old.opened.base at.repo) (entries d.at) at.session committed → WritesOnPages (old.opened.base at.repo) d.at at.session q →
        ((old.opened.base at.repo).tells ≡ true → SameCopies (old.opened.base at.repo) left (with_writes q copies)) →
        LinkIn old at.repo committed (Joined at.session upto waits) copies → LinkIn new at.repo committed (Joined at.session upto waits) left }
    ensures commit_refused { (old new : View) (at : At) (upto : ℕ) (waits : Waits) (committed : Ts → Bool) (copies : Copies) (q : Request) (k : Refusal) →
        Does {X = ℕ} old new at.repo (Err k) (CommitWork at.session q (Err k)) → IsSeenRight new at.repo committed →
        LinkIn old at.repo committed (Joined at.session upto waits) copies → LinkIn new at.repo committed (Joined at.session upto waits) copies }
{}

/// One that decides to abort, or whose decision is refused, fits as it is. (Of one that decides to commit, and is told so, see
/// `verdicts`.)
pub fn deciding_links_fit()
    ensures abort { (old new : View) (at : At) (upto : ℕ) (waits : Waits) (committed : Ts → Bool) (copies : Copies) (t : Ts) (v : Verdict) →
        Does {X = Verdict} old new at.repo (Ok v) (DecideWork at.session t false (Ok v)) → IsSeenRight new at.repo committed →
        LinkIn old at.repo committed (Joined at.session upto waits) copies → LinkIn new at.repo committed (Joined at.session upto waits) copies }
    ensures refused { (old new : View) (at : At) (upto : ℕ) (waits : Waits) (committed : Ts → Bool) (copies : Copies) (t : Ts) (commit : Bool) (k : Refusal) →
        Does {X = Verdict} old new at.repo (Err k) (DecideWork at.session t commit (Err k)) → IsSeenRight new at.repo committed →
        LinkIn old at.repo committed (Joined at.session upto waits) copies → LinkIn new at.repo committed (Joined at.session upto waits) copies }
{}

/// One that hands a verdict on, has a decision forgotten or asks fits as it is, whatever its link there is.
pub fn telling_links_fit()
    ensures finish { (old new : View) (r : ℕ) (committed : Ts → Bool) (copies : Copies) (t : Ts) (commit : Bool) (result : Result (Option ℕ) Refusal) (link : Link) →
        Does old new r result (FinishWork t commit result) → IsSeenRight new r committed → LinkIn old r committed link copies → LinkIn new r committed link copies }
    ensures forget { (old new : View) (r : ℕ) (committed : Ts → Bool) (copies : Copies) (t : Ts) (result : Result (Unit {0}) Refusal) (link : Link) →
        Does old new r result (ForgetWork t result) → IsSeenRight new r committed → LinkIn old r committed link copies → LinkIn new r committed link copies }
    ensures ask { (old new : View) (r : ℕ) (committed : Ts → Bool) (copies : Copies) (t : Ts) (result : Result answer.Asked Refusal) (link : Link) →
        Does old new r result (AskWork t result) → IsSeenRight new r committed → LinkIn old r committed link copies → LinkIn new r committed link copies }
{}
