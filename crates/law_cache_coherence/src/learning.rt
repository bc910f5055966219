//! What a client's link fits behind the refusal of a request, once it has learnt from it.

ghost use Rattle.client_cache.specs.Copies.{Contents, kept};
ghost use Rattle.law_cache_coherence.specs.Fitting.{Copies};
ghost use Rattle.law_cache_coherence.specs.Seen.{IsSeenRight, LinkAt, LinkIn};
ghost use Rattle.client_state.specs.Calling.{CopiesRefused};
ghost use Rattle.client_state.specs.Learning.{links_learnt};
ghost use Rattle.client_state.specs.Links.{is_reply};
ghost use Rattle.client_state.specs.declared.link.Link.{Link};
ghost use Rattle.client_state.specs.declared.link.Link.TheVariants.{Joined};
ghost use Rattle.client_state.specs.declared.link.Waits.{Waits};
ghost use Rattle.log_entries.specs.declared.request.Request.{Request};
ghost use Rattle.spec_history.specs.History.{Base};
ghost use Rattle.session_outbox.specs.declared.answers.At.{At};
ghost use Rattle.paused_eval.specs.Copies.{AreAmong};
ghost use Rattle.client_port.specs.Views.{View};
ghost use Rattle.client_port.specs.Works.{CommitWork, Does, PrepareWork};
ghost use Rattle.base_reasons.specs.declared.reason.Reason.TheVariants as reasons;
ghost use Rattle.spec_trace.specs.Trace.{Item};
ghost use Rattle.spec_trace.specs.Verdict.{verdict};
ghost use Rattle.std.specs.List.{slice_get};
ghost use Rattle.std.specs.Prelude.{Bool, Err, List, Some, false, ℕ, ◌≡◌};
ghost use Rattle.thor_value.specs.declared.names.Ts.{Ts};
ghost use Rattle.repo_refusals.specs.declared.refusal.Refusal.TheVariants as refused;
ghost use Rattle.repo_refusals.specs.declared.refusal.Refusal.{Refusal};

/// A request is refused as of a session that is gone only where that is its own.
pub fn gone_sessions_are_own()
    ensures { (b : Base) (T : List Item) (s n : ℕ) (q : Request) → verdict b T s q ≡ Some (refused.Reason (reasons.Gone n)) → n ≡ s }
{}

/// A link that fits, and in which no answer is to come, fits as the client changes it by what it learns from a request's
/// refusal: where the session is gone it is apart and holds nothing of the repository, and else it waits for messages or stays.
pub fn learning_links_fit()
    ensures { (port : View) (r s upto : ℕ) (waits : Waits) (refusal : Refusal) (before : List Link) (committed : Ts → Bool) (copies left : Contents) →
        slice_get before r ≡ Some (Joined s upto waits) → is_reply waits ≡ false → (port.opened.base r).repo ≡ r →
        ((n : ℕ) → refusal ≡ refused.Reason (reasons.Gone n) → n ≡ s) → CopiesRefused refusal r before copies left →
        LinkIn port r committed (Joined s upto waits) (kept copies) → LinkAt port r committed (slice_get (links_learnt refusal r before) r) (kept left) }
{}

/// So a client whose request is refused, and that learns from it, fits then.
pub fn refused_links_fit()
    ensures commit_one { (old new : View) (at : At) (upto : ℕ) (waits : Waits) (committed : Ts → Bool) (before : List Link) (copies left : Contents) (q : Request) (k : Refusal) →
        Does {X = ℕ} old new at.repo (Err k) (CommitWork at.session q (Err k)) → IsSeenRight new at.repo committed →
        slice_get before at.repo ≡ Some (Joined at.session upto waits) → is_reply waits ≡ false → CopiesRefused k at.repo before copies left →
        LinkIn old at.repo committed (Joined at.session upto waits) (kept copies) → LinkAt new at.repo committed (slice_get (links_learnt k at.repo before) at.repo) (kept left) }
    ensures prepare { (old new : View) (at : At) (upto : ℕ) (waits : Waits) (committed : Ts → Bool) (before : List Link) (copies left : Contents) (q : Request) (k : Refusal) →
        Does {X = ℕ} old new at.repo (Err k) (PrepareWork at.session q (Err k)) → IsSeenRight new at.repo committed → q.upto ≡ upto → committed q.tx ≡ false →
        slice_get before at.repo ≡ Some (Joined at.session upto waits) → is_reply waits ≡ false → CopiesRefused k at.repo before copies left →
        LinkIn old at.repo committed (Joined at.session upto waits) (kept copies) → LinkAt new at.repo committed (slice_get (links_learnt k at.repo before) at.repo) (kept left) }
{}

/// A client that holds fewer copies, as behind an eviction, fits as before.
pub fn fewer_copies_fit()
    ensures { (port : View) (r : ℕ) (committed : Ts → Bool) (link : Link) (copies left : Copies) → AreAmong copies left →
        LinkIn port r committed link copies → LinkIn port r committed link left }
{}
