//! That a client which has taken all messages isn't refused again for what it was told.

ghost use Rattle.law_cache_coherence.specs.Fitting.{FitsAt, Kept};
ghost use Rattle.law_cache_coherence.specs.Refusing.{OthersWrote};
ghost use Rattle.log_entries.specs.declared.request.Request.{Request};
ghost use Rattle.spec_history.specs.History.{Base};
ghost use Rattle.spec_history.specs.Sound.{sound};
ghost use Rattle.client_port.specs.Views.{Calm};
ghost use Rattle.base_reasons.specs.declared.reason.Reason.TheVariants as reasons;
ghost use Rattle.spec_trace.specs.Current.{IsTold};
ghost use Rattle.spec_trace.specs.Exact.{exact};
ghost use Rattle.spec_trace.specs.Notices.{lives};
ghost use Rattle.spec_trace.specs.Session.{Session, session, waiting};
ghost use Rattle.spec_trace.specs.Trace.{Item, entries};
ghost use Rattle.spec_trace.specs.Verdict.{verdict};
ghost use Rattle.std.specs.Option.{IsSomeAnd};
ghost use Rattle.std.specs.Prelude.{Bool, List, Some, [], true, ℕ, ◌++◌, ◌<◌, ◌≡◌, ◌≢◌, ◌≤◌};
ghost use Rattle.thor_value.specs.declared.names.Oref.{Oref};
ghost use Rattle.thor_value.specs.declared.names.Ts.{Ts};
ghost use Rattle.repo_refusals.specs.declared.refusal.Refusal.TheVariants as refused;

/// A request is refused as stale only where a commit of another session wrote the object at that place, its session was sent
/// the message of that, and its `upto` isn't above the place.
pub fn stale_writes_are_told()
    ensures { (b : Base) (T : List Item) (s : ℕ) (q : Request) (x : Oref) (k : ℕ) → sound b (entries T) →
        verdict b T s q ≡ Some (refused.Reason (reasons.Stale x k)) → (q.upto ≤ k) × IsSomeAnd (session b T s) (λ v. IsTold v.sent x k) × OthersWrote b T s x k }
{}

/// A client that fits, and for whose session no message waits, knows the place of each write that the session was told of.
pub fn told_places_are_known()
    ensures { (c : ℕ) (b : Base) (T : List Item) (committed : Ts → Bool) (kept : Kept) → FitsAt c b Calm T committed kept →
        lives (session b T kept.session) ≡ true → IsSomeAnd (session b T kept.session) (λ v. waiting v ≡ []) →
        IsSomeAnd (session b T kept.session) (λ v. (x : Oref) (k : ℕ) → IsTold v.sent x k → k < kept.upto) }
{}

/// So a client whose request was refused as stale, and that has taken all messages since, knows the place of the write: none of
/// its requests is refused for that write again.
pub fn stale_places_are_passed()
    ensures passed { (c : ℕ) (b : Base) (T more : List Item) (committed : Ts → Bool) (kept : Kept) (q : Request) (x : Oref) (k : ℕ) → sound b (entries T) → exact b (T ++ more) →
        verdict b T kept.session q ≡ Some (refused.Reason (reasons.Stale x k)) → FitsAt c b Calm (T ++ more) committed kept →
        lives (session b (T ++ more) kept.session) ≡ true → IsSomeAnd (session b (T ++ more) kept.session) (λ v. waiting v ≡ []) → k < kept.upto }
    ensures again { (b : Base) (T : List Item) (s : ℕ) (q : Request) (x : Oref) (k : ℕ) → sound b (entries T) → k < q.upto →
        verdict b T s q ≢ Some (refused.Reason (reasons.Stale x k)) }
{}

/// A message that names an object as invalid is sent only of a commit of another session that wrote it, at the message's place.
pub fn named_objects_were_written()
    ensures { (b : Base) (T : List Item) (s : ℕ) (v : Session) → session b T s ≡ Some v → (x : Oref) (k : ℕ) → IsTold v.sent x k → OthersWrote b T s x k }
{}
