//! What is proved of requests that the verdict accepted.

ghost use Rattle.log_entries.specs.declared.entry.Entry.TheVariants.{One, Prepared, Upgraded};
ghost use Rattle.log_entries.specs.declared.entry.Entry.{Entry};
ghost use Rattle.log_entries.specs.declared.request.Request.{Request};
ghost use Rattle.spec_history.specs.History.{Base, epoch_of, known_by, state};
ghost use Rattle.spec_history.specs.Laws.{Continues};
ghost use Rattle.spec_history.specs.Participants.{IsAlone, IsShared};
ghost use Rattle.spec_history.specs.Requests.{has_read, is_upgrade};
ghost use Rattle.spec_history.specs.Sound.{Accepts, Vouches, sound};
ghost use Rattle.spec_trace.specs.Acceptance.{WasAccepted};
ghost use Rattle.spec_trace.specs.Current.{IsRightOrStale};
ghost use Rattle.spec_trace.specs.Session.{Session, session, upto_of};
ghost use Rattle.spec_trace.specs.Trace.{Item, entries};
ghost use Rattle.spec_trace.specs.Verdict.{verdict};
ghost use Rattle.std.specs.Option.{IfSome};
ghost use Rattle.std.specs.Prelude.{Bool, List, None, Option, Some, false, true, ℕ, ◌≡◌, ◌≤◌};
ghost use Rattle.thor_value.specs.FiniteMap.{get};
ghost use Rattle.thor_value.specs.declared.names.Oref.{Oref};
ghost use Rattle.thor_value.specs.declared.names.Ts.{Ts};
ghost use Rattle.thor_value.specs.declared.values.Obj.{Obj};
ghost use Rattle.repo_refusals.specs.Refusals.{first_refusal};
ghost use Rattle.repo_refusals.specs.Window.{window};
ghost use Rattle.repo_refusals.specs.declared.refusal.Refusal.{Refusal};

/// An accepted request is of a live session, read no stale copy and nothing that an undecided
/// transaction wrote, and has room in the window and in the buffer. So each current copy that it read
/// is what stands there, where its client acknowledged no more than it knew.
pub fn accepted_requests_are_current()
    ensures found { (b : Base) (T : List Item) (s : ℕ) (q : Request) → sound b (entries T) →
        known_by b (entries T) q.tx ≡ None → verdict b T s q ≡ None →
        (v : Session) × WasAccepted b T s q v }
    ensures copies { (b : Base) (T : List Item) (s : ℕ) (q : Request) (v : Session) (committed : Ts → Bool)
        (x : Oref) (o : Obj) → WasAccepted b T s q v → q.upto ≤ upto_of v → has_read q x ≡ true →
        IsRightOrStale b (entries T) s v committed x o →
        get (state b (entries T)).objects x ≡ Some o }
{}

/// A request that comes once and that isn't refused has seen the installed upgrades and can come behind
/// each transaction that is there, whatever the invalid set and the limits say. Where its sender has
/// kept its conditions, a request that the verdict accepts owes nothing: the history stays sound with
/// its entry.
pub fn verdicts_are_sound()
    ensures accepts { (b : Base) (H : List Entry) (q : Request) (stale full : Option Refusal) →
        sound b H → known_by b H q.tx ≡ None →
        first_refusal (state b H) (window b H) stale full q ≡ None →
        (q.epoch ≡ epoch_of (state b H)) × ((t : Ts) → IfSome (known_by b H t) (Accepts q t)) }
    ensures prepared { (b : Base) (T : List Item) (s : ℕ) (q : Request) → sound b (entries T) →
        Vouches b (state b (entries T)) q → IsShared q → verdict b T s q ≡ None →
        Continues b (entries T) (Prepared q) }
    ensures one { (b : Base) (T : List Item) (s : ℕ) (q : Request) → sound b (entries T) →
        Vouches b (state b (entries T)) q → IsAlone b q → is_upgrade q ≡ false →
        verdict b T s q ≡ None → Continues b (entries T) (One q) }
    ensures upgraded { (b : Base) (T : List Item) (s : ℕ) (q : Request) → sound b (entries T) →
        Vouches b (state b (entries T)) q → IsAlone b q → is_upgrade q ≡ true →
        verdict b T s q ≡ None → Continues b (entries T) (Upgraded q) }
{}
