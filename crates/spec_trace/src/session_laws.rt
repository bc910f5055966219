//! What is proved of sessions and of the messages to them.

ghost use Rattle.log_entries.specs.declared.entry.Entry.{Entry};
ghost use Rattle.log_entries.specs.declared.request.Request.{Request};
ghost use Rattle.spec_history.specs.Requests.{written};
ghost use Rattle.spec_trace.specs.Current.{InStep, IsCurrent, IsOwnWrite, IsRightOrStale, NoPageWaits, NoneAborted, OthersOrSame, OthersSince, OthersWrite, PassesItem, RightAt, Takes, WasToldOf, commits_in, is_taking, names_invalid};
ghost use Rattle.spec_history.specs.History.{Base, IsCommitted, Known, commit_of, objects_at, known_by, state, writers};
ghost use Rattle.spec_history.specs.Outcomes.{MaySettle};
ghost use Rattle.spec_trace.specs.Messages.{KeepsOrder, WaitsByPlace};
ghost use Rattle.spec_trace.specs.Session.{Notice, Page, Session, acked_after, bound, meet, session, session_lives, upto_of};
ghost use Rattle.spec_history.specs.Sound.{sound};
ghost use Rattle.spec_trace.specs.declared.mark.Mark.TheVariants as the;
ghost use Rattle.spec_trace.specs.declared.mark.Mark.{Mark};
ghost use Rattle.spec_trace.specs.Trace.{E, Item, M, entries};
ghost use Rattle.std.specs.List.{All};
ghost use Rattle.std.specs.Option.{IfSome, IsSomeAnd};
ghost use Rattle.std.specs.Prelude.{List, Some, [], ◌∷◌, ◌++◌, ℕ, ◌≡◌, ◌≤◌, ◌+◌, Bool, false, length, max, true};
ghost use Rattle.thor_value.specs.FiniteMap.{get, has};
ghost use Rattle.thor_value.specs.declared.names.Oref.{Oref};
ghost use Rattle.thor_value.specs.declared.names.Ts.{Ts};
ghost use Rattle.thor_value.specs.declared.values.Obj.{Obj};

/// A session grows with its repository's trace, by one step of its fold.
pub fn sessions_grow()
    ensures { (b : Base) (T : List Item) (i : Item) (s : ℕ) →
        session b (T ++ i ∷ []) s ≡ meet b s (state b (entries T)) (session b T s) i }
{}

/// The places of the messages to a session don't fall, and what its client knows by the messages that
/// it has taken tells which ones wait. An invalidation waits exactly where it was sent and isn't known.
pub fn messages_are_in_order()
    ensures order { (b : Base) (T : List Item) (s : ℕ) →
        IfSome (session b T s) (λ v. KeepsOrder v (length (entries T))) }
    ensures waits { (b : Base) (T : List Item) (s : ℕ) → IfSome (session b T s) (λ v. WaitsByPlace v) }
{}

/// A copy that was right at a place which the client doesn't know to be passed, and that other
/// sessions alone have written since, is right now or is in the invalid set.
pub fn copies_are_current()
    ensures { (b : Base) (H : List Entry) (s : ℕ) (v : Session) (committed : Ts → Bool) (x : Oref) (o : Obj) →
        session_lives v ≡ true → InStep v → IsCurrent b H s v committed x o → IsRightOrStale b H s v committed x o }
{}

/// A copy that was right at a place stays so while its client takes no message and other sessions
/// alone write its object, whatever else the trace gains. The client stays in step with its session
/// where it acknowledges no more than it knows. What a transaction wrote is right behind its commit,
/// also where it is the session's own, while no page of the object waits.
pub fn copies_stay_right()
    ensures right { (b : Base) (T : List Item) (i : Item) (s : ℕ) (v w : Session) (x : Oref) (o : Obj) (m : ℕ) →
        session b T s ≡ Some v → session b (T ++ i ∷ []) s ≡ Some w → InStep v →
        is_taking s i ≡ false → OthersWrite s x (commits_in b (entries T) i) →
        RightAt b (entries T) s v x o m → RightAt b (entries (T ++ i ∷ [])) s w x o m }
    ensures step { (b : Base) (T : List Item) (i : Item) (s : ℕ) (v w : Session) →
        session b T s ≡ Some v → session b (T ++ i ∷ []) s ≡ Some w → InStep v →
        is_taking s i ≡ false → acked_after s v.acked i ≤ upto_of v → InStep w }
    ensures committed { (b : Base) (T : List Item) (e : Entry) (s : ℕ) (v w : Session) (q : Request) (x : Oref) (o : Obj) →
        session b T s ≡ Some v → session b (T ++ E e ∷ []) s ≡ Some w → InStep v →
        commit_of b (state b (entries T)) e ≡ (length (entries T), q) ∷ [] → get (written q) x ≡ Some o →
        IsSomeAnd (get v.pages x.page) (λ c. c ≤ length (entries T)) → NoPageWaits v x →
        RightAt b (entries (T ++ E e ∷ [])) s w x o (length (entries T) + 1) }
{}

/// A live session was told of each commit by another session of an object on one of its pages, from
/// the page's first fetch or grant on; an upgrade's commit is told as such.
pub fn commits_are_told()
    ensures { (b : Base) (T : List Item) (s : ℕ) (v : Session) → session b T s ≡ Some v → session_lives v ≡ true →
        (x : Oref) → All (WasToldOf s v x) (writers b (entries T) x) }
{}

/// A copy stays right where its client takes a message that doesn't name its object: it was right at
/// the place that the message makes known, too. What a page brings is right at its place, where other
/// sessions alone have written it since.
pub fn messages_keep_copies()
    ensures kept { (b : Base) (T : List Item) (s : ℕ) (v w : Session) (place : ℕ) (m : Notice) (x : Oref) (o : Obj) (n : ℕ) →
        Takes b T s v w place m → names_invalid x m ≡ false → sound b (entries T) →
        RightAt b (entries T) s v x o n →
        RightAt b (entries (T ++ M (the.Took s place) ∷ [])) s w x o (max n (bound m)) }
    ensures brought { (b : Base) (T : List Item) (s : ℕ) (v w : Session) (place page k : ℕ) (x : Oref) (o : Obj) →
        Takes b T s v w place (Page page k) → x.page ≡ page →
        get (objects_at b (entries T) k) x ≡ Some o → OthersSince s k (writers b (entries T) x) →
        RightAt b (entries (T ++ M (the.Took s place) ∷ [])) s w x o k }
    ensures step { (b : Base) (T : List Item) (s : ℕ) (v w : Session) (place : ℕ) (m : Notice) →
        Takes b T s v w place m → InStep v → InStep w }
{}

/// What a client holds of a page that it takes is what the page brings: no page that waits is older than a copy.
pub fn pages_bring_what_was_read()
    ensures { (b : Base) (T : List Item) (s : ℕ) (v w : Session) (place page k : ℕ) (x : Oref) (o : Obj) (n : ℕ) →
        Takes b T s v w place (Page page k) → x.page ≡ page → sound b (entries T) →
        RightAt b (entries T) s v x o n → get (objects_at b (entries T) k) x ≡ Some o }
{}

/// A write of the session's own stays one, with the same standing, behind each mark and each entry
/// that can't settle its transaction: another's request, a decision about another, a Life of another
/// coordinator. Where an entry commits the transaction here, the copy is right at the place behind it, while
/// no page of the object waits.
/// Where an entry aborts it, the copy is no own write any more, and nothing is said of it. A
/// transaction that turns out to be committed at its coordinator makes no copy less current.
pub fn own_writes_stay()
    ensures marks { (b : Base) (T : List Item) (k : Mark) (s : ℕ) (committed : Ts → Bool) (x : Oref) (o : Obj) (t : Ts) (p : Known) →
        IsOwnWrite b (entries T) s committed x o t p → IsOwnWrite b (entries (T ++ M k ∷ [])) s committed x o t p }
    ensures entries { (b : Base) (T : List Item) (e : Entry) (s : ℕ) (committed : Ts → Bool) (x : Oref) (o : Obj) (t : Ts) (p : Known) →
        sound b (entries (T ++ E e ∷ [])) → ¬ MaySettle b t e →
        IsOwnWrite b (entries T) s committed x o t p → IsOwnWrite b (entries (T ++ E e ∷ [])) s committed x o t p }
    ensures committed { (b : Base) (T : List Item) (e : Entry) (s : ℕ) (v w : Session) (committed : Ts → Bool) (x : Oref) (o : Obj) (t : Ts) (p q : Known) →
        PassesItem b T (E e) s v w → InStep v → has v.pages x.page ≡ true → NoPageWaits v x → sound b (entries (T ++ E e ∷ [])) →
        IsOwnWrite b (entries T) s committed x o t p → known_by b (entries (T ++ E e ∷ [])) t ≡ Some q → IsCommitted q.fate →
        RightAt b (entries (T ++ E e ∷ [])) s w x o (length (entries T) + 1) }
    ensures more { (b : Base) (H : List Entry) (s : ℕ) (v : Session) (committed more : Ts → Bool) (x : Oref) (o : Obj) →
        ((t : Ts) → committed t ≡ true → more t ≡ true) →
        IsCurrent b H s v committed x o → IsCurrent b H s v more x o }
{}

/// A current copy stays current while its client takes no message, whatever the trace gains, where no
/// transaction that committed at its coordinator is aborted here, and where what the session itself
/// commits of the object is the copy and no page of the object waits then. It stays so where its client takes a message that doesn't name
/// its object. What a page brings is current, where other sessions alone have written it since.
pub fn current_copies_stay()
    ensures grown { (b : Base) (T : List Item) (i : Item) (s : ℕ) (v w : Session) (committed : Ts → Bool) (x : Oref) (o : Obj) →
        PassesItem b T i s v w → InStep v → has v.pages x.page ≡ true →
        sound b (entries (T ++ i ∷ [])) → NoneAborted b (entries (T ++ i ∷ [])) committed →
        OthersOrSame s v x o (commits_in b (entries T) i) →
        IsCurrent b (entries T) s v committed x o → IsCurrent b (entries (T ++ i ∷ [])) s w committed x o }
    ensures taken { (b : Base) (T : List Item) (s : ℕ) (v w : Session) (place : ℕ) (m : Notice) (committed : Ts → Bool) (x : Oref) (o : Obj) →
        Takes b T s v w place m → names_invalid x m ≡ false → sound b (entries T) →
        IsCurrent b (entries T) s v committed x o →
        IsCurrent b (entries (T ++ M (the.Took s place) ∷ [])) s w committed x o }
    ensures brought { (b : Base) (T : List Item) (s : ℕ) (v w : Session) (place page k : ℕ) (committed : Ts → Bool) (x : Oref) (o : Obj) →
        Takes b T s v w place (Page page k) → x.page ≡ page →
        get (objects_at b (entries T) k) x ≡ Some o → OthersSince s k (writers b (entries T) x) →
        IsCurrent b (entries (T ++ M (the.Took s place) ∷ [])) s w committed x o }
{}

/// A session has the pages that it had, behind each item at which it doesn't begin.
pub fn pages_stay()
    ensures grown { (b : Base) (T : List Item) (i : Item) (s : ℕ) (v w : Session) (page : ℕ) →
        PassesItem b T i s v w → has v.pages page ≡ true → has w.pages page ≡ true }
    ensures taken { (b : Base) (T : List Item) (s : ℕ) (v w : Session) (place : ℕ) (m : Notice) →
        Takes b T s v w place m → w.pages ≡ v.pages }
{}
