//! What is proved of a validation queue that is kept in place of the window.

ghost use Rattle.log_entries.specs.declared.entry.Entry.{Entry};
ghost use Rattle.log_entries.specs.declared.request.Request.{Request};
ghost use Rattle.spec_history.specs.History.{Base, State, state};
ghost use Rattle.repo_refusals.specs.Queue.{TellsInOrder, queue_of, queued_of, refusal_by, slide_queue, transaction_of};
ghost use Rattle.spec_history.specs.Requests.{is_upgrade};
ghost use Rattle.spec_history.specs.Sound.{sound};
ghost use Rattle.repo_refusals.specs.Refusals.{other_epoch, blocks, comes_earlier, comes_later, first_refusal, full, full_of_undecided, full_of_writes, set_of, too_old};
ghost use Rattle.repo_refusals.specs.Window.{Member, Window, decide, enter, leave, restarted, window};
ghost use Rattle.base_reasons.specs.declared.reason.Reason.TheVariants as reasons;
ghost use Rattle.repo_refusals.specs.declared.refusal.Refusal.TheVariants as refused;
ghost use Rattle.repo_refusals.specs.declared.refusal.Refusal.{Refusal};
ghost use Rattle.std.specs.Option.{option_map, option_or};
ghost use Rattle.std.specs.Prelude.{Bool, List, None, Option, Some, [], false, true, ◌++◌, ◌≡◌, ◌∷◌};
ghost use Rattle.thor_value.specs.FiniteMap.{empty, get, keep, keys, len};
ghost use Rattle.thor_value.specs.declared.names.Oref.{Oref};
ghost use Rattle.thor_value.specs.declared.names.Ts.{Ts};
ghost use Rattle.validation_queue.specs.Clashes.{clash, first_some};
ghost use Rattle.validation_queue.specs.Contents as queue;
ghost use Rattle.validation_queue.specs.Contents.{first_blocking};
ghost use Rattle.validation_queue.specs.Names.{Rises};

/// A queue that has the window's members has them behind each step of the window: where a request
/// comes in, where a transaction commits or is aborted, where an upgrade commits, and behind a restart.
/// So a queue that follows the entries of a sound history has the members of its window.
pub fn queues_keep_the_window()
    ensures begins { (t : Ts) → queue_of (record { threshold = t; members = empty }) ≡ queue.cleared t }
    ensures members { (W : Window) (t : Ts) →
        get (queue_of W).members t ≡ option_map queued_of (get W.members t) }
    ensures len { (W : Window) → len (queue_of W).members ≡ len W.members }
    ensures enters { (W : Window) (q : Request) (decided : Bool) →
        queue_of (enter W q decided) ≡ queue.enter (queue_of W) (transaction_of q) decided }
    ensures commits { (W : Window) (t : Ts) (m : Member) → get W.members t ≡ Some m →
        is_upgrade m.request ≡ false →
        queue_of (decide W t m.request) ≡ queue.decide (queue_of W) t true }
    ensures aborts { (W : Window) (t : Ts) →
        queue_of (leave W t) ≡ queue.decide (queue_of W) t false }
    ensures clears { (W : Window) (t : Ts) (q : Request) → is_upgrade q ≡ true →
        queue_of (decide W t q) ≡ queue.cleared t }
    ensures restarts { (W : Window) (top : Ts) (test : Ts → Bool) →
        queue_of (restarted top W test)
        ≡ record { threshold = top; members = keep (queue_of W).members test } }
    ensures follows { (b : Base) (H : List Entry) (e : Entry) → sound b H →
        queue_of (window b (H ++ e ∷ [])) ≡ slide_queue b (state b H) (queue_of (window b H)) e }
{}

/// What the transactions of the window have against a request is what the queue with the window's
/// members answers: which of them block it, and then the first of TooOld, Earlier, Later and Full of
/// the window that holds. So a repository that keeps such a queue has the first refusal by its answers.
/// The names of a list that rises are its set in their order.
pub fn queues_answer_by_the_window()
    ensures blocked { (W : Window) (q : Request) →
        first_some (blocks q) W.members.pairs
        ≡ option_map (λ t. refused.Reason (reasons.Blocked t)) (first_blocking (queue_of W) (is_upgrade q)) }
    ensures clash { (W : Window) (q : Request) → TellsInOrder q →
        option_map refused.Reason (clash (queue_of W) (transaction_of q))
        ≡ option_or (too_old W q)
        (option_or (first_some (comes_earlier q) W.members.pairs)
        (option_or (first_some (comes_later q) W.members.pairs) (full_of_undecided W))) }
    ensures refusal { (b : Base) (S : State) (W : Window) (q : Request) (stale : Option Refusal) →
        TellsInOrder q →
        first_refusal S W stale (full b W q) q
        ≡ refusal_by (queue_of W) q (other_epoch S q) stale (full_of_writes b q) }
    ensures accepted { (b : Base) (S : State) (W : Window) (q : Request) (stale : Option Refusal) →
        TellsInOrder q → first_refusal S W stale (full b W q) q ≡ None →
        clash (queue_of W) (transaction_of q) ≡ None }
    ensures names { (names : List Oref) → Rises names → keys (set_of names) ≡ names }
{}
