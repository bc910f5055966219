//! What is proved of entries: memory and history agree behind each.

ghost use Rattle.log_entries.specs.declared.entry.Entry.TheVariants.{Decided, Finished, Life, One, Prepared, Upgraded};
ghost use Rattle.log_entries.specs.declared.request.Request.{Request};
ghost use Rattle.repo_state.specs.Entering.{entered};
ghost use Rattle.repo_state.specs.declared.held.Held.{Held};
ghost use Rattle.spec_history.specs.History.{Base};
ghost use Rattle.spec_history.specs.Sound.{owes};
ghost use Rattle.law_repo_memory.specs.Agreeing.{Agrees, HeldAgrees, state_of};
ghost use Rattle.law_repo_memory.specs.Coming.{Moves};
ghost use Rattle.std.specs.List.{AllByRecursion};
ghost use Rattle.std.specs.Prelude.{Bool, Some, false, true, ℕ, ◌<◌, ◌≡◌, ◌≢◌};
ghost use Rattle.thor_value.specs.FiniteMap.{has};
ghost use Rattle.thor_value.specs.declared.names.Ts.{Ts};
ghost use Rattle.repo_trace.specs.Recorded.{Recorded, with_entry};
ghost use Rattle.two_phase.specs.Contents.{open_at};
ghost use Rattle.repo_volatile.specs.Volatile.{Memory, entered as entered_memory};

/// Memory and history agree behind a request that owes nothing, isn't in the table and writes on pages that were
/// granted. What `repo_volatile` says of a request that is prepared is what its law asks
/// of the memory.
pub fn requests_agree()
    ensures prepared { (b : Base) (r : Recorded) (h : Held) (M N : Memory) (q : Request) → Agrees b r h M →
        owes b (state_of b r) (Prepared q) →
        has h.table.transactions q.tx ≡ false → AllByRecursion (λ w. w.0.page < h.next_grant) q.writes →
        Moves h M (Prepared q) N → Agrees b (with_entry r (Prepared q)) (entered h (Prepared q)) N }
    ensures one { (b : Base) (r : Recorded) (h : Held) (M N : Memory) (q : Request) → Agrees b r h M →
        owes b (state_of b r) (One q) →
        has h.table.transactions q.tx ≡ false → AllByRecursion (λ w. w.0.page < h.next_grant) q.writes →
        Moves h M (One q) N → Agrees b (with_entry r (One q)) (entered h (One q)) N }
    ensures upgraded { (b : Base) (r : Recorded) (h : Held) (M N : Memory) (q : Request) → Agrees b r h M →
        owes b (state_of b r) (Upgraded q) →
        has h.table.transactions q.tx ≡ false → AllByRecursion (λ w. w.0.page < h.next_grant) q.writes →
        Moves h M (Upgraded q) N → Agrees b (with_entry r (Upgraded q)) (entered h (Upgraded q)) N }
    ensures memory { (h : Held) (M : Memory) (q : Request) → Moves h M (Prepared q) (entered_memory M q false) }
{}

/// The decision on a transaction that is open in the table owes nothing, where it is made by its coordinator, or learnt
/// from another one; and memory and history agree behind it.
pub fn decisions_agree()
    ensures decided { (b : Base) (r : Recorded) (h : Held) (M N : Memory) (t : Ts) (q : Request) (c : Bool) →
        Agrees b r h M → open_at h.table t ≡ Some q → t.repo ≡ b.repo → Moves h M (Decided t c) N →
        Agrees b (with_entry r (Decided t c)) (entered h (Decided t c)) N }
    ensures finished { (b : Base) (r : Recorded) (h : Held) (M N : Memory) (t : Ts) (q : Request) (c : Bool) →
        Agrees b r h M → open_at h.table t ≡ Some q → t.repo ≢ b.repo → Moves h M (Finished t c) N →
        Agrees b (with_entry r (Finished t c)) (entered h (Finished t c)) N }
{}

/// A transaction that is open in the table is in the queue.
pub fn open_requests_are_members()
    ensures { (b : Base) (r : Recorded) (h : Held) (M : Memory) (t : Ts) (q : Request) → Agrees b r h M →
        open_at h.table t ≡ Some q → has M.queue.members t ≡ true }
{}

/// Behind a Life memory and history agree, whatever the queue was before it.
pub fn lives_agree()
    ensures { (b : Base) (r : Recorded) (h : Held) (M N : Memory) (n : ℕ) → HeldAgrees b r h M.requested →
        owes b (state_of b r) (Life n) → Moves h M (Life n) N →
        Agrees b (with_entry r (Life n)) (entered h (Life n)) N }
{}
