//! What is proved of tests, and of repositories of a run.

ghost use Rattle.law_repo_calls.specs.Seen.{StandsRight};
ghost use Rattle.law_repo_calls.specs.Vouching.{IsCounted, IsSent, WasKept};
ghost use Rattle.law_repo_memory.specs.Agreeing.{trace_of};
ghost use Rattle.log_entries.specs.declared.request.Request.{Request};
ghost use Rattle.repo_core.specs.Calls.{MayRequest};
ghost use Rattle.repo_core.specs.Shown.{Shown};
ghost use Rattle.repo_site.specs.Run.{Run};
ghost use Rattle.repo_site.specs.Sited.{Happens, IsBaseOf, Sited, StandsIn};
ghost use Rattle.repo_site.specs.Testing.{IsTested};
ghost use Rattle.spec_history.specs.History.{Base};
ghost use Rattle.spec_history.specs.Sound.{sound};
ghost use Rattle.spec_trace.specs.Exact.{exact};
ghost use Rattle.std.specs.Prelude.{Bool, true, ℕ, ◌≡◌, ◌≤◌};
ghost use Rattle.thor_value.specs.FiniteMap.{get};
ghost use Rattle.thor_value.specs.declared.names.Ts.{Ts};
ghost use Rattle.two_phase.specs.Contents.{keeps};

/// A request that has passed all tests owes nothing by itself: what no repository could believe before is tested.
pub fn tested_requests_are_sent()
    ensures { (b : Base) (x : Shown) (number repos s : ℕ) (q : Request) (alone : Bool) → IsBaseOf b number repos → StandsRight b x →
        x.is_up ≡ true → MayRequest x.held x.memory q alone → q.session ≡ s → IsCounted x → IsTested x repos s q → IsSent b x s q }
{}

/// What a repository coordinates by its number it coordinates by its base.
pub fn decided_here()
    ensures { (b : Base) (x : Shown) → StandsRight b x → x.is_up ≡ true → x.held.repo ≡ b.repo }
{}

/// The decision that a repository keeps of a transaction of this run was made here in this run.
pub fn forgotten_was_kept()
    ensures { (b : Base) (x : Shown) (t : Ts) → StandsRight b x → x.is_up ≡ true → keeps (get x.held.table.transactions t) ≡ true →
        x.opened_in ≤ t.life → WasKept b x t }
{}

/// Behind each event a repository of a run stands right; so its history is sound, and its trace exact.
pub fn sites_stay_right()
    ensures right { (run : Run) (number repos : ℕ) (x y : Shown) → StandsIn run number repos x →
        Happens run (record { number = number; shown = x }) (record { number = number; shown = y }) → StandsIn run number repos y }
    ensures sound { (run : Run) (number repos : ℕ) (x : Shown) → StandsIn run number repos x → run.based ≡ true → sound (run.base number) x.trace.history }
    ensures exact { (run : Run) (number repos : ℕ) (x : Shown) → StandsIn run number repos x → run.based ≡ true → exact (run.base number) (trace_of x.trace) }
{}
