//! That a client of a store with one repository fits it, whatever others do.

ghost use Rattle.client_cache.specs.Copies.{kept};
ghost use Rattle.client_state.specs.Pending.{NonePending};
ghost use Rattle.client_state.specs.declared.held.Held.{Held};
ghost use Rattle.client_state.specs.declared.link.Link.TheVariants.{Apart, Joined};
ghost use Rattle.client_state.specs.declared.link.Link.{Link};
ghost use Rattle.client_state.specs.declared.link.Waits.{Waits};
ghost use Rattle.law_client_steps.specs.OneExample.{HoldsOnTheWay, asking, position_after, behind_it, first_page, seeing, stopped, whole};
ghost use Rattle.law_client_steps.specs.OneRepository.{FitsOne, HasOneRepository, IsRightOrTold, Leads};
ghost use Rattle.law_client_steps.specs.Positions.{Position};
ghost use Rattle.law_client_steps.specs.Owed.{PageOwed};
ghost use Rattle.law_client_steps.specs.SingleParts.{LeadsSingly};
ghost use Rattle.page_format.specs.Pages.{page_bytes};
ghost use Rattle.client_port.specs.Views.{Calm};
ghost use Rattle.spec_trace.specs.Notices.{lives};
ghost use Rattle.spec_trace.specs.Session.{session};
ghost use Rattle.std.specs.List.{slice_get};
ghost use Rattle.std.specs.Prelude.{List, None, Some, [], take, true, ℕ, ◌∷◌, ◌≡◌};
ghost use Rattle.thor_value.specs.declared.names.Oref.{Oref};
ghost use Rattle.thor_value.specs.declared.values.Obj.{Obj};

/// Over one repository a new client fits. One that fits does so at the end of each run, whatever others do between, stops and
/// restarts in between: nothing is asked of what has committed, since nothing is ever prepared there. While its session is live
/// and nothing is unsettled, each of its copies is what stands there now, or the client is about to be told that it isn't.
pub fn clients_of_one_repository_fit()
    ensures begins { (p : Position) → HasOneRepository p.port → p.held.client ≡ p.port.opened.client → ((n : ℕ) (link : Link) → slice_get p.held.links.items n ≡ Some link → link ≡ Apart) →
        ((x : Oref) → kept p.held.cache.cache x ≡ None) → p.pending ≡ NonePending → FitsOne p }
    ensures runs { (a z : Position) (between : List Position) → Leads a between z → FitsOne a → FitsOne z }
    ensures copies { (p : Position) (s upto : ℕ) (waits : Waits) (x : Oref) (o : Obj) → FitsOne p → slice_get p.held.links.items 0 ≡ Some (Joined s upto waits) → p.port.unsettled 0 ≡ Calm →
        lives (session (p.port.opened.base 0) (p.port.seen 0) s) ≡ true → (p.port.opened.base 0).tells ≡ true → x.repo ≡ 0 → kept p.held.cache.cache x ≡ Some o → IsRightOrTold p.port s upto x o }
{}

/// A run that meets all that is asked, and all that is asked where each transaction commits at one repository: a client connects,
/// draws, is granted a page, takes its names, and commits an object that it creates there; then another client connects. What it
/// holds on the way is given by what is said of it. The same where the commit stops: its entry comes, the repository is restarted, and
/// the client is told by a question that it has committed. And a page whose bytes spell its two objects as they stood at the beginning.
pub fn a_run_over_one_repository()
    ensures begins { (first joined drawn waits taken last : Held) → HoldsOnTheWay first joined drawn waits taken last → FitsOne (position_after 1 first) }
    ensures leads { (first joined drawn waits taken last : Held) → HoldsOnTheWay first joined drawn waits taken last →
        Leads (position_after 1 first) (position_after 2 joined ∷ position_after 3 drawn ∷ position_after 4 waits ∷ position_after 5 taken ∷ position_after 6 last ∷ []) (position_after 7 last) }
    ensures singly { (first joined drawn waits taken last : Held) → HoldsOnTheWay first joined drawn waits taken last →
        LeadsSingly (position_after 1 first) (position_after 2 joined ∷ position_after 3 drawn ∷ position_after 4 waits ∷ position_after 5 taken ∷ position_after 6 last ∷ []) (position_after 7 last) }
    ensures stops { (first joined drawn waits taken last : Held) → HoldsOnTheWay first joined drawn waits taken last →
        Leads (position_after 5 taken) (stopped taken ∷ behind_it taken asking ∷ []) (behind_it last NonePending) }
    ensures page { PageOwed (seeing (take 1 whole)) 0 0 (page_bytes first_page) 1 }
{}
