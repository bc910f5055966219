//! That a client each of whose transactions commits at one repository fits all repositories, whatever others do.

ghost use Rattle.client_cache.specs.Copies.{kept};
ghost use Rattle.client_state.specs.Pending.{NonePending};
ghost use Rattle.client_state.specs.declared.link.Link.TheVariants.{Apart};
ghost use Rattle.client_state.specs.declared.link.Link.{Link};
ghost use Rattle.law_client_steps.specs.Positions.{Position};
ghost use Rattle.law_client_steps.specs.SingleParts.{FitsAll, HasRepositories, LeadsSingly};
ghost use Rattle.std.specs.List.{slice_get};
ghost use Rattle.std.specs.Prelude.{List, None, Some, ℕ, ◌≡◌};
ghost use Rattle.thor_value.specs.declared.names.Oref.{Oref};

/// Over several repositories a new client fits. One that fits, that prepares nothing, and that decides nothing to commit, does so at
/// the end of each run, whatever others do between, stops and restarts in between: what has committed is what is seen so at
/// coordinators, and nothing is asked of what is handed on.
pub fn clients_of_single_parts_fit()
    ensures begins { (p : Position) → HasRepositories p.port → p.held.client ≡ p.port.opened.client → ((n : ℕ) (link : Link) → slice_get p.held.links.items n ≡ Some link → link ≡ Apart) →
        ((x : Oref) → kept p.held.cache.cache x ≡ None) → p.pending ≡ NonePending → FitsAll p }
    ensures runs { (a z : Position) (between : List Position) → LeadsSingly a between z → FitsAll a → FitsAll z }
{}
