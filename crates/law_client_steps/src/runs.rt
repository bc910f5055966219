//! That a client fits at the end of its steps.

ghost use Rattle.client_cache.specs.Copies.{kept};
ghost use Rattle.client_state.specs.declared.held.Held.{Held};
ghost use Rattle.client_state.specs.declared.link.Link.{Link};
ghost use Rattle.client_state.specs.declared.link.Link.TheVariants.{Apart};
ghost use Rattle.law_client_steps.specs.Owed.{ClientFits};
ghost use Rattle.law_client_steps.specs.Runs.{Leads, Moment};
ghost use Rattle.client_port.specs.Views.{View};
ghost use Rattle.std.specs.List.{slice_get};
ghost use Rattle.std.specs.Prelude.{Bool, List, None, Some, ℕ, ◌≡◌, ◌≤◌};
ghost use Rattle.thor_value.specs.declared.names.Oref.{Oref};
ghost use Rattle.thor_value.specs.declared.names.Ts.{Ts};

/// A client that has no session anywhere, and no copy, fits with all that it holds.
pub fn new_clients_fit_wholly()
    ensures { (port : View) (committed : Ts → Bool) (held : Held) → held.client ≡ port.opened.client → port.opened.repos ≤ 8 →
        ((n : ℕ) (link : Link) → slice_get held.links.items n ≡ Some link → link ≡ Apart) → ((x : Oref) → kept held.cache.cache x ≡ None) → ClientFits port committed held }
{}

/// A client that fits, and that then makes steps, between which others act as they like, fits at the end: its session with
/// each repository is its own, and while that is live it knows what it has taken, and each of its copies is current or is
/// about to be called invalid.
pub fn running_clients_fit()
    ensures { (a z : Moment) (between : List Moment) → Leads a between z → ClientFits a.port a.committed a.held → ClientFits z.port z.committed z.held }
{}
