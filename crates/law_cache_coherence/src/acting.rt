//! What a call that a client has made leaves of its links, and what others do.

ghost use Rattle.law_cache_coherence.specs.Fitting.{Copies};
ghost use Rattle.law_cache_coherence.specs.Seen.{LinkAt, called_at};
ghost use Rattle.law_cache_coherence.specs.Steps.{AllSeenRight, LinksFit, OthersStay};
ghost use Rattle.client_state.specs.declared.link.Link.{Link};
ghost use Rattle.client_state.specs.declared.link.Link.TheVariants.{Apart};
ghost use Rattle.client_port.specs.Acting.{Acts};
ghost use Rattle.client_port.specs.Growing.{Grew};
ghost use Rattle.client_port.specs.Views.{View};
ghost use Rattle.std.specs.List.{slice_get};
ghost use Rattle.std.specs.Prelude.{Bool, List, None, Some, ℕ, ◌<◌, ◌≡◌};
ghost use Rattle.thor_value.specs.declared.names.Oref.{Oref};
ghost use Rattle.thor_value.specs.declared.names.Ts.{Ts};

/// By whichever call a client makes, where its link with the called repository fits behind it, and all else stays, all its
/// links fit.
pub fn acting_links_fit()
    ensures { (old new : View) (acts : Acts old new) (committed : Ts → Bool) (before after : List Link) (copies left : Copies) →
        AllSeenRight new committed → OthersStay new (called_at old new acts) before after copies left →
        ((r : ℕ) → called_at old new acts ≡ Some r → LinkAt old r committed (slice_get before r) copies → LinkAt new r committed (slice_get after r) left) →
        LinksFit old committed before copies → LinksFit new committed after left }
{}

/// A client that has no session anywhere, and no copy, fits.
pub fn new_clients_fit()
    ensures { (port : View) (committed : Ts → Bool) (links : List Link) (copies : Copies) → ((n : ℕ) (link : Link) → slice_get links n ≡ Some link → link ≡ Apart) → ((x : Oref) → copies x ≡ None) →
        LinksFit port committed links copies }
{}

/// A client that fits with all its links fits whatever others have made of the repositories meanwhile.
pub fn waiting_clients_fit()
    ensures { (old new : View) (committed : Ts → Bool) (links : List Link) (copies : Copies) → new.opened ≡ old.opened →
        ((r : ℕ) → r < old.opened.repos → Grew (old.opened.base r) old.opened.client (old.unsettled r) (old.seen r) (new.unsettled r) (new.seen r)) →
        AllSeenRight new committed → LinksFit old committed links copies → LinksFit new committed links copies }
{}
