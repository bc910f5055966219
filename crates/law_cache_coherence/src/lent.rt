//! What a client's link with a repository and its copies fit behind each call on a port that shows what its calls do: what is
//! known of the call (`client_state::Calling`) leads from what fits the view before it to what fits the view behind it, where
//! that shows what is right.

ghost use Rattle.client_cache.specs.Copies.{Contents, kept};
ghost use Rattle.law_cache_coherence.specs.Fitting.{Copies, NoneToFinish};
ghost use Rattle.law_cache_coherence.specs.Links.{Becomes, BringsContent};
ghost use Rattle.law_cache_coherence.specs.Seen.{IsSeenRight, LinkAt, LinkIn, called_at};
ghost use Rattle.client_state.specs.Calling.{Connects, Draws, Fetches, Grants};
ghost use Rattle.client_state.specs.Links.{is_reply};
ghost use Rattle.client_state.specs.Taking.{took};
ghost use Rattle.client_state.specs.declared.calls.Drew.{Drew};
ghost use Rattle.client_state.specs.declared.link.Link.{Link};
ghost use Rattle.client_state.specs.declared.link.Link.TheVariants.{Apart, Joined};
ghost use Rattle.client_state.specs.declared.link.Waits.{Waits};
ghost use Rattle.session_outbox.specs.declared.answers.At.{At};
ghost use Rattle.session_outbox.specs.declared.message.Message.{Message};
ghost use Rattle.client_port.specs.Acting.{Acts};
ghost use Rattle.client_port.specs.Growing.{Called};
ghost use Rattle.client_port.specs.Views.{Unsettled, View};
ghost use Rattle.client_port.specs.Works.{Does, ReceiveWork};
ghost use Rattle.spec_trace.specs.Notices.{notice_of};
ghost use Rattle.spec_trace.specs.Session.{place_of};
ghost use Rattle.spec_trace.specs.Trace.{Item, entries};
ghost use Rattle.std.specs.List.{slice_get};
ghost use Rattle.std.specs.Prelude.{Bool, Err, List, None, Ok, Option, Result, Some, false, true, ℕ, ◌+◌, ◌<◌, ◌^◌, ◌≡◌, ◌≢◌};
ghost use Rattle.thor_value.specs.declared.memory.NoMemory.{NoMemory};
ghost use Rattle.thor_value.specs.declared.names.Ts.{Ts};
ghost use Rattle.thor_value.specs.declared.values.Obj.{Obj};
ghost use Rattle.repo_refusals.specs.declared.refusal.Refusal.{Refusal};

/// A link with a repository that isn't called fits what others make of it, whatever call was made elsewhere.
pub fn other_links_fit()
    ensures called { (old new : View) (r n : ℕ) (at : List Item) (met : Unsettled) (committed : Ts → Bool) (link : Link) (copies : Copies) →
        Called old new r at met → n ≢ r → IsSeenRight new n committed → LinkIn old n committed link copies → LinkIn new n committed link copies }
    ensures acts { (old new : View) (a : Acts old new) (n : ℕ) (committed : Ts → Bool) (link : Link) (copies : Copies) →
        called_at old new a ≢ Some n → IsSeenRight new n committed → LinkIn old n committed link copies → LinkIn new n committed link copies }
{}

/// A client that is apart from a repository and connects there fits what it is told, or is apart still.
pub fn connecting_links_fit()
    ensures { (old new : View) (repo : ℕ) (before after : List Link) (copies : Copies) (committed : Ts → Bool) →
        Connects true old new repo old.opened.client before after → IsSeenRight new repo committed → slice_get before repo ≡ Some Apart →
        LinkIn old repo committed Apart copies → LinkAt new repo committed (slice_get after repo) copies }
{}

/// One that waits for no answer and asks for a page, or for a page of names, fits then; so does one that draws. Where its
/// session is gone it is apart, and holds nothing of the repository.
pub fn asking_links_fit()
    ensures fetch { (old new : View) (at : At) (page upto : ℕ) (before after : List Link) (copies left : Contents) (waits : Waits) (committed : Ts → Bool) →
        Fetches true old new at page upto before after copies left → IsSeenRight new at.repo committed →
        slice_get before at.repo ≡ Some (Joined at.session upto waits) → is_reply waits ≡ false →
        NoneToFinish (new.opened.base at.repo) (entries (new.seen at.repo)) at.session committed →
        LinkIn old at.repo committed (Joined at.session upto waits) (kept copies) → LinkAt new at.repo committed (slice_get after at.repo) (kept left) }
    ensures grant { (old new : View) (at : At) (upto : ℕ) (before after : List Link) (copies left : Contents) (waits : Waits) (committed : Ts → Bool) →
        Grants true old new at before after copies left → IsSeenRight new at.repo committed →
        slice_get before at.repo ≡ Some (Joined at.session upto waits) → is_reply waits ≡ false →
        LinkIn old at.repo committed (Joined at.session upto waits) (kept copies) → LinkAt new at.repo committed (slice_get after at.repo) (kept left) }
    ensures draw { (old new : View) (at : At) (upto : ℕ) (answer : Result Drew NoMemory) (before after : List Link) (copies left : Contents) (waits : Waits) (committed : Ts → Bool) →
        Draws true old new at answer before after copies left → IsSeenRight new at.repo committed →
        slice_get before at.repo ≡ Some (Joined at.session upto waits) →
        LinkIn old at.repo committed (Joined at.session upto waits) (kept copies) → LinkAt new at.repo committed (slice_get after at.repo) (kept left) }
{}

/// One that takes a message fits with the link behind it, and with the copies that it makes of it, where a page brings what
/// stood there. Where none waits, or the call is refused, link and copies fit as they are.
pub fn taking_links_fit()
    ensures message { (old new : View) (at : At) (upto : ℕ) (waits : Waits) (committed : Ts → Bool) (copies left : Copies) (m : Message) (objects : ℕ → Option Obj) →
        Does {X = Option Message} old new at.repo (Ok (Some m)) (ReceiveWork at.session (Ok (Some m))) → IsSeenRight new at.repo committed → place_of (notice_of m) + 1 < 2 ^ 64 →
        BringsContent (new.opened.base at.repo) (entries (new.seen at.repo)) objects m → Becomes at.repo objects m copies left →
        LinkIn old at.repo committed (Joined at.session upto waits) copies → LinkIn new at.repo committed (took m (Joined at.session upto waits)) left }
    ensures none { (old new : View) (at : At) (upto : ℕ) (waits : Waits) (committed : Ts → Bool) (copies : Copies) →
        Does {X = Option Message} old new at.repo (Ok None) (ReceiveWork at.session (Ok None)) → IsSeenRight new at.repo committed →
        LinkIn old at.repo committed (Joined at.session upto waits) copies → LinkIn new at.repo committed (Joined at.session upto waits) copies }
    ensures refused { (old new : View) (at : At) (upto : ℕ) (waits : Waits) (committed : Ts → Bool) (copies : Copies) (r : Refusal) →
        Does {X = Option Message} old new at.repo (Err r) (ReceiveWork at.session (Err r)) → IsSeenRight new at.repo committed →
        LinkIn old at.repo committed (Joined at.session upto waits) copies → LinkIn new at.repo committed (Joined at.session upto waits) copies }
{}
