//! What the laws of calls say of what is kept, said of a link and of copies as the running client changes them.

ghost use Rattle.law_cache_coherence.specs.Fitting.{Agrees, Copies, HoldsNone, SameCopies, awaits_behind, behind_message};
ghost use Rattle.law_cache_coherence.specs.Links.{Becomes, BringsContent, LinkFits, kept_by};
ghost use Rattle.client_state.specs.Learning.{without_session};
ghost use Rattle.client_state.specs.Links.{is_reply, waiting};
ghost use Rattle.client_state.specs.Taking.{took};
ghost use Rattle.client_state.specs.declared.link.Link.{Link};
ghost use Rattle.client_state.specs.declared.link.Link.TheVariants.{Joined};
ghost use Rattle.client_state.specs.declared.link.Waits.{Waits};
ghost use Rattle.log_entries.specs.declared.entry.Entry.{Entry};
ghost use Rattle.spec_history.specs.History.{Base};
ghost use Rattle.spec_history.specs.Sound.{sound};
ghost use Rattle.session_outbox.specs.declared.message.Message.{Message};
ghost use Rattle.client_port.specs.Growing.{Grew};
ghost use Rattle.client_port.specs.Views.{Unsettled};
ghost use Rattle.spec_trace.specs.Notices.{notice_of};
ghost use Rattle.spec_trace.specs.Exact.{exact};
ghost use Rattle.spec_trace.specs.Session.{bound, place_of};
ghost use Rattle.spec_trace.specs.Trace.{Item, entries};
ghost use Rattle.std.specs.Prelude.{Bool, List, None, Option, Some, ℕ, ◌+◌, ◌<◌, ◌^◌, ◌≡◌};
ghost use Rattle.thor_value.specs.declared.names.Ts.{Ts};
ghost use Rattle.thor_value.specs.declared.values.Obj.{Obj};

/// What a link says of what is kept, behind each change of a link that a client makes: a message that it has taken, an
/// answer that it waits for, messages that it has to take, a session that is gone.
pub fn links_tell_what_is_kept()
    ensures took { (m : Message) (s upto : ℕ) (waits : Waits) (copies : Copies) → place_of (notice_of m) + 1 < 2 ^ 64 →
        kept_by (took m (Joined s upto waits)) copies
        ≡ Some (record { session = s; upto = bound (notice_of m); awaits = awaits_behind (notice_of m) (is_reply waits); copies = copies }) }
    ensures waiting { (s upto : ℕ) (waits what : Waits) (copies : Copies) →
        kept_by (waiting what (Joined s upto waits)) copies ≡ Some (record { session = s; upto = upto; awaits = is_reply what; copies = copies }) }
    ensures gone { (s upto : ℕ) (waits : Waits) (copies : Copies) → kept_by (without_session s (Joined s upto waits)) copies ≡ None }
{}

/// A link that fits what is seen of its repository fits what others make of it.
pub fn links_outlive_others()
    ensures { (c : ℕ) (b : Base) (committed : Ts → Bool) (link : Link) (copies : Copies) (u w : Unsettled) (T S : List Item) →
        Grew b c u T w S → exact b S → sound b (entries S) → ((s : ℕ) → Agrees b (entries S) s committed) →
        LinkFits c b u T committed link copies → LinkFits c b w S committed link copies }
{}

/// What a client's functions make of its copies by a message is what the law of messages asks for, where a page brings
/// what stood there.
pub fn copies_become_what_messages_bring()
    ensures { (b : Base) (H : List Entry) (objects : ℕ → Option Obj) (m : Message) (old new : Copies) →
        BringsContent b H objects m → Becomes b.repo objects m old new → SameCopies b new (behind_message b H (notice_of m) old) }
{}
