//! That a client isn't in a session again that it has lost.

ghost use Rattle.client_state.specs.Calling.{is_session_of};
ghost use Rattle.client_state.specs.Moving.{Learns, Loses};
ghost use Rattle.client_state.specs.declared.held.Held.{Held};
ghost use Rattle.law_client_steps.specs.Lost.{HasLost};
ghost use Rattle.law_client_steps.specs.Runs.{Leads, Moment};
ghost use Rattle.base_reasons.specs.declared.reason.Reason.TheVariants as reasons;
ghost use Rattle.std.specs.List.{slice_get};
ghost use Rattle.std.specs.Prelude.{List, false, ℕ, ◌<◌, ◌≡◌};
ghost use Rattle.repo_refusals.specs.declared.refusal.Refusal.TheVariants as refused;

/// A client whose call is refused since its session is gone isn't in it any more. From then on, through whatever steps, it is in
/// that session never again: what it sends by a link's session goes out by another.
pub fn lost_sessions_stay_lost()
    ensures request { (before after : Held) (r s : ℕ) → Learns (refused.Reason (reasons.Gone s)) r before after → is_session_of s (slice_get after.links.items r) ≡ false }
    ensures call { (before after : Held) (r s : ℕ) → Loses (refused.Reason (reasons.Gone s)) r before after → is_session_of s (slice_get after.links.items r) ≡ false }
    ensures ever { (a z : Moment) (between : List Moment) (r s : ℕ) → Leads a between z → r < a.port.opened.repos → HasLost r s a → HasLost r s z }
{}
