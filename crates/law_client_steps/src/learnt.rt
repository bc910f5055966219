//! That a client doesn't forget what it was told by refusals.

ghost use Rattle.client_state.specs.Calling.{DrawsAbove};
ghost use Rattle.client_state.specs.Learning.{Rises, floor_learnt};
ghost use Rattle.client_state.specs.declared.calls.Drew.TheVariants as drew;
ghost use Rattle.client_state.specs.declared.calls.Drew.{Drew};
ghost use Rattle.client_state.specs.declared.held.Held.{Held};
ghost use Rattle.client_state.specs.declared.link.Link.{Link};
ghost use Rattle.law_client_steps.specs.Lost.{AllRise};
ghost use Rattle.session_outbox.specs.declared.answers.At.{At};
ghost use Rattle.client_port.specs.Views.{View};
ghost use Rattle.base_reasons.specs.declared.reason.Reason.TheVariants as reasons;
ghost use Rattle.std.specs.Prelude.{List, Ok, Result, true, ℕ, ◌<◌, ◌≡◌};
ghost use Rattle.thor_value.specs.declared.memory.NoMemory.{NoMemory};
ghost use Rattle.thor_value.specs.declared.names.Oref.{Oref};
ghost use Rattle.thor_value.specs.declared.names.Ts.{Ts};
ghost use Rattle.repo_refusals.specs.declared.refusal.Refusal.TheVariants as refused;

/// Through whatever steps the time above which a client draws never falls, nor the epoch that it has learnt of, where neither falls at
/// one of them. So what it draws later is above the threshold and above the other transaction for which a request of it was refused.
pub fn what_is_learnt_stays()
    ensures bounds { (a z : Held) (between : List Held) → AllRise a between z → Rises a z }
    ensures too_old { (a z : Held) (between : List Held) (before : ℕ) (threshold : Ts) → AllRise a between z → a.floor ≡ floor_learnt (refused.Reason (reasons.TooOld threshold)) before →
        (old new : View) (at : At) (links : List Link) (answer : Result Drew NoMemory) (t : Ts) → DrawsAbove true old new at z.floor links answer → answer ≡ Ok (drew.Ts t) → threshold.time < t.time }
    ensures later { (a z : Held) (between : List Held) (before : ℕ) (other : Ts) (x : Oref) → AllRise a between z → a.floor ≡ floor_learnt (refused.Reason (reasons.Later other x)) before →
        (old new : View) (at : At) (links : List Link) (answer : Result Drew NoMemory) (t : Ts) → DrawsAbove true old new at z.floor links answer → answer ≡ Ok (drew.Ts t) → other.time < t.time }
{}
