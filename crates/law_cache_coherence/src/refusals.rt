//! What a refusal shows of the repository that gave it, and that what is drawn is above what a client was told.

ghost use Rattle.law_cache_coherence.specs.Refusing.{IsReasonSeen, IsWriteSeen};
ghost use Rattle.client_state.specs.Calling.{DrawsAbove};
ghost use Rattle.client_state.specs.Links.{unsettled_time};
ghost use Rattle.client_state.specs.declared.calls.Drew.TheVariants as drew;
ghost use Rattle.client_state.specs.declared.calls.Drew.{Drew};
ghost use Rattle.client_state.specs.declared.link.Link.{Link};
ghost use Rattle.session_outbox.specs.declared.answers.At.{At};
ghost use Rattle.session_outbox.specs.declared.message.Message.TheVariants as message;
ghost use Rattle.client_port.specs.Acting.{IsTaken, Refuses};
ghost use Rattle.client_port.specs.Views.{View};
ghost use Rattle.base_reasons.specs.declared.reason.Reason.{Reason};
ghost use Rattle.std.specs.List.{list_any};
ghost use Rattle.std.specs.Prelude.{List, Ok, Result, Some, slice_get, true, ℕ, ◌<◌, ◌≡◌};
ghost use Rattle.thor_value.specs.declared.memory.NoMemory.{NoMemory};
ghost use Rattle.thor_value.specs.Names.{same_oref};
ghost use Rattle.thor_value.specs.declared.names.Oref.{Oref};
ghost use Rattle.thor_value.specs.declared.names.Ts.{Ts};
ghost use Rattle.repo_refusals.specs.declared.refusal.Refusal.TheVariants as refused;

/// A repository in order refuses a client's call only for a reason that holds of its trace at the call.
pub fn refusals_are_exact()
    ensures { (old new : View) (r : ℕ) (reason : Reason) → Refuses old new r (refused.Reason reason) → IsReasonSeen old new r reason }
{}

/// A timestamp that a client draws is above the floor that it had, so above each threshold and each timestamp that it was
/// told by a refusal (`learn` of `client_state` raises the floor, and nothing lets it fall), and above each of its transactions
/// whose verdict it has still to learn.
pub fn drawn_timestamps_are_above()
    ensures drawn { (old new : View) (at : At) (least : ℕ) (links : List Link) (answer : Result Drew NoMemory) (d : DrawsAbove true old new at least links answer) (t : Ts) → d.result ≡ Ok t → least < t.time }
    ensures told { (old new : View) (at : At) (least : ℕ) (links : List Link) (answer : Result Drew NoMemory) (d : DrawsAbove true old new at least links answer) (t : Ts) → answer ≡ Ok (drew.Ts t) → least < t.time }
    ensures unsettled { (old new : View) (at : At) (least : ℕ) (links : List Link) (answer : Result Drew NoMemory) (d : DrawsAbove true old new at least links answer) (t : Ts) → answer ≡ Ok (drew.Ts t) → (r : ℕ) (l : Link) → slice_get links r ≡ Some l → unsettled_time l < t.time }
{}

/// A message that names an object as invalid tells that a commit of another session wrote it at the message's place.
pub fn taken_names_were_written()
    ensures { (old new : View) (r : ℕ) (names : List Oref) (k : ℕ) → IsTaken old new r (message.Invalid names k) → (x : Oref) → list_any (same_oref x) names ≡ true → IsWriteSeen old new r x k }
{}
