//! That what a client over several repositories has prepared is settled before it fetches and commits.

ghost use Rattle.law_atomic_commit.specs.Several.{committed};
ghost use Rattle.law_cache_coherence.specs.Doomed.{ActsWithin, IsQuiet};
ghost use Rattle.law_cache_coherence.specs.Steps.{AllSeenRight};
ghost use Rattle.client_state.specs.Calling.{is_session_of};
ghost use Rattle.client_state.specs.Moving.{Moves};
ghost use Rattle.client_state.specs.declared.held.Held.{Held};
ghost use Rattle.client_state.specs.declared.link.Link.{Link};
ghost use Rattle.law_client_steps.specs.Acting.{acts_of};
ghost use Rattle.law_client_steps.specs.Owed.{SettledOwed};
ghost use Rattle.law_client_steps.specs.Quiet.{AreQuiet, IsHandedOn};
ghost use Rattle.spec_history.specs.History.{known_by};
ghost use Rattle.client_port.specs.Growing.{Grew};
ghost use Rattle.client_port.specs.Views.{Calm, View};
ghost use Rattle.client_port.specs.Works.{is_prepared_by};
ghost use Rattle.law_client_views.specs.Conditions.{seen_histories};
ghost use Rattle.spec_trace.specs.Trace.{entries};
ghost use Rattle.spec_trace.specs.Notices.{lives};
ghost use Rattle.spec_trace.specs.Session.{session};
ghost use Rattle.std.specs.List.{slice_get};
ghost use Rattle.std.specs.Prelude.{Bool, List, false, true, ℕ, ◌<◌, ◌≡◌, ◌⊎◌};
ghost use Rattle.thor_value.specs.declared.names.Ts.{Ts};

/// A client's sessions are quiet behind each of its steps, with what is running, where it prepares and decides to commit only that;
/// and so they are whatever others do between. So while each of its transactions commits at one repository, nothing runs.
/// What is undecided in none of its sessions any more needn't be counted among what is running: that is asked of sessions that
/// are live where nothing is unsettled.
pub fn links_stay_quiet()
    ensures step { (old new : View) (before after : Held) (running known : Ts → Bool) (moves : Moves old new before after) → ActsWithin old new (acts_of old new before after moves) running → AllSeenRight new known →
        before.client ≡ old.opened.client → new.opened ≡ old.opened → AreQuiet old before.links.items running → AreQuiet new after.links.items running }
    ensures waits { (old new : View) (links : List Link) (running known : Ts → Bool) → new.opened ≡ old.opened → ((n : ℕ) → n < old.opened.repos → Grew (old.opened.base n) old.opened.client (old.unsettled n) (old.seen n) (new.unsettled n) (new.seen n)) →
        AllSeenRight new known → AreQuiet old links running → AreQuiet new links running }
    ensures ended { (port : View) (links : List Link) (running next : Ts → Bool) →
        ((r s : ℕ) → r < port.opened.repos → is_session_of s (slice_get links r) ≡ true → port.unsettled r ≡ Calm →
        lives (session (port.opened.base r) (port.seen r) s) ≡ true → (t : Ts) → running t ≡ true → (next t ≡ true) ⊎ (is_prepared_by s (known_by (port.opened.base r) (entries (port.seen r)) t) ≡ false)) →
        AreQuiet port links running → AreQuiet port links next }
{}

/// What the laws of steps ask before a fetch (`SettledOwed`) holds of a quiet session where what is running is handed on, and only what
/// is seen to have committed at its coordinator is told to have. Where nothing runs that is so.
pub fn handed_on_is_settled()
    ensures nothing { (port : View) (r s : ℕ) (told : Ts → Bool) → IsQuiet port r s (λ t. false) →
        ((t : Ts) → told t ≡ true → committed (seen_histories port) t ≡ true) → SettledOwed port r (port.seen r) s told }
    ensures running { (port : View) (r s : ℕ) (running told : Ts → Bool) → IsQuiet port r s running → IsHandedOn (port.opened.base r) (entries (port.seen r)) s running →
        ((t : Ts) → told t ≡ true → committed (seen_histories port) t ≡ true) → SettledOwed port r (port.seen r) s told }
{}
