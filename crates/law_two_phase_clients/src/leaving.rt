//! That what is left to be sent of a try's transaction is what the try has written.

ghost use Rattle.client_cache.specs.Copies.{Contents, changed};
ghost use Rattle.client_items.specs.declared.news.News.{News};
ghost use Rattle.client_port.specs.Views.{View};
ghost use Rattle.client_state.specs.Calling.{is_session_of};
ghost use Rattle.client_state.specs.Drawing.{DrawsSo};
ghost use Rattle.client_state.specs.Pending.{Pending};
ghost use Rattle.client_state.specs.Stepping.{Present, SendsMore, StepsSo};
ghost use Rattle.client_state.specs.Written.{WhileUndecided, WritesSo};
ghost use Rattle.client_state.specs.declared.duties.Duties.{Duties};
ghost use Rattle.client_state.specs.declared.held.Held.{Held};
ghost use Rattle.client_state.specs.declared.link.Link.{Link};
ghost use Rattle.client_state.specs.declared.requests.Sending.{Sending};
ghost use Rattle.client_state.specs.declared.transaction.Transaction.{Transaction};
ghost use Rattle.law_two_phase_clients.specs.Leaving.{EndsRefused, LeftWritten, TakesThere};
ghost use Rattle.paused_eval.specs.Copies.{last_of};
ghost use Rattle.session_outbox.specs.declared.answers.At.{At};
ghost use Rattle.std.specs.Prelude.{List, Option, slice_get, true, ℕ, ◌≡◌};
ghost use Rattle.thor_value.specs.declared.names.Oref.{Oref};
ghost use Rattle.thor_value.specs.declared.names.Ts.{Ts};

/// While shares of a try's transaction are left to be sent, the try has written what they write, wherever the session is still there in which they were drawn:
/// through messages, lost sessions and whatever else comes between. So a request to a further participant writes what the try has written there.
pub fn later_shares_were_written()
    ensures stays { (item : Present) (old new : View) (before after : Held) (a z : Pending) (d e : Duties) (came : News) → (step : StepsSo item old new before after a z d e came) → (drawn now : Option Ts) →
        DrawsSo item old new before after step.moves a z came step.tries drawn now → WhileUndecided z (WritesSo old new before after step.moves a) → TakesThere old new before after step.moves → EndsRefused old new before after step.moves z →
        LeftWritten a before.links.items before.cache.cache → LeftWritten z after.links.items after.cache.cache }
    ensures sends { (item : Present) (links : List Link) (c : Contents) (a : Pending) (s : Sending) (at : At) (rs : List ℕ) (left : Transaction) → SendsMore item links a s at rs left →
        LeftWritten a links c → is_session_of s.at.session (slice_get links s.at.repo) ≡ true → (x : Oref) → x.repo ≡ s.at.repo → changed c x ≡ last_of s.request.writes x }
{}
