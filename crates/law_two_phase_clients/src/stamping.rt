//! That a timestamp is of one transaction.

ghost use Rattle.client_items.specs.declared.news.News.{News};
ghost use Rattle.client_port.specs.Views.{View};
ghost use Rattle.client_state.specs.Drawing.{DrawsSo};
ghost use Rattle.client_state.specs.Moving.{Moves};
ghost use Rattle.client_state.specs.Pending.{Pending};
ghost use Rattle.client_state.specs.Stepping.{Present, TriesSo};
ghost use Rattle.client_state.specs.declared.held.Held.{Held};
ghost use Rattle.law_two_phase_clients.specs.Stamping.{AreSeen, DrawnStands, GoesOut, SeesMore, WasDrawn};
ghost use Rattle.std.specs.Prelude.{None, Option, Some, ◌≡◌};
ghost use Rattle.thor_value.specs.declared.names.Ts.{Ts};

/// The first request of a transaction goes out only under the timestamp that is drawn for it, and nothing is drawn behind that. What was drawn once isn't
/// drawn again, unless it is still drawn. So one transaction goes out under a timestamp, and once.
pub fn timestamps_go_out_once()
    ensures goes { (item : Present) (old new : View) (before after : Held) (n : Moves old new before after) (a z : Pending) (came : News) (tries : TriesSo item old new before after n a z came) (drawn left : Option Ts) →
        DrawsSo item old new before after n a z came tries drawn left → (t : Ts) → GoesOut item old new before after n a z came tries t → (drawn ≡ Some t) × (left ≡ None) }
    ensures once { (item : Present) (old new : View) (before after : Held) (n : Moves old new before after) (a z : Pending) (came : News) (tries : TriesSo item old new before after n a z came) (drawn left : Option Ts) →
        DrawsSo item old new before after n a z came tries drawn left → AreSeen new → (t : Ts) → WasDrawn old t → (drawn ≡ Some t → ⊥) → left ≡ Some t → ⊥ }
    ensures stands { (item : Present) (old new : View) (before after : Held) (n : Moves old new before after) (a z : Pending) (came : News) (tries : TriesSo item old new before after n a z came) (drawn left : Option Ts) →
        DrawsSo item old new before after n a z came tries drawn left → AreSeen new → SeesMore old new → DrawnStands old drawn → DrawnStands new left }
    ensures stays { (old new : View) (t : Ts) → SeesMore old new → WasDrawn old t → WasDrawn new t }
{}
