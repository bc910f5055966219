//! What is proved of traces whose items are exact.

ghost use Rattle.log_entries.specs.declared.entry.Entry.TheVariants.{One, Prepared, Upgraded};
ghost use Rattle.log_entries.specs.declared.request.Request.{Request};
ghost use Rattle.spec_history.specs.History.{Base, state};
ghost use Rattle.spec_history.specs.Opening.{IsBase};
ghost use Rattle.spec_history.specs.Participants.{IsAlone, IsShared};
ghost use Rattle.spec_history.specs.Requests.{is_upgrade};
ghost use Rattle.spec_history.specs.Sound.{Vouches, sound};
ghost use Rattle.spec_trace.specs.Calls.{last_session, next_page, was_granted};
ghost use Rattle.spec_trace.specs.Exact.{ComesFromSession, ItemIsExact, exact};
ghost use Rattle.spec_trace.specs.Session.{Session, session, session_lives};
ghost use Rattle.spec_trace.specs.Sessions.{AnswersAgree, IsGoneBy, PagesAreGranted, SessionsAreNumbered};
ghost use Rattle.spec_trace.specs.Trace.{E, Item, M, entries};
ghost use Rattle.spec_trace.specs.declared.mark.Mark.TheVariants as the;
ghost use Rattle.std.specs.List.{slice_get};
ghost use Rattle.std.specs.Prelude.{IsTrue, List, Some, [], ◌∷◌, ◌++◌, ℕ, ◌≡◌, ◌≤◌, ◌<◌, false, true};
ghost use Rattle.thor_value.specs.declared.names.Ts.{Ts};

/// A trace is exact where its beginning is and each further item owes what it owes.
pub fn exact_traces_grow()
    ensures beginning { (b : Base) (T more : List Item) → exact b (T ++ more) → exact b T }
    ensures owed { (b : Base) (T : List Item) (i : Item) → exact b (T ++ i ∷ []) → ItemIsExact b T i }
    ensures grown { (b : Base) (T : List Item) (i : Item) → exact b T → ItemIsExact b T i →
        exact b (T ++ i ∷ []) }
{}

/// A session has one number and one client, and one that is live has seen no Life.
pub fn sessions_are_numbered()
    ensures { (b : Base) (T : List Item) → exact b T → SessionsAreNumbered b T }
{}

/// A session that isn't live has ended by a Life or by a newer session of its client, or its client has left more news
/// unacknowledged than the base allows.
pub fn sessions_end_for_a_cause()
    ensures { (b : Base) (T : List Item) (s : ℕ) (v : Session) → exact b T → session b T s ≡ Some v →
        session_lives v ≡ false → IsGoneBy b T s v }
{}

/// The numbers that are given next don't fall, and a granted page is below the next one.
pub fn next_numbers_rise()
    ensures sessions { (T more : List Item) → last_session T ≤ last_session (T ++ more) }
    ensures pages { (b : Base) (T more : List Item) → next_page b T ≤ next_page b (T ++ more) }
    ensures base { (b : Base) (T : List Item) → b.next_page ≤ next_page b T }
    ensures granted { (b : Base) (T : List Item) (s page : ℕ) → IsTrue (was_granted T s page) → page < next_page b T }
{}

/// Each object that stands or was written is on a page below the next one.
pub fn pages_are_granted()
    ensures { (b : Base) (T : List Item) → IsBase b → sound b (entries T) → exact b T → PagesAreGranted b T }
{}

/// A timestamp is drawn once.
pub fn stamps_are_drawn_once()
    ensures { (b : Base) (T : List Item) → sound b (entries T) → exact b T → (m n r s : ℕ) (t : Ts) →
        slice_get T m ≡ Some (M (the.Drew r t)) → slice_get T n ≡ Some (M (the.Drew s t)) → m ≡ n }
{}

/// What a coordinator answers about a transaction agrees with its history.
pub fn answers_agree()
    ensures { (b : Base) (T : List Item) (t : Ts) → sound b (entries T) → AnswersAgree b T t }
{}

/// A request that comes from its client's live session and was accepted, and for which its sender
/// vouches, is a sound and exact entry.
pub fn accepted_requests_continue()
    ensures prepared { (b : Base) (T : List Item) (q : Request) → sound b (entries T) → exact b T →
        Vouches b (state b (entries T)) q → ComesFromSession b T q → IsShared q →
        sound b (entries (T ++ E (Prepared q) ∷ [])) × exact b (T ++ E (Prepared q) ∷ []) }
    ensures one { (b : Base) (T : List Item) (q : Request) → sound b (entries T) → exact b T →
        Vouches b (state b (entries T)) q → ComesFromSession b T q → IsAlone b q → is_upgrade q ≡ false →
        sound b (entries (T ++ E (One q) ∷ [])) × exact b (T ++ E (One q) ∷ []) }
    ensures upgraded { (b : Base) (T : List Item) (q : Request) → sound b (entries T) → exact b T →
        Vouches b (state b (entries T)) q → ComesFromSession b T q → IsAlone b q → is_upgrade q ≡ true →
        sound b (entries (T ++ E (Upgraded q) ∷ [])) × exact b (T ++ E (Upgraded q) ∷ []) }
{}
