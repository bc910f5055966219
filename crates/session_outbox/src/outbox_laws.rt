//! What is proved of an outbox over any sequence of calls.

ghost use Rattle.session_outbox.specs.Calls.{Call, after, pushed, taken};
ghost use Rattle.session_outbox.specs.Messages.{NeverFall, place_of};
ghost use Rattle.session_outbox.specs.Outbox.{Waiting, waiting};
ghost use Rattle.std.specs.Prelude.{List, map, ℕ, ◌++◌, ◌≡◌};
ghost use Rattle.thor_value.specs.FiniteMap.{empty};

/// For each session, what was taken and what waits is, in order, what was pushed. So the places of what
/// is taken never fall, where those of what is pushed don't.
pub fn messages_come_in_order()
    ensures order { (calls : List Call) (s : ℕ) →
        taken s empty calls ++ waiting (after empty calls) s ≡ pushed s calls }
    ensures places { (calls : List Call) (s : ℕ) →
        NeverFall (map place_of (pushed s calls)) → NeverFall (map place_of (taken s empty calls)) }
{}
