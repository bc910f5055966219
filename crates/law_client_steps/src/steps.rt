//! That each step of a client leaves it fitting.

ghost use Rattle.law_cache_coherence.specs.Steps.{AllSeenRight};
ghost use Rattle.law_cache_coherence.specs.Verdicts.{OutcomesTold};
ghost use Rattle.client_state.specs.declared.held.Held.{Held};
ghost use Rattle.client_state.specs.Moving.{Moves};
ghost use Rattle.law_client_steps.specs.Owed.{ClientFits, Owed, verdict_of};
ghost use Rattle.client_port.specs.Views.{View};
ghost use Rattle.std.specs.Prelude.{Bool};
ghost use Rattle.thor_value.specs.declared.names.Ts.{Ts};

/// A client that fits with all that it holds fits so behind a step, whichever call it makes, however that is answered, and
/// whatever others do meanwhile, where what is seen then is right. What it can't know by itself is asked by `Owed`: that
/// what was decided has been handed on before it fetches and commits, that what it prepares isn't decided, and that a page
/// brings what stood at its place.
pub fn moving_clients_fit()
    ensures { (old new : View) (before after : Held) (committed later : Ts → Bool) (moves : Moves old new before after) →
        Owed old new before after committed later moves → OutcomesTold old before.links.items (verdict_of old new before after moves) committed later →
        AllSeenRight new later → ClientFits old committed before → ClientFits new later after }
{}
