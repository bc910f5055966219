//! What calls ask of what was read.

ghost use Rattle.spec_history.specs.History.{is_undecided, known_in};
ghost use Rattle.spec_trace.specs.Notices.{lives, is_unended};
ghost use Rattle.std.specs.List.{list_any, slice_get};
ghost use Rattle.std.specs.Option.{option_and_then, option_copied, option_map};
ghost use Rattle.std.specs.Prelude.{IfOk, length, ◌+◌, ◌≡◌};
ghost use Rattle.thor_value.specs.FiniteMap.{has, values};
ghost use Rattle.thor_value.specs.Names.{same_ts};
ghost use Rattle.model_reading.specs.Against.{first_sent, text_of_number};
ghost use Rattle.model_reading.specs.Opening.{base_of};
ghost use Rattle.model_reading.specs.Settling.{open_of};

use crate::notice::Notice;
use crate::opening::Opening;
use crate::reading::Reading;
use crate::state::Found;
use thor_value::{NoMemory, Text, Texts, TryCopy, Ts};

impl Reading {
    /// The number of the session that begins next. Want of memory, too, where no number is left.
    pub fn next_session(&self) -> Result<u32, NoMemory>
        ensures { IfOk result (λ n. n ≡ self.now.last_session + 1) }
    {
        if self.last_session == u32::MAX {
            return Err(NoMemory);
        }
        Ok(self.last_session + 1)
    }

    /// The least page that was never granted.
    pub fn next_page(&self) -> u64
        ensures { result ≡ self.now.next_page }
    {
        self.next_page
    }

    /// The time that was drawn last.
    pub fn drawn(&self) -> u64
        ensures { result ≡ self.now.drawn }
    {
        self.drawn
    }

    /// How many entries there are.
    pub fn count(&self) -> u64
        ensures { result ≡ self.now.state.length }
    {
        self.state.count()
    }

    /// The present life.
    pub fn life(&self) -> u32
        ensures { result ≡ self.now.state.life }
    {
        self.state.life()
    }

    /// How many upgrades are installed. Want of memory, too, where no number tells it.
    pub fn epoch(&self) -> Result<u32, NoMemory>
        ensures { IfOk result (λ n. n ≡ length self.now.state.texts) }
    {
        self.state.epoch()
    }

    /// The texts of the installed upgrades, in order.
    pub fn texts(&self) -> Result<Texts, NoMemory>
        ensures { IfOk result (λ texts. texts ≡ self.now.state.texts) }
    {
        self.state.texts().copy()
    }

    /// The text of an upgrade, by its number from 1; nothing where there is none.
    pub fn text(&self, number: u32) -> Result<Option<Text>, NoMemory>
        ensures { IfOk result (λ text. text ≡ text_of_number self.now.state number) }
    {
        let place = number.saturating_sub(1) as usize;
        match self.state.texts().get(place) {
            Some(text) => Ok(Some(text.copy()?)),
            None => Ok(None),
        }
    }

    /// The timestamp that requests have to be above.
    pub fn threshold(&self) -> Ts
        ensures { result ≡ self.now.window.threshold }
    {
        self.window.threshold()
    }

    /// Whether the session that was looked for is live.
    pub fn is_live(&self) -> bool
        ensures { result ≡ lives self.now.session }
    {
        match &self.session {
            Some(session) => session.is_live(),
            None => false,
        }
    }

    /// Whether the session that was looked for is there and hasn't ended. None is given up here, so it is live then.
    pub fn is_unended(&self) -> bool
        ensures { result ≡ is_unended self.now.session }
    {
        match &self.session {
            Some(session) => session.is_unended(),
            None => false,
        }
    }

    /// The message that waits first for that session.
    pub fn first_waiting(&self) -> Result<Option<&Notice>, NoMemory>
        ensures { IfOk result (λ first. option_copied first ≡ option_and_then first_sent self.now.session) }
    {
        match &self.session {
            Some(session) => session.first_waiting(),
            None => Ok(None),
        }
    }

    /// The place and the request of a transaction, where it is undecided.
    pub fn open_request(&self, opening: &Opening, tx: Ts) -> Result<Found, NoMemory>
        ensures { IfOk result (λ found. found ≡ open_of (known_in (base_of opening.now) self.now.state tx)) }
    {
        self.state.open_request(opening, tx)
    }

    /// Whether a transaction is undecided.
    pub fn is_undecided(&self, opening: &Opening, tx: Ts) -> bool
        ensures { result ≡ is_undecided (known_in (base_of opening.now) self.now.state tx) }
    {
        self.state.is_undecided(opening, tx)
    }

    /// Whether the decision to commit a transaction was made here.
    pub fn has_kept(&self, tx: Ts) -> bool
        ensures { result ≡ has self.now.state.kept tx }
    {
        self.state.has_kept(tx)
    }

    /// Whether a transaction is the last one of a client that committed here alone.
    pub fn is_alone(&self, tx: Ts) -> bool
        ensures { result ≡ list_any (same_ts tx) (values self.now.state.alone) }
    {
        self.state.is_alone(tx)
    }
}
