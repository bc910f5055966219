//! Which rule a step follows.

ghost use Rattle.client_state.specs.Settling.{NewsAsSent};
ghost use Rattle.front_end.specs.Stepping.{ClientSteps, GoesOnBy, HelpsBy, RuleGoesOnBy, RuleHelpsBy};
ghost use Rattle.front_end.specs.Writing.{ClientWrites};
ghost use Rattle.client_state.specs.Learning.{Rises};
ghost use Rattle.client_state.specs.Links.{NoneAwaits};
ghost use Rattle.front_end.specs.Showing.{ShownIf};
ghost use Rattle.client_port.specs.Acting.{ActsIf};
ghost use Rattle.client_state.specs.Owing.{asking_in};
ghost use Rattle.front_end.specs.Rules.{Follows, MayFollow, NothingHoldsBack, asks, goes_on, hands_on};
ghost use Rattle.std.specs.Prelude.{IfOk, IsSome, length, max, true, ◌<◌, ◌≡◌};

use crate::client::Client;
use client_items::{News, Opened, Task};
use client_port::Port;
use client_state::{Helping, Phase};
use session_outbox::At;
use thor_value::NoMemory;

/// The rule that a step follows. They are tried in this order: the first three counted ones, the two that aren't
/// counted, and the last counted one.
#[derive(Clone, Copy)]
pub enum Rule {
    /// One whose calls are counted.
    Counted { rule: Counted },
    /// The client asks for its own transaction.
    Ask,
    /// A verdict is handed on.
    HandOn,
}

/// A rule whose calls are counted.
#[derive(Clone, Copy)]
pub enum Counted {
    /// A reply is outstanding in this session: a message is taken.
    Await { at: At },
    /// A message of this session is taken, to catch up with the repository.
    CatchUp { at: At },
    /// Another's transaction is helped on.
    Help { helping: Helping },
    /// The try goes on.
    GoOn,
}

impl Client {
    /// The rule that the next step follows.
    pub fn next_rule(&self, opened: &Opened) -> Rule
        ensures asks { asks result ≡ true → IsSome (asking_in self.now.phase) }
        ensures hands_on { hands_on result ≡ true → 0 < length self.now.duties.verdicts }
        ensures goes_on { goes_on result ≡ true → NothingHoldsBack (max opened.now.epoch self.now.held.learnt) self.now }
        ensures follows { Follows result self.now.held }
        ensures helps { RuleHelpsBy result self.now.duties.helping }
        ensures free { RuleGoesOnBy result self.now.duties }
    {
        if let Some(at) = self.held.awaited() {
            let rule = Counted::Await { at };
            return Rule::Counted { rule };
        }
        if let Some(at) = self.held.behind(opened) {
            let rule = Counted::CatchUp { at };
            return Rule::Counted { rule };
        }
        if let Some(helping) = self.duties.helping {
            let rule = Counted::Help { helping };
            return Rule::Counted { rule };
        }
        self.rule_behind()
    }

    /// The rule that is next where nothing holds a try back.
    fn rule_behind(&self) -> Rule
        ensures asks { asks result ≡ true → IsSome (asking_in self.now.phase) }
        ensures hands_on { hands_on result ≡ true → 0 < length self.now.duties.verdicts }
        ensures follows { NoneAwaits 8 self.now.held.links.items → Follows result self.now.held }
        ensures helps { RuleHelpsBy result self.now.duties.helping }
        ensures free { RuleGoesOnBy result self.now.duties }
    {
        if let Phase::Asking { .. } = &self.phase {
            return Rule::Ask;
        }
        if !self.duties.verdicts.is_empty() {
            return Rule::HandOn;
        }
        let rule = Counted::GoOn;
        Rule::Counted { rule }
    }

    /// Makes the call of a rule whose calls are counted.
    pub fn follow<Q: Port>(
        &mut self,
        port: &mut Q,
        opened: &Opened,
        task: Task<'_>,
        rule: Counted,
    ) -> Result<News, NoMemory>
        ensures acts { ActsIf Q.shows (Q.view port.old) (Q.view port.new) }
        ensures shown { ShownIf Q.shows (Q.view port.old) (Q.view port.new) opened.now.repos result }
        ensures moves { ClientWrites self.old → MayFollow rule self.old.held → HelpsBy rule self.old.duties.helping → GoesOnBy rule self.old.duties → IfOk result (ClientSteps Q.shows (record { who = task.entry.who; tries = task.entry.tries }) (Q.view port.old) (Q.view port.new) self.old self.new) }
        ensures as_sent { IfOk result (NewsAsSent self.old.held.links.items) }
        ensures writes { ClientWrites self.old → ClientWrites self.new }
        ensures rises { Rises self.old.held self.new.held }
    {
        match rule {
            Counted::Await { at } => self.await_reply(port, opened, at, task.what.is_some()),
            Counted::CatchUp { at } => self.catch_up(port, opened, at, task.what.is_some()),
            Counted::Help { helping } => self.help(port, opened, helping),
            Counted::GoOn => self.go_on(port, opened, task),
        }
    }
}
