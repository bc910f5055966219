//! How messages are taken, and what they make of the copies.

ghost use Rattle.client_state.specs.Calling.{CopiesStay};
ghost use Rattle.client_state.specs.Learning.{KeepsBounds};
ghost use Rattle.client_state.specs.Links.{at_repo};
ghost use Rattle.client_state.specs.Taking.{Without, WrittenWithout, next_place, links_behind, took};
ghost use Rattle.client_state.specs.Writing.{WritesStay};
ghost use Rattle.client_port.specs.Works.{Does, ReceiveWork};
ghost use Rattle.std.specs.Prelude.{true, ◌≡◌};

use crate::held::Held;
use crate::link::Link;
use client_port::Port;
use repo_refusals::Refusal;
use session_outbox::{At, Message};
use thor_value::Orefs;

/// The place behind the entry at a place.
fn behind(place: u64) -> u64
    ensures { result ≡ next_place place }
{
    place.saturating_add(1)
}

impl Link {
    /// A message was taken in the session.
    fn take(&mut self, message: &Message)
        ensures { self.new ≡ took message.now self.old }
    {
        match message {
            Message::Page { place, .. } | Message::Grant { place, .. } => {
                self.acknowledge(*place);
                self.answer();
            }
            Message::Invalid { place, .. } | Message::Upgrade { place, .. } => {
                self.acknowledge(behind(*place));
            }
        }
    }
}

impl Held {
    /// Takes the oldest message of a session. A message that came is acknowledged behind it; where none
    /// came nothing changes. A reply is outstanding no more once it has come.
    pub fn receive<Q: Port>(&mut self, port: &mut Q, at: At) -> Result<Option<Message>, Refusal>
        ensures call { Q.shows ≡ true → Does (Q.view port.old) (Q.view port.new) at.repo result (ReceiveWork at.session result) }
        ensures links { self.new.links.items ≡ links_behind result at.repo self.old.links.items }
        ensures rest { self.new ≡ record self.old { links = self.new.links } }
    {
        match port.receive(at) {
            Ok(Some(message)) => {
                self.note_taken(at.repo, &message);
                Ok(Some(message))
            }
            Ok(None) => Ok(None),
            Err(refusal) => Err(refusal),
        }
    }

    /// A message of a repository was taken.
    fn note_taken(&mut self, repo: u8, message: &Message)
        ensures links { self.new.links.items ≡ at_repo self.old.links.items repo (took message.now) }
        ensures rest { self.new ≡ record self.old { links = self.new.links } }
    {
        if let Some(link) = self.links.get_mut(usize::from(repo)) {
            link.take(message);
        }
    }

    /// Objects were written by others: their copies are dropped, and no others.
    pub fn drop_copies(&mut self, orefs: &Orefs)
        ensures copies { Without orefs.now self.old.cache.cache self.new.cache.cache }
        ensures writes { WritesStay self.old.cache.cache self.new.cache.cache }
        ensures links { self.new.links ≡ self.old.links }
        ensures client { self.new.client ≡ self.old.client }
        ensures bounds { KeepsBounds self.old self.new }
    {
        self.cache.invalidate(orefs);
    }

    /// Objects were written by others behind what was sent of the try's transaction: what the try has written of them is
    /// given up, and nothing else.
    pub fn drop_written(&mut self, orefs: &Orefs)
        ensures copies { CopiesStay self.old.cache.cache self.new.cache.cache }
        ensures written { WrittenWithout orefs.now self.old.cache.cache self.new.cache.cache }
        ensures links { self.new.links ≡ self.old.links }
        ensures client { self.new.client ≡ self.old.client }
        ensures bounds { KeepsBounds self.old self.new }
    {
        self.cache.invalidate_written(orefs);
    }
}
