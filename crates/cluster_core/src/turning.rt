//! A turn of a client.

ghost use Rattle.cluster_core.specs.Counts.{clients_of, steps_of};
ghost use Rattle.cluster_core.specs.Happening.{HasEnded, StepsAt};
ghost use Rattle.cluster_core.specs.declared.turning.Turn.TheVariants as turns;
ghost use Rattle.cluster_port.specs.Lent.{AreInPlace};
ghost use Rattle.front_end.specs.Moving.{steps_left};
ghost use Rattle.front_end.specs.declared.front_end.Step.TheVariants as step;
ghost use Rattle.std.specs.Prelude.{Ok, OnOk, vec_len, ◌<◌, ◌≡◌};

use crate::cluster::Cluster;
use client_port::Port;
use cluster_port::{Count, LentSites, Opening, Site};
use disk_trait::Parts;
use front_end::{FrontEnd, Opened, Step};
use repo_opening::number_at;
use std::marker::Brand;
use std::mem;
use thor_value::NoMemory;

/// What a client does while the repositories are lent to it.
#[derive(Clone, Copy)]
pub(crate) enum Turn {
    /// It takes a step.
    Step,
    /// It takes a message of a repository.
    Deliver { repo: u8 },
    /// It asks for each Unknown item.
    Last,
}

impl<P: Parts, O: Opening> Cluster<P, O> {
    /// Has the client at a place take a turn; one that isn't there has nothing to do.
    pub(crate) fn turn(&mut self, place: usize, turn: Turn) -> Result<Step, NoMemory>
        ensures seats { vec_len self.new.sites ≡ vec_len self.old.sites }
        ensures moved { turn ≡ turns.Step → result ≡ Ok step.Moved → steps_of self.new < steps_of self.old }
        ensures ended { result ≡ Ok step.Ended → steps_of self.new ≡ steps_of self.old }
        ensures steps { turn ≡ turns.Step → OnOk result (StepsAt place (clients_of self.old) (clients_of self.new)) }
    {
        match self.clients.get_mut(place) {
            Some(client) => {
                let sites = mem::replace(&mut self.sites, Vec::new(self.alloc));
                let (sites, answer) = lend::<P, O, Brand>(sites, place, client, &self.opened, turn);
                drop(mem::replace(&mut self.sites, sites));
                answer
            }
            None => Ok(Step::Ended),
        }
    }
}

/// Lends the repositories to the client at a place for a turn. They come back, as many as there were.
fn lend<P: Parts, O: Opening, N: Count>(
    sites: Vec<Site<P, O>>,
    place: usize,
    client: &mut FrontEnd,
    opened: &Opened,
    turn: Turn,
) -> (Vec<Site<P, O>>, Result<Step, NoMemory>)
    requires placed { AreInPlace sites.items }
    requires count { vec_len sites ≡ N.count }
    ensures placed { AreInPlace result.0.items }
    ensures count { vec_len result.0 ≡ N.count }
    ensures moved { turn ≡ turns.Step → result.1 ≡ Ok step.Moved → steps_left client.new < steps_left client.old }
    ensures ended { result.1 ≡ Ok step.Ended → client.new ≡ client.old }
    ensures over { turn ≡ turns.Step → result.1 ≡ Ok step.Ended → HasEnded client.old }
{
    let mut lent: LentSites<P, O, N> = LentSites::new(number_of(place), sites);
    let answer = take_turn(client, &mut lent, opened, turn);
    (lent.into_sites(), answer)
}

/// The number of the client at a place: they are counted from 1.
fn number_of(place: usize) -> u8 {
    match number_at(place) {
        Ok(others) => others.saturating_add(1),
        Err(NoMemory) => u8::MAX,
    }
}

fn take_turn<Q: Port>(
    client: &mut FrontEnd,
    port: &mut Q,
    opened: &Opened,
    turn: Turn,
) -> Result<Step, NoMemory>
    ensures moved { turn ≡ turns.Step → result ≡ Ok step.Moved → steps_left client.new < steps_left client.old }
    ensures ended { result ≡ Ok step.Ended → client.new ≡ client.old }
    ensures over { turn ≡ turns.Step → result ≡ Ok step.Ended → HasEnded client.old }
{
    match turn {
        Turn::Step => client.step(port, opened),
        Turn::Deliver { repo } => {
            client.deliver(port, opened, repo)?;
            Ok(Step::Moved)
        }
        Turn::Last => {
            client.last(port, opened)?;
            Ok(Step::Moved)
        }
    }
}
