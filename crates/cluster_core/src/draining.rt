//! What comes behind the last event.

ghost use Rattle.cluster_core.specs.Counts.{parts_of, steps_of};
ghost use Rattle.cluster_port.specs.Lent.{AreInPlace};
ghost use Rattle.front_end.specs.declared.front_end.Step.TheVariants as step;
ghost use Rattle.std.specs.Prelude.{◌≡◌, ◌<◌, Ok, true, vec_len};

use crate::cluster::Cluster;
use crate::events::unless_memory;
use crate::turning::Turn;
use cluster_port::{Opening, Site, events};
use disk_trait::Parts;
use front_end::Step;
use outside::Gate;
use thor_value::NoMemory;

impl<P: Parts, O: Opening> Cluster<P, O> {
    /// Has every item end: stops that haven't fallen are taken back, each repository that is down is restarted
    /// once, and the clients take steps in turn until no item is left. Then each Unknown item is asked for once. The gate is
    /// told of the items that end.
    pub fn drain<G: Gate>(&mut self, gate: &G) -> Result<(), NoMemory>
        ensures { parts_of self.new ≡ parts_of self.old }
    {
        self.bring_repositories_up()?;
        self.rounds(gate)?;
        for place in 0..self.clients.len() {
            self.ask_last(place)?;
        }
        Ok(())
    }

    /// Takes back stops that haven't fallen, and restarts each repository that is down. That is what `drain` does first.
    pub fn bring_repositories_up(&mut self) -> Result<(), NoMemory>
        ensures { parts_of self.new ≡ parts_of self.old }
    {
        bring_all_up(&mut self.sites)
    }

    /// Has the client at a place take a step, as `drain` does in rounds; one that isn't there has nothing to do.
    pub fn step(&mut self, place: usize) -> Result<Step, NoMemory>
        ensures seats { parts_of self.new ≡ parts_of self.old }
        ensures moved { result ≡ Ok step.Moved → steps_of self.new < steps_of self.old }
        ensures ended { result ≡ Ok step.Ended → steps_of self.new ≡ steps_of self.old }
    {
        self.turn(place, Turn::Step)
    }

    /// Has the client at a place ask for each of its Unknown items, as `drain` does last; one that isn't there has nothing to do.
    pub fn ask_last(&mut self, place: usize) -> Result<(), NoMemory>
        ensures { parts_of self.new ≡ parts_of self.old }
    {
        self.turn(place, Turn::Last)?;
        Ok(())
    }

    /// The clients take steps in turn until no item is left. What is left for them falls with each round.
    fn rounds<G: Gate>(&mut self, gate: &G) -> Result<(), NoMemory>
        ensures { parts_of self.new ≡ parts_of self.old }
    {
        while self.told_round(gate)? {}
        Ok(())
    }

    /// The same as `round`, and the gate is told how many items ended by it.
    fn told_round<G: Gate>(&mut self, gate: &G) -> Result<bool, NoMemory>
        ensures parts { parts_of self.new ≡ parts_of self.old }
        ensures falls { result ≡ Ok true → steps_of self.new < steps_of self.old }
    {
        let before = self.ended_count();
        let moved = self.round()?;
        gate.end_items(self.ended_count().saturating_sub(before));
        Ok(moved)
    }

    /// Each client takes one step. It answers whether one of them had items left: then fewer steps are left.
    fn round(&mut self) -> Result<bool, NoMemory>
        ensures parts { parts_of self.new ≡ parts_of self.old }
        ensures falls { result ≡ Ok true → steps_of self.new < steps_of self.old }
    {
        let mut moved = false;
        for place in 0..self.clients.len() {
            match self.step(place)? {
                Step::Moved => moved = true,
                Step::Ended => {}
            }
        }
        Ok(moved)
    }
}

/// Takes back stops that haven't fallen, and restarts each repository that is down.
fn bring_all_up<P: Parts, O: Opening>(sites: &mut Vec<Site<P, O>>) -> Result<(), NoMemory>
    requires { AreInPlace sites.old.items }
    ensures placed { AreInPlace sites.new.items }
    ensures count { vec_len sites.new ≡ vec_len sites.old }
{
    disarm_all(sites);
    bring_each_up(sites)
}

/// Takes back stops that haven't fallen.
fn disarm_all<P: Parts, O: Opening>(sites: &mut Vec<Site<P, O>>)
    requires { AreInPlace sites.old.items }
    ensures placed { AreInPlace sites.new.items }
    ensures count { vec_len sites.new ≡ vec_len sites.old }
{
    for place in 0..sites.len() {
        events::disarm(sites, place);
    }
}

/// Restarts each repository that is down.
fn bring_each_up<P: Parts, O: Opening>(sites: &mut Vec<Site<P, O>>) -> Result<(), NoMemory>
    requires { AreInPlace sites.old.items }
    ensures placed { AreInPlace sites.new.items }
    ensures count { vec_len sites.new ≡ vec_len sites.old }
{
    for place in 0..sites.len() {
        unless_memory(events::bring_up(sites, place))?;
    }
    Ok(())
}
