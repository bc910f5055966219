//! The table of pairs.

ghost use Rattle.link_table.specs.Pairs.{first, is_linked, lefts, link, next, rights, unlink, unlink_left};
ghost use Rattle.std.specs.List.{IsDistinct, last_or};
ghost use Rattle.std.specs.Prelude.{IfOk, List, None, Ok, OnErr, OnOk, [], cond, length, nat_eq, not, ℕ, ◌++◌, ◌+◌, ◌<◌, ◌≡◌};

use crate::ends::first_of;
use crate::table::Table;
use std::alloc::Global;
use std::marker::{Brand, Model};
use std::sync::ledger::{Blank, Ledger};
use thor_value::{NoMemory, StepCount};

/// A relation of pairs of numbers, a left with a right. Contracts see it as the list of its pairs, in
/// the order in which they were linked; the rights of a left and the lefts of a right are walked in
/// that order. No call but `link` takes memory, and none takes time that grows with the table.
#[derive(Drop)]
pub struct Links {
    table: Table,
}

impl Model for Links {
    ghost use Rattle.link_table.specs.States.{state_of};
    ghost use Rattle.link_table.specs.Tables.{Keeps, entries, pairs};
    ghost use Rattle.std.specs.Prelude.{List, ℕ};

    ghost Value = { List (ℕ × ℕ) };

    ghost view = { λ t. pairs (state_of t.table) };

    ghost invariant = { λ t. Keeps (state_of t.table) (entries (state_of t.table)) };
}

impl Links {
    /// The table that has no pair. It takes no memory.
    pub fn new(alloc: Global) -> Result<Links, NoMemory>
        ensures { result ≡ Ok [] }
    {
        Ok(Links {
            table: Table::new(alloc),
        })
    }

    /// Whether the two are linked.
    pub fn is_linked(&self, left: u32, right: u32) -> bool
        ensures { result ≡ is_linked self.now left right }
    {
        self.table.key(left, right).is_some()
    }

    /// Links a left with a right, behind all others, and answers whether they weren't linked. After
    /// `NoMemory` the table is as it was.
    pub fn link(&mut self, left: u32, right: u32) -> Result<bool, NoMemory>
        ensures answer { IfOk result (λ new. new ≡ not (is_linked self.old left right)) }
        ensures ok { OnOk result (self.new ≡ cond (is_linked self.old left right) self.old (link self.old left right)) }
        ensures err { OnErr result (self.new ≡ self.old) }
    {
        if self.table.key(left, right).is_some() {
            return Ok(false);
        }
        self.table.make_room()?;
        self.table.put_last(left, right);
        Ok(true)
    }

    /// Parts a left from a right, and answers whether they were linked.
    pub fn unlink(&mut self, left: u32, right: u32) -> bool
        ensures answer { result ≡ is_linked self.old left right }
        ensures rest { self.new ≡ unlink self.old left right }
    {
        match self.table.key(left, right) {
            Some(key) => {
                self.table.remove(key);
                true
            }
            None => false,
        }
    }

    /// Parts a left from all its rights. Each pair counts one step, and nothing else is done for the
    /// others.
    pub fn unlink_left<L: Ledger>(&mut self, left: u32, steps: &mut StepCount<L>)
        ensures rest { self.new ≡ unlink_left self.old left }
        ensures cost { steps.new ≡ steps.old + length (rights self.old left) }
    {
        while let Some(right) = self.next_right(left, None) {
            self.take(left, right, steps);
        }
    }

    /// Parts a left from all its rights, for a caller that counts no steps.
    pub fn part_left(&mut self, left: u32)
        ensures { self.new ≡ unlink_left self.old left }
    {
        self.part_uncounted::<Brand>(left, Blank::new(1));
    }

    fn part_uncounted<L: Ledger>(&mut self, left: u32, ledger: Blank)
        requires name { ledger.name ≡ L.name }
        requires parts { ledger.parts ≡ L.parts }
        requires some { 0 < ledger.parts }
        ensures { self.new ≡ unlink_left self.old left }
    {
        let mut steps: StepCount<L> = StepCount::new(ledger);
        self.unlink_left(left, &mut steps);
    }

    /// The first right of a left, or the one behind another of its rights. `None` where there is no
    /// further one, and where the two named aren't linked.
    pub fn next_right(&self, left: u32, after: Option<u32>) -> Option<u32>
        ensures value { result ≡ next (rights self.now left) after }
        ensures goes_on { (done rest : List ℕ) → rights self.now left ≡ done ++ rest → after ≡ last_or None done → result ≡ first rest }
        ensures distinct { IsDistinct nat_eq (rights self.now left) }
    {
        self.table.next_right(left, after)
    }

    /// The first left of a right, or the one behind another of its lefts. `None` where there is no
    /// further one, and where the two named aren't linked.
    pub fn next_left(&self, right: u32, after: Option<u32>) -> Option<u32>
        ensures value { result ≡ next (lefts self.now right) after }
        ensures goes_on { (done rest : List ℕ) → lefts self.now right ≡ done ++ rest → after ≡ last_or None done → result ≡ first rest }
        ensures distinct { IsDistinct nat_eq (lefts self.now right) }
    {
        self.table.next_left(right, after)
    }

    /// Puts the lefts of a right behind some numbers, in the order in which they were linked with it. After `NoMemory` some of
    /// them may stand there. It takes time for each of them, and none for other pairs.
    pub fn put_lefts(&self, right: u32, out: &mut Vec<u32>) -> Result<(), NoMemory>
        ensures { OnOk result (out.new.items ≡ out.old.items ++ lefts self.now right) }
    {
        let mut key = self.table.first_left(right);
        for _ in 0..u64::MAX {
            let Some((left, behind)) = self.table.left_at(key) else {
                return Ok(());
            };
            out.push(left)?;
            key = behind;
        }
        Err(NoMemory)
    }

    /// No left of a right is linked with it twice.
    pub fn lefts_are_apart(&self)
        ensures { (right : ℕ) → IsDistinct nat_eq (lefts self.now right) }
    {
        let _all = self.table.all;
    }

    /// The pair that was linked first of those that are there.
    pub fn first(&self) -> Option<(u32, u32)>
        ensures { result ≡ first self.now }
    {
        self.table.pair(first_of(self.table.all))
    }

    /// Takes one pair out, and counts it.
    fn take<L: Ledger>(&mut self, left: u32, right: u32, steps: &mut StepCount<L>)
        ensures rest { self.new ≡ unlink self.old left right }
        ensures cost { steps.new ≡ steps.old + 1 }
    {
        steps.tick();
        self.unlink(left, right);
    }
}
