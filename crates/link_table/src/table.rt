//! The nodes of a table with what leads to them.

ghost use Rattle.link_table.specs.States.{HasRoom, state_of};
ghost use Rattle.link_table.specs.Nodes.{taken_out};
ghost use Rattle.link_table.specs.Tables.{Keeps, Puts, Same, Takes, at_end, behind_at, left_after, left_at, left_over, pair_at, right_after};
ghost use Rattle.link_table.specs.declared.node.Node.{Node};
ghost use Rattle.slab.specs.Slab.{get, slab_len};
ghost use Rattle.std.specs.HashMap as hash;
ghost use Rattle.std.specs.Option.{option_map};
ghost use Rattle.std.specs.Prelude.{IsSome, None, OnOk, Some, [], cond, nat_eq, ℕ, ◌≡◌};

use crate::ends::{Ends, first_of, joined, last_of, left_over};
use crate::node::{Chain, Neighbors, Node, set_after, set_before};
use slab::Slab;
use std::alloc::Global;
use std::collections::HashMap;
use thor_value::NoMemory;

/// The pairs of a table as nodes, each with its key, and the ends of each list.
#[derive(Drop)]
pub struct Table {
    pub nodes: Slab<Node>,
    pub all: Option<Ends>,
    pub lefts: HashMap<u32, Ends>,
    pub rights: HashMap<u32, Ends>,
    pub keys: HashMap<(u32, u32), usize>,
}

/// The place behind the last node.
fn at_end(ends: Option<Ends>) -> Neighbors
    ensures { result ≡ at_end ends }
{
    Neighbors {
        before: last_of(ends),
        after: None,
    }
}

impl Table {
    /// A table without pairs.
    pub fn new(alloc: Global) -> Table
        ensures { Keeps (state_of result) [] }
    {
        Table {
            nodes: Slab::new(alloc),
            all: None,
            lefts: HashMap::new(alloc),
            rights: HashMap::new(alloc),
            keys: HashMap::new(alloc),
        }
    }

    /// The key of a pair, where it is there.
    pub fn key(&self, left: u32, right: u32) -> Option<usize>
        ensures { result ≡ (state_of self.now).keys (left, right) }
    {
        self.keys.get(&(left, right)).copied()
    }

    /// The node of a key.
    fn node(&self, key: usize) -> Option<Node>
        ensures { result ≡ (state_of self.now).nodes key }
    {
        self.nodes.get(key).copied()
    }

    /// The pair of a key, where there is one.
    pub fn pair(&self, key: Option<usize>) -> Option<(u32, u32)>
        ensures { result ≡ pair_at (state_of self.now) key }
    {
        let node = self.node(key?)?;
        Some((node.left, node.right))
    }

    /// The right behind one of a left's, or its first one.
    pub fn next_right(&self, left: u32, after: Option<u32>) -> Option<u32>
        ensures { result ≡ option_map (λ p. p.1) (pair_at (state_of self.now) (right_after (state_of self.now) left after)) }
    {
        let key = match after {
            None => first_of(self.lefts.get(&left).copied()),
            Some(right) => self.behind(Chain::Left, left, right),
        };
        let pair = self.pair(key)?;
        Some(pair.1)
    }

    /// The left behind one of a right's, or its first one.
    pub fn next_left(&self, right: u32, after: Option<u32>) -> Option<u32>
        ensures { result ≡ option_map (λ p. p.0) (pair_at (state_of self.now) (left_after (state_of self.now) right after)) }
    {
        let key = match after {
            None => first_of(self.rights.get(&right).copied()),
            Some(left) => self.behind(Chain::Right, left, right),
        };
        let pair = self.pair(key)?;
        Some(pair.0)
    }

    /// The key of the first left of a right.
    pub fn first_left(&self, right: u32) -> Option<usize>
        ensures { result ≡ left_after (state_of self.now) right None }
    {
        first_of(self.rights.get(&right).copied())
    }

    /// The left of the node of a key, and the key behind it in the list of its right.
    pub fn left_at(&self, key: Option<usize>) -> Option<(u32, Option<usize>)>
        ensures { result ≡ left_at (state_of self.now).nodes key }
    {
        let node = self.node(key?)?;
        Some((node.left, node.of_right.after))
    }

    /// The key behind that of a pair in one of its lists.
    fn behind(&self, chain: Chain, left: u32, right: u32) -> Option<usize>
        ensures { result ≡ behind_at (state_of self.now) chain (left, right) }
    {
        let key = self.key(left, right)?;
        let node = self.node(key)?;
        node.neighbors(chain).after
    }

    /// Makes room for one more pair. After `NoMemory` there may be less.
    pub fn make_room(&mut self) -> Result<(), NoMemory>
        ensures room { OnOk result (HasRoom self.new) }
        ensures same { Same (state_of self.old) (state_of self.new) }
    {
        self.nodes.reserve(1)?;
        self.keys.reserve(1)?;
        self.lefts.reserve(1)?;
        self.rights.reserve(1)?;
        Ok(())
    }

    /// Puts a new pair behind the last one of each of its lists.
    pub fn put_last(&mut self, left: u32, right: u32)
        requires { HasRoom self.old }
        ensures { Puts (state_of self.old) (state_of self.new) left right }
    {
        let all = self.all;
        let of_left = self.lefts.get(&left).copied();
        let of_right = self.rights.get(&right).copied();
        let key = self.nodes.insert_reserved(Node {
            left,
            right,
            of_all: at_end(all),
            of_left: at_end(of_left),
            of_right: at_end(of_right),
        });
        set_after(&mut self.nodes, Chain::All, last_of(all), Some(key));
        set_after(&mut self.nodes, Chain::Left, last_of(of_left), Some(key));
        set_after(&mut self.nodes, Chain::Right, last_of(of_right), Some(key));
        self.all = Some(joined(all, key));
        let _ = self.lefts.insert(left, joined(of_left, key));
        let _ = self.rights.insert(right, joined(of_right, key));
        let _ = self.keys.insert((left, right), key);
    }

    /// Takes the node of a key out of its lists.
    pub fn remove(&mut self, key: usize)
        requires { IsSome ((state_of self.old).nodes key) }
        ensures { (node : Node) → (state_of self.old).nodes key ≡ Some node → Takes (state_of self.old) (state_of self.new) key node }
    {
        let node = self.nodes.remove(key);
        take_out(&mut self.nodes, Chain::All, node.of_all);
        take_out(&mut self.nodes, Chain::Left, node.of_left);
        take_out(&mut self.nodes, Chain::Right, node.of_right);
        self.all = left_over(self.all, node.of_all);
        set_ends(&mut self.lefts, node.left, node.of_left);
        set_ends(&mut self.rights, node.right, node.of_right);
        self.keys.remove(&(node.left, node.right));
    }
}

/// Takes a node out of one list, by its neighbors there.
fn take_out(nodes: &mut Slab<Node>, chain: Chain, gone: Neighbors)
    ensures nodes { (k : ℕ) → get nodes.new k ≡ taken_out chain gone k (get nodes.old k) }
    ensures len { slab_len nodes.new ≡ slab_len nodes.old }
{
    set_after(nodes, chain, gone.before, gone.after);
    set_before(nodes, chain, gone.after, gone.before);
}

/// Takes a node from the ends of its list, by its neighbors there.
fn set_ends(lists: &mut HashMap<u32, Ends>, of: u32, gone: Neighbors)
    ensures { (n : ℕ) → hash.get nat_eq lists.new n ≡ cond (nat_eq of n) (left_over (hash.get nat_eq lists.old of) gone) (hash.get nat_eq lists.old n) }
{
    let old = lists.get(&of).copied();
    match left_over(old, gone) {
        Some(ends) => {
            if let Some(place) = lists.get_mut(&of) {
                *place = ends;
            }
        }
        None => {
            lists.remove(&of);
        }
    }
}
