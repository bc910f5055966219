//! The nodes of a table, and the lists in which they stand.

ghost use Rattle.link_table.specs.Nodes.{is_key, neighbors, with_after, with_before, with_neighbors};
ghost use Rattle.slab.specs.Slab.{get, slab_len};
ghost use Rattle.std.specs.Option.{option_map};
ghost use Rattle.std.specs.Prelude.{cond, ℕ, ◌≡◌};

use slab::Slab;

/// The lists in which a node stands.
#[derive(Clone, Copy)]
pub enum Chain {
    /// That of all pairs.
    All,
    /// That of the node's left.
    Left,
    /// That of the node's right.
    Right,
}

/// The nodes before and behind a node in one of its lists, by their keys.
#[derive(Clone, Copy)]
pub struct Neighbors {
    /// The node before, or `None` at the first.
    pub before: Option<usize>,
    /// The node behind, or `None` at the last.
    pub after: Option<usize>,
}

/// A pair, and its place in each of its lists.
#[derive(Clone, Copy)]
pub struct Node {
    /// The left.
    pub left: u32,
    /// The right.
    pub right: u32,
    /// Its place among all pairs.
    pub of_all: Neighbors,
    /// Its place among those of its left.
    pub of_left: Neighbors,
    /// Its place among those of its right.
    pub of_right: Neighbors,
}

impl Node {
    /// Its place in one of its lists.
    pub fn neighbors(&self, chain: Chain) -> Neighbors
        ensures { result ≡ neighbors chain self.now }
    {
        match chain {
            Chain::All => self.of_all,
            Chain::Left => self.of_left,
            Chain::Right => self.of_right,
        }
    }

    /// Changes its place in one of its lists.
    fn set_neighbors(&mut self, chain: Chain, place: Neighbors)
        ensures { self.new ≡ with_neighbors chain place self.old }
    {
        match chain {
            Chain::All => self.of_all = place,
            Chain::Left => self.of_left = place,
            Chain::Right => self.of_right = place,
        }
    }
}

/// Changes what stands behind a node in one of its lists.
fn put_after(node: &mut Node, chain: Chain, after: Option<usize>)
    ensures { node.new ≡ with_after chain after node.old }
{
    let before = node.neighbors(chain).before;
    node.set_neighbors(chain, Neighbors { before, after });
}

/// Changes what stands before a node in one of its lists.
fn put_before(node: &mut Node, chain: Chain, before: Option<usize>)
    ensures { node.new ≡ with_before chain before node.old }
{
    let after = node.neighbors(chain).after;
    node.set_neighbors(chain, Neighbors { before, after });
}

/// Changes what stands behind the node of a key, where there is one.
pub fn set_after(nodes: &mut Slab<Node>, chain: Chain, key: Option<usize>, after: Option<usize>)
    ensures nodes { (k : ℕ) → get nodes.new k ≡ cond (is_key key k) (option_map (with_after chain after) (get nodes.old k)) (get nodes.old k) }
    ensures len { slab_len nodes.new ≡ slab_len nodes.old }
{
    let Some(key) = key else {
        return;
    };
    if let Some(node) = nodes.get_mut(key) {
        put_after(node, chain, after);
    }
}

/// Changes what stands before the node of a key, where there is one.
pub fn set_before(nodes: &mut Slab<Node>, chain: Chain, key: Option<usize>, before: Option<usize>)
    ensures nodes { (k : ℕ) → get nodes.new k ≡ cond (is_key key k) (option_map (with_before chain before) (get nodes.old k)) (get nodes.old k) }
    ensures len { slab_len nodes.new ≡ slab_len nodes.old }
{
    let Some(key) = key else {
        return;
    };
    if let Some(node) = nodes.get_mut(key) {
        put_before(node, chain, before);
    }
}
