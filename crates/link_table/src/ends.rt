//! The two ends of a list of nodes.

ghost use Rattle.link_table.specs.Tables.{first_key, last_key, joined, left_over};
ghost use Rattle.std.specs.Prelude.{Some, ◌≡◌};

use crate::node::Neighbors;

/// The first and the last node of a list, by their keys. A list without a node has no ends.
#[derive(Clone, Copy)]
pub struct Ends {
    /// The first.
    pub first: usize,
    /// The last, which is the first of a list of one.
    pub last: usize,
}

/// The first node, where there is one.
pub fn first_of(ends: Option<Ends>) -> Option<usize>
    ensures { result ≡ first_key ends }
{
    match ends {
        Some(ends) => Some(ends.first),
        None => None,
    }
}

/// The last node, where there is one.
pub fn last_of(ends: Option<Ends>) -> Option<usize>
    ensures { result ≡ last_key ends }
{
    match ends {
        Some(ends) => Some(ends.last),
        None => None,
    }
}

/// The ends with a new last node.
pub fn joined(ends: Option<Ends>, key: usize) -> Ends
    ensures { result ≡ joined ends key }
{
    match ends {
        Some(ends) => Ends {
            first: ends.first,
            last: key,
        },
        None => Ends {
            first: key,
            last: key,
        },
    }
}

/// The ends without a node that stood there, by its neighbors.
pub fn left_over(ends: Option<Ends>, gone: Neighbors) -> Option<Ends>
    ensures { result ≡ left_over ends gone }
{
    let first = match gone.before {
        Some(_) => first_of(ends),
        None => gone.after,
    };
    let last = match gone.after {
        Some(_) => last_of(ends),
        None => gone.before,
    };
    match (first, last) {
        (Some(first), Some(last)) => Some(Ends { first, last }),
        _ => None,
    }
}
