//! A store that wasn't opened.

use repo_opening::Unopened;

/// A store that wasn't opened, with its parts in their order.
#[derive(Drop)]
pub struct ClusterFault<P> {
    pub parts: Vec<P>,
    pub why: Unopened,
}
