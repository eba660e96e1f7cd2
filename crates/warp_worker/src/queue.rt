//! Which process is next.
ghost use Rattle.std.specs.Prelude.{◌*◌, ◌/◌, ◌≤◌, ◌<◌, length};

use std::alloc::{AllocError, Global};

/// The time of the next event of each process, and which is the earliest. What a change costs grows
/// with the logarithm of the number of processes.
///
/// A tree of times: the children of node k are 2k and 2k + 1, the root is node 1, and the last half
/// of the nodes are the processes, by their places. A node has the lesser time of its children.
#[derive(Drop)]
pub(crate) struct NextTimes {
    tree: Vec<u64>,
}

/// Brings the nodes above a node up to date, as far as they change.
fn raise(tree: &mut [u64], node: usize)
    requires { node < 2 * (length tree.old / 2) }
{
    let mut node = node;
    while node > 1 {
        node /= 2;
        let least = tree[2 * node].min(tree[2 * node + 1]);
        if tree[node] == least {
            return;
        }
        tree[node] = least;
    }
}

/// The leaf of the least time, below the root.
fn earliest_leaf(tree: &[u64]) -> usize
    requires { 2 ≤ length tree.now }
{
    let mut node = 1;
    while node < tree.len() / 2 {
        node *= 2;
        if tree[node + 1] < tree[node] {
            node += 1;
        }
    }
    node
}

impl NextTimes {
    /// This many processes, none of which has a next event.
    pub(crate) fn with_places(alloc: Global, places: u32) -> Result<NextTimes, AllocError> {
        let mut tree = Vec::new(alloc);
        tree.resize(2 * places as usize, u64::MAX)?;
        Ok(NextTimes { tree })
    }

    /// Says the time of the next event of the process at a place: `u64::MAX` where it has none.
    pub(crate) fn set(&mut self, place: usize, time: u64) {
        let places = self.tree.len() / 2;
        if place < places {
            self.tree[places + place] = time;
            raise(&mut self.tree, places + place);
        }
    }

    /// The place of the process whose next event is the earliest.
    pub(crate) fn first(&self) -> Option<usize> {
        let places = self.tree.len() / 2;
        if places == 0 {
            return None;
        }
        earliest_leaf(&self.tree).checked_sub(places)
    }
}
