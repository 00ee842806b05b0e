// The tree: binary and complete, with a second link on each edge from a node above the fat depth.
#![tactic(auto)]

ghost use Rattle.std.specs.Prelude.{◌≡◌, ◌%◌, ◌==◌, ◌||◌, nat_lt};
ghost use Rattle.tree.specs.Trees.{depth, tree, tree_sized};
ghost use Rattle.tree.specs.TreeLaws.{tree_lawful};
ghost use Rattle.network.proofs.Consequences.{bounds_of, follows_of};

mod nodes;

use network::{Hop, Routing};
use nodes::{depth_of, hops_between, in_subtree, is_ancestor, parent_of};

// The tree of a height from 1 to 5, with a fat depth from 0 to the height. Other sizes make a tree that is unusable.
#[derive(Clone, Copy, PartialEq, Eq, Debug)]
pub struct Tree {
    pub height: usize,
    pub fat: usize,
}

impl Tree {
    // Whether the height is 1 to 5 and the fat depth at most the height.
    fn is_usable(&self) -> bool
        ensures { result ≡ tree_sized self.now.height self.now.fat }
    {
        (1..=5).contains(&self.height) && self.fat <= self.height
    }

    // Whether an edge down from node `upper` has a link at port `p`: the odd ports are second links, there only above the
    // fat depth.
    fn is_joined(&self, upper: usize, p: usize) -> bool
        ensures { result ≡ (p % 2 == 0 || nat_lt (depth upper) self.now.fat) }
    {
        p % 2 == 0 || depth_of(upper) < self.fat
    }
}

impl Routing for Tree {
    ghost meaning = { λ x. tree x.height x.fat };

    ghost lawful = { λ x. tree_lawful x.height x.fat };

    ghost bounds = { λ x. bounds_of (tree x.height x.fat) (tree_lawful x.height x.fat) };

    ghost follows = { λ x. follows_of (tree x.height x.fat) (tree_lawful x.height x.fat) };

    // The four numbers are kept as plain `if`s, since `then_some(..).unwrap_or(0)` says the same at more length, and works
    // out the number first, which would overflow at a height that is not usable.
    #[tactic(auto, using(crate::specs::TreeLaws::nodes_shifted))]
    fn nodes(&self) -> usize {
        if self.is_usable() {
            (2 << self.height) - 1
        } else {
            0
        }
    }

    fn ports(&self) -> usize {
        if self.is_usable() { 6 } else { 0 }
    }

    fn classes(&self) -> usize {
        if self.is_usable() { 1 } else { 0 }
    }

    fn ceiling(&self) -> usize {
        if self.is_usable() { 2 * self.height } else { 0 }
    }

    // Two ports for each neighbour: 0 and 1 up, 2 and 3 to child 2n + 1, 4 and 5 to child 2n + 2.
    fn link(&self, n: usize, p: usize) -> Option<usize> {
        let nodes = self.nodes();
        if n >= nodes || p >= 6 {
            return None;
        }
        if p < 2 {
            let up = parent_of(n);
            (n > 0 && self.is_joined(up, p)).then_some(up)
        } else {
            let child = if p < 4 { 2 * n + 1 } else { 2 * n + 2 };
            (child < nodes && self.is_joined(n, p)).then_some(child)
        }
    }

    fn distance(&self, n: usize, d: usize) -> usize {
        let nodes = self.nodes();
        if n >= nodes || d >= nodes {
            0
        } else {
            hops_between(n, d)
        }
    }

    // Down towards `d` where `n` is an ancestor of `d`, and else up.
    fn escape(&self, n: usize, d: usize) -> Option<Hop> {
        let nodes = self.nodes();
        if n >= nodes || d >= nodes || n == d {
            None
        } else if !is_ancestor(n, d) {
            Some(Hop {
                port: 0,
                class: 0,
                next: parent_of(n),
            })
        } else if in_subtree(2 * n + 1, d) {
            Some(Hop {
                port: 2,
                class: 0,
                next: 2 * n + 1,
            })
        } else {
            Some(Hop {
                port: 4,
                class: 0,
                next: 2 * n + 2,
            })
        }
    }

    // Ranks rise on the way up to the root, and on from there on the way down.
    fn rank(&self, n: usize, p: usize, e: usize) -> usize {
        if e > 0 || self.link(n, p).is_none() {
            0
        } else if p < 2 {
            self.height.saturating_sub(depth_of(n))
        } else {
            self.height + depth_of(n)
        }
    }
}
