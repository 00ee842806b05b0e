// The ring: nodes in a circle, each linked to the next and to the one before.
#![tactic(auto)]

ghost use Rattle.std.specs.Prelude.{◌≡◌, ◌<◌, ◌≤◌};
ghost use Rattle.ring.specs.Rings.{ring, ring_sized, ring_up};
ghost use Rattle.ring.specs.RingLaws.{ring_lawful};
ghost use Rattle.network.proofs.Consequences.{bounds_of, follows_of};

use network::{Hop, Routing};

const PORTS: usize = 2;

const CLASSES: usize = 2;

// The ring of `size` nodes. A size that is not 3 to 64 makes a ring that is unusable.
#[derive(Clone, Copy, PartialEq, Eq, Debug)]
pub struct Ring {
    pub size: usize,
}

impl Ring {
    // Whether the size is 3 to 64.
    fn is_usable(&self) -> bool
        ensures { result ≡ ring_sized self.now.size }
    {
        (3..=64).contains(&self.size)
    }
}

// The hops upward from `n` to `d` on a ring of `size` nodes.
fn hops_up(size: usize, n: usize, d: usize) -> usize
    requires { (n < size) × ((d < size) × (size ≤ 64)) }
    ensures { result ≡ ring_up size n d }
{
    (d + size - n) % size
}

impl Routing for Ring {
    ghost meaning = { λ x. ring x.size };

    ghost lawful = { λ x. ring_lawful x.size };

    ghost bounds = { λ x. bounds_of _ (ring_lawful x.size) };

    ghost follows = { λ x. follows_of _ (ring_lawful x.size) };

    // The four numbers are kept as plain `if`s, since `then_some(..).unwrap_or(0)` says the same at more length, and works
    // out the number first, which would overflow at a size that is not usable.
    fn nodes(&self) -> usize {
        if self.is_usable() { self.size } else { 0 }
    }

    fn ports(&self) -> usize {
        if self.is_usable() { PORTS } else { 0 }
    }

    fn classes(&self) -> usize {
        if self.is_usable() { CLASSES } else { 0 }
    }

    fn ceiling(&self) -> usize {
        if self.is_usable() { 2 * self.size } else { 0 }
    }

    // Port 0 leads up and port 1 down; the last node and node 0 are neighbours.
    fn link(&self, n: usize, p: usize) -> Option<usize> {
        let nodes = self.nodes();
        if n >= nodes || p >= PORTS {
            None
        } else if p == 0 {
            Some((n + 1) % nodes)
        } else {
            Some((n + nodes - 1) % nodes)
        }
    }

    // The shorter of the two ways round.
    fn distance(&self, n: usize, d: usize) -> usize {
        let nodes = self.nodes();
        if n >= nodes || d >= nodes {
            0
        } else {
            hops_up(nodes, n, d).min(hops_up(nodes, d, n))
        }
    }

    // The shorter way, up where both are equal. A packet whose way still crosses the dateline, between the last node and
    // node 0, takes class 0, and any other class 1, so that the ranks rise along the way.
    fn escape(&self, n: usize, d: usize) -> Option<Hop> {
        let nodes = self.nodes();
        if n >= nodes || d >= nodes || n == d {
            None
        } else if hops_up(nodes, n, d) <= hops_up(nodes, d, n) {
            Some(Hop {
                port: 0,
                class: if n > d { 0 } else { 1 },
                next: (n + 1) % nodes,
            })
        } else {
            Some(Hop {
                port: 1,
                class: if n < d { 0 } else { 1 },
                next: (n + nodes - 1) % nodes,
            })
        }
    }

    // Ranks rise in the direction of travel, and from class 0 to class 1.
    fn rank(&self, n: usize, p: usize, e: usize) -> usize {
        let nodes = self.nodes();
        if n >= nodes || p >= PORTS || e >= CLASSES {
            0
        } else if p == 0 {
            e * nodes + n
        } else {
            e * nodes + nodes - 1 - n
        }
    }
}
