// The buffers that stand at each node.
ghost use Rattle.std.specs.Prelude.{◌≡◌, ◌<◌};
ghost use Rattle.switch.specs.Places.{location};
ghost use Rattle.cycle.specs.Plans.{network_of};
ghost use Rattle.cycle.specs.Chains.{Stands, ChainedFrom, no_chains, first_at, next_after};

use crate::Plan;
use network::Routing;

// The buffers that stand at a node, in rising order: the first of each node, if there is one, and after each buffer the
// next one at its node. Chains in two arrays, since memory is fixed and all buffers may stand at one node.
#[derive(Clone, Drop)]
pub struct Standing {
    first: [Option<u16>; 64],
    next: [Option<u16>; 2048],
}

impl Standing {
    // The buffers that stand at each node.
    pub fn of<R: Routing>(plan: &Plan<'_, R>) -> Self
        ensures { Stands (network_of plan.now) result }
    {
        let mut standing = Standing::empty();
        plan.chain(&mut standing);
        standing
    }

    // No buffer stands at any node yet.
    fn empty() -> Self
        ensures { result ≡ no_chains }
    {
        Standing {
            first: [None; 64],
            next: [None; 2048],
        }
    }

    // The first buffer that stands at node `n`, if one does.
    pub fn first_at(&self, n: usize) -> Option<usize>
        requires { n < 64 }
        ensures { result ≡ first_at self.now n }
    {
        self.first[n].map(usize::from)
    }

    // The next buffer after `b` that stands at the same node, if one does.
    pub fn next_after(&self, b: usize) -> Option<usize>
        requires { b < 2048 }
        ensures { result ≡ next_after self.now b }
    {
        self.next[b].map(usize::from)
    }
}

impl<'a, R: Routing> Plan<'a, R> {
    // Puts each buffer before those that stand at its node already, from the last buffer to the first.
    fn chain(&self, standing: &mut Standing)
        requires { ChainedFrom (network_of self.now) standing.old self.now.sizes.buffers }
        ensures { Stands (network_of self.now) standing.new }
    {
        for b in (0..self.sizes.buffers).rev() {
            if let Some(n) = self.location(b) {
                standing.next[b] = standing.first[n].replace(b as u16);
            }
        }
    }

    // The node where a buffer stands.
    #[tactic(auto, using(crate::proofs::Locations::nodes_within, crate::proofs::Locations::some_port, crate::proofs::Locations::at_far_end, crate::proofs::Locations::at_own_node))]
    pub fn location(&self, b: usize) -> Option<usize>
        requires { b < self.now.sizes.buffers }
        ensures { result ≡ location (network_of self.now) b }
    {
        let sizes = self.sizes;
        let channels = sizes.buffers - sizes.nodes;
        if b < channels {
            let link = b / sizes.channels;
            return self.routing.link(link / sizes.ports, link % sizes.ports);
        }
        Some(b - channels)
    }
}
