// A shape, with labels or without.
ghost use Rattle.shape.specs.Topologies.{topology_network};
ghost use Rattle.shape.specs.ShapeLaws.{topology_lawful};
ghost use Rattle.network.proofs.Consequences.{bounds_of, follows_of};

use crate::Shape;
use network::{Hop, Routing};
use relabelling::Relabelling;

#[derive(Clone, Copy)]
pub enum Topology {
    Plain(Shape),
    Relabelled(Relabelling<Shape>),
}

// The answer to `$question`, asked of the routing that the topology holds, with labels or without. A macro, for the reason
// that stands at the one of `Shape`.
macro_rules! ask {
    ($topology:expr, $routing:ident => $question:expr) => {
        match $topology {
            Topology::Plain($routing) => $question,
            Topology::Relabelled($routing) => $question,
        }
    };
}

impl Routing for Topology {
    ghost meaning = { topology_network };

    ghost lawful = { topology_lawful };

    ghost bounds = { λ x. bounds_of _ (topology_lawful x) };

    ghost follows = { λ x. follows_of _ (topology_lawful x) };

    fn nodes(&self) -> usize {
        ask!(self, routing => routing.nodes())
    }

    fn ports(&self) -> usize {
        ask!(self, routing => routing.ports())
    }

    fn classes(&self) -> usize {
        ask!(self, routing => routing.classes())
    }

    fn ceiling(&self) -> usize {
        ask!(self, routing => routing.ceiling())
    }

    fn link(&self, n: usize, p: usize) -> Option<usize> {
        ask!(self, routing => routing.link(n, p))
    }

    fn distance(&self, n: usize, d: usize) -> usize {
        ask!(self, routing => routing.distance(n, d))
    }

    fn escape(&self, n: usize, d: usize) -> Option<Hop> {
        ask!(self, routing => routing.escape(n, d))
    }

    fn rank(&self, n: usize, p: usize, e: usize) -> usize {
        ask!(self, routing => routing.rank(n, p, e))
    }
}
