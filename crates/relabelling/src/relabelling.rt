// A routing whose nodes are named by their labels.
ghost use Rattle.std.specs.Prelude.{◌≡◌};
ghost use Rattle.relabelling.specs.Relabels.{relabelled, relabelled_sized};
ghost use Rattle.relabelling.specs.RelabelledLaws.{relabelled_lawful};
ghost use Rattle.network.proofs.Consequences.{bounds_of, follows_of};

use crate::Labelling;
use network::{Hop, Routing};

// Node i is the node of `routing` at the position of label i. Usable where `routing` is and has as many nodes as there are
// labels.
#[derive(Clone, Copy)]
pub struct Relabelling<X> {
    pub routing: X,
    pub labelling: Labelling,
}

impl<X: Routing> Relabelling<X> {
    // Whether there are as many labels as nodes. There are at least 2 labels, so the routing is usable then.
    fn is_usable(&self) -> bool
        ensures { result ≡ relabelled_sized self.now.labelling.count (X.meaning self.now.routing) }
    {
        self.routing.nodes() == self.labelling.len()
    }
}

impl<X: Routing> Routing for Relabelling<X> {
    ghost meaning = { λ x. relabelled x.labelling (X.meaning x.routing) };

    ghost lawful = { λ x. relabelled_lawful x.labelling (X.meaning x.routing) (X.lawful x.routing) };

    ghost bounds = { λ x. bounds_of _ (relabelled_lawful x.labelling (X.meaning x.routing) (X.lawful x.routing)) };

    ghost follows = { λ x. follows_of _ (relabelled_lawful x.labelling (X.meaning x.routing) (X.lawful x.routing)) };

    // The four numbers are kept as plain `if`s, since `then_some(..).unwrap_or(0)` says the same at more length.
    fn nodes(&self) -> usize {
        if self.is_usable() {
            self.routing.nodes()
        } else {
            0
        }
    }

    fn ports(&self) -> usize {
        if self.is_usable() {
            self.routing.ports()
        } else {
            0
        }
    }

    fn classes(&self) -> usize {
        if self.is_usable() {
            self.routing.classes()
        } else {
            0
        }
    }

    fn ceiling(&self) -> usize {
        if self.is_usable() {
            self.routing.ceiling()
        } else {
            0
        }
    }

    fn link(&self, n: usize, p: usize) -> Option<usize> {
        if n >= self.nodes() {
            return None;
        }
        let next = self.routing.link(self.labelling.position_of(n), p)?;
        Some(self.labelling.label_at(next))
    }

    fn distance(&self, n: usize, d: usize) -> usize {
        let nodes = self.nodes();
        if n >= nodes || d >= nodes {
            return 0;
        }
        self.routing.distance(self.labelling.position_of(n), self.labelling.position_of(d))
    }

    fn escape(&self, n: usize, d: usize) -> Option<Hop> {
        let nodes = self.nodes();
        if n >= nodes || d >= nodes || n == d {
            return None;
        }
        let (from, to) = (self.labelling.position_of(n), self.labelling.position_of(d));
        let hop = self.routing.escape(from, to)?;
        Some(Hop {
            next: self.labelling.label_at(hop.next),
            ..hop
        })
    }

    fn rank(&self, n: usize, p: usize, e: usize) -> usize {
        if n >= self.nodes() {
            return 0;
        }
        self.routing.rank(self.labelling.position_of(n), p, e)
    }
}
