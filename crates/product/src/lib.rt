// The product of two routings: a grid whose rows are copies of the first and whose columns are copies of the second.
#![tactic(auto)]

ghost use Rattle.std.specs.Prelude.{◌≡◌, ◌+◌, ◌*◌, ◌≤◌};
ghost use Rattle.product.specs.Products.{product, product_sized};
ghost use Rattle.product.specs.ProductLaws.{product_lawful};
ghost use Rattle.network.proofs.Consequences.{bounds_of, follows_of};

use network::{Hop, Routing};

// With w nodes in the first part, node n stands in column n % w and row n / w. Usable where both parts are, with at most
// 64 nodes and 6 ports.
#[derive(Clone, Copy, PartialEq, Eq, Debug)]
pub struct Product<X, Y> {
    pub first: X,
    pub second: Y,
}

impl<X: Routing, Y: Routing> Product<X, Y> {
    // Whether both parts are usable and the whole is small enough.
    fn is_usable(&self) -> bool
        ensures { result ≡ product_sized (X.meaning self.now.first) (Y.meaning self.now.second) }
    {
        let width = self.first.nodes();
        let height = self.second.nodes();
        let ports = self.first.ports() + self.second.ports();
        0 < width && 0 < height && width * height <= 64 && ports <= 6
    }
}

// The node in column `a` and row `b`, where a row has `width` nodes.
fn node_at(width: usize, a: usize, b: usize) -> usize
    requires { (width ≤ 64) × ((a ≤ 64) × (b ≤ 64)) }
    ensures { result ≡ a + width * b }
{
    a + width * b
}

impl<X: Routing, Y: Routing> Routing for Product<X, Y> {
    ghost meaning = { λ x. product (X.meaning x.first) (Y.meaning x.second) };

    ghost lawful = { λ x. product_lawful (X.meaning x.first) (Y.meaning x.second) (X.lawful x.first) (Y.lawful x.second) };

    ghost bounds = { λ x. bounds_of _ (product_lawful (X.meaning x.first) (Y.meaning x.second) (X.lawful x.first) (Y.lawful x.second)) };

    ghost follows = { λ x. follows_of _ (product_lawful (X.meaning x.first) (Y.meaning x.second) (X.lawful x.first) (Y.lawful x.second)) };

    // The four numbers are kept as plain `if`s, since `then_some(..).unwrap_or(0)` says the same at more length.
    fn nodes(&self) -> usize {
        if self.is_usable() {
            self.first.nodes() * self.second.nodes()
        } else {
            0
        }
    }

    fn ports(&self) -> usize {
        if self.is_usable() {
            self.first.ports() + self.second.ports()
        } else {
            0
        }
    }

    fn classes(&self) -> usize {
        if self.is_usable() {
            self.first.classes().max(self.second.classes())
        } else {
            0
        }
    }

    fn ceiling(&self) -> usize {
        if self.is_usable() {
            self.first.ceiling() + self.second.ceiling()
        } else {
            0
        }
    }

    // The first part's ports come first and change the column; the second's change the row.
    fn link(&self, n: usize, p: usize) -> Option<usize> {
        if n >= self.nodes() || p >= self.ports() {
            return None;
        }
        let width = self.first.nodes();
        let own = self.first.ports();
        let (a, b) = (n % width, n / width);
        if p < own {
            let next = self.first.link(a, p)?;
            Some(node_at(width, next, b))
        } else {
            let next = self.second.link(b, p - own)?;
            Some(node_at(width, a, next))
        }
    }

    fn distance(&self, n: usize, d: usize) -> usize {
        let nodes = self.nodes();
        if n >= nodes || d >= nodes {
            return 0;
        }
        let width = self.first.nodes();
        self.first.distance(n % width, d % width) + self.second.distance(n / width, d / width)
    }

    // Along the row to the destination's column, and only then along the column.
    fn escape(&self, n: usize, d: usize) -> Option<Hop> {
        let nodes = self.nodes();
        if n >= nodes || d >= nodes || n == d {
            return None;
        }
        let width = self.first.nodes();
        let (a, b) = (n % width, n / width);
        if a != d % width {
            let hop = self.first.escape(a, d % width)?;
            Some(Hop {
                next: node_at(width, hop.next, b),
                ..hop
            })
        } else {
            let hop = self.second.escape(b, d / width)?;
            Some(Hop {
                port: self.first.ports() + hop.port,
                next: node_at(width, a, hop.next),
                ..hop
            })
        }
    }

    // The second part's ranks stand above all of the first's.
    fn rank(&self, n: usize, p: usize, e: usize) -> usize {
        if e >= self.classes() || self.link(n, p).is_none() {
            return 0;
        }
        let width = self.first.nodes();
        let own = self.first.ports();
        if p < own {
            self.first.rank(n % width, p, e)
        } else {
            self.first.ceiling() + self.second.rank(n / width, p - own, e)
        }
    }
}
