// The shapes of networks that a caller can choose from at run time.
ghost use Rattle.shape.specs.Shapes.{shaped};
ghost use Rattle.shape.specs.ShapeLaws.{shape_lawful};
ghost use Rattle.network.proofs.Consequences.{bounds_of, follows_of};

use line::Line;
use network::{Hop, Routing};
use product::Product;
use ring::Ring;
use tree::Tree;

// A mesh is a line times a line, a torus a ring times a ring, a cylinder a ring times a line.
#[derive(Clone, Copy)]
pub enum Shape {
    Line(Line),
    Ring(Ring),
    Tree(Tree),
    Mesh(Product<Line, Line>),
    Torus(Product<Ring, Ring>),
    Cylinder(Product<Ring, Line>),
}

// The answer to `$question`, asked of the routing that the shape holds, whichever kind it is. A macro, since a match binds
// each kind at its own type, and a function may not yet lend one as a `dyn` to a closure.
macro_rules! ask {
    ($shape:expr, $routing:ident => $question:expr) => {
        match $shape {
            Shape::Line($routing) => $question,
            Shape::Ring($routing) => $question,
            Shape::Tree($routing) => $question,
            Shape::Mesh($routing) => $question,
            Shape::Torus($routing) => $question,
            Shape::Cylinder($routing) => $question,
        }
    };
}

impl Routing for Shape {
    ghost meaning = { shaped };

    ghost lawful = { shape_lawful };

    ghost bounds = { λ x. bounds_of _ (shape_lawful x) };

    ghost follows = { λ x. follows_of _ (shape_lawful x) };

    fn nodes(&self) -> usize {
        ask!(self, routing => routing.nodes())
    }

    fn ports(&self) -> usize {
        ask!(self, routing => routing.ports())
    }

    fn classes(&self) -> usize {
        ask!(self, routing => routing.classes())
    }

    fn ceiling(&self) -> usize {
        ask!(self, routing => routing.ceiling())
    }

    fn link(&self, n: usize, p: usize) -> Option<usize> {
        ask!(self, routing => routing.link(n, p))
    }

    fn distance(&self, n: usize, d: usize) -> usize {
        ask!(self, routing => routing.distance(n, d))
    }

    fn escape(&self, n: usize, d: usize) -> Option<Hop> {
        ask!(self, routing => routing.escape(n, d))
    }

    fn rank(&self, n: usize, p: usize, e: usize) -> usize {
        ask!(self, routing => routing.rank(n, p, e))
    }
}
