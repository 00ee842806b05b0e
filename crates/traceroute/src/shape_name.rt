// The words that name a shape.
ghost use Rattle.std.specs.Prelude.{◌≡◌};
ghost use Rattle.traceroute.specs.Names.{Named, size_count, shape_of};

use line::Line;
use product::Product;
use ring::Ring;
use shape::Shape;
use tree::Tree;

#[derive(Clone, Copy, PartialEq, Eq, Debug)]
pub enum ShapeName {
    Line,
    Ring,
    Tree,
    Mesh,
    Torus,
    Cylinder,
}

// The shape that a word names, if any. No `FromStr`, whose error would have nothing to say.
pub fn shape_named(word: &str) -> Option<ShapeName>
    ensures { Named word.now result }
{
    match word {
        "line" => Some(ShapeName::Line),
        "ring" => Some(ShapeName::Ring),
        "tree" => Some(ShapeName::Tree),
        "mesh" => Some(ShapeName::Mesh),
        "torus" => Some(ShapeName::Torus),
        "cylinder" => Some(ShapeName::Cylinder),
        _ => None,
    }
}

impl ShapeName {
    // How many sizes a shape of this name has.
    pub fn sizes(self) -> usize
        ensures { result ≡ size_count self }
    {
        match self {
            ShapeName::Line | ShapeName::Ring => 1,
            ShapeName::Tree | ShapeName::Mesh | ShapeName::Torus | ShapeName::Cylinder => 2,
        }
    }

    // The shape of this name with the sizes `a` and `b`; a line and a ring have `a` alone.
    pub fn shape(self, a: usize, b: usize) -> Shape
        ensures { result ≡ shape_of self a b }
    {
        match self {
            ShapeName::Line => Shape::Line(Line { size: a }),
            ShapeName::Ring => Shape::Ring(Ring { size: a }),
            ShapeName::Tree => Shape::Tree(Tree { height: a, fat: b }),
            ShapeName::Mesh => Shape::Mesh(Product {
                first: Line { size: a },
                second: Line { size: b },
            }),
            ShapeName::Torus => Shape::Torus(Product {
                first: Ring { size: a },
                second: Ring { size: b },
            }),
            ShapeName::Cylinder => Shape::Cylinder(Product {
                first: Ring { size: a },
                second: Line { size: b },
            }),
        }
    }
}
