// Why a command has no route.
use crate::shape_name::ShapeName;
use thiserror::Error;

// The sizes make a network that is unusable, or a node is not one of its nodes, or memory is out.
#[derive(Clone, Copy, PartialEq, Eq, Debug, Error)]
pub enum TraceError {
    #[error("{}", size_rule(*.name))]
    Unusable { name: ShapeName },
    #[error("{node} is no node: the network has {nodes} nodes, counted from 0")]
    NoNode { node: usize, nodes: usize },
    #[error("out of memory")]
    OutOfMemory,
}

// Which sizes make a shape of this name usable.
fn size_rule(name: ShapeName) -> &'static str {
    match name {
        ShapeName::Line => "a line has 2 to 64 nodes",
        ShapeName::Ring => "a ring has 3 to 64 nodes",
        ShapeName::Tree => "a tree has a height of 1 to 5 and a fat depth from 0 to its height",
        ShapeName::Mesh => "a mesh has two sizes of 2 or more and at most 64 nodes",
        ShapeName::Torus => "a torus has two sizes of 3 or more and at most 64 nodes",
        ShapeName::Cylinder =>
            "a cylinder has a ring of 3 or more, a line of 2 or more and at most 64 nodes",
    }
}
