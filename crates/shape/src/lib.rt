// The networks that a caller chooses at run time: a shape, with labels or without.
#![tactic(auto)]

mod examples;
mod shapes;
mod topology;

pub use examples::examples_hold;
pub use shapes::Shape;
pub use topology::Topology;
