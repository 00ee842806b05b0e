// One cycle of the switch, in memory: the requests of the buffers, the decisions, and the moves. The functions are generic
// over the routing and the arbiter, and work on lent parts of a fabric. What they require, the fabric's invariant gives.
#![tactic(auto)]

mod deciding;
mod moving;
mod plan;
mod requesting;
mod sizes;
mod standing;
mod start;
mod visit;

pub use deciding::Scratch;
pub use moving::move_all;
pub use plan::Plan;
pub use sizes::Sizes;
pub use standing::Standing;
pub use start::Start;
