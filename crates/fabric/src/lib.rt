// The fabric: a switch that runs, over any routing and any arbiter. Each call answers and does what the definition of the
// switch says, and the law of its runs stands on `make`.
#![tactic(auto)]

mod body;
mod fabric;
mod feed;
mod refusal;

pub use fabric::{Fabric, NotMade, make};
pub use feed::Feed;
pub use refusal::Refusal;
