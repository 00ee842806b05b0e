// Switched networks of nodes with one-way links, and how packets are routed through them.
#![tactic(auto)]

mod hop;
mod route_step;
mod routes;
mod routing;

pub use hop::Hop;
pub use route_step::{RouteError, RouteStep};
pub use routes::route;
pub use routing::Routing;
