// Arbitration: which of the buffers that ask for a link is granted it.
#![tactic(auto)]

mod arbiter;
mod entry;
mod lowest;
mod oldest;
mod policy;
mod proper;
mod rotating;

pub use arbiter::Arbiter;
pub use entry::Entry;
pub use lowest::Lowest;
pub use oldest::Oldest;
pub use policy::Policy;
pub use proper::{LINKS, is_proper};
pub use rotating::Rotating;
