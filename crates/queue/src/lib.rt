// The buffers of a switch: first-in first-out queues of packets, each with slots of its own.
#![tactic(auto)]

mod full;
mod packet;
mod packets;
mod queue;
mod queues;

pub use full::Full;
pub use packet::Packet;
pub use packets::Packets;
pub use queue::Queue;
pub use queues::Queues;
