// The moves of a cycle.
ghost use Rattle.std.specs.Prelude.{◌≡◌, ◌≤◌};
ghost use Rattle.switch.specs.Cycle.{hopped};
ghost use Rattle.cycle.specs.Measures.{buffers_in};
ghost use Rattle.cycle.specs.Moves.{Slotted, Movable, AllMovable, Moved, MovedInTurn, AllMoved};

use crate::Sizes;
use queue::{Packet, Queues};
use switch::Grant;

// Carries out one grant: the packet leaves its buffer, and is delivered, or joins its new buffer a hop further. The table
// and the sizes stay two parameters: a struct of the two would be made for one call of `move_all`, and is no plainer.
fn move_packet(queues: &mut Queues, sizes: Sizes, grant: Grant)
    requires slotted { Slotted sizes queues.old }
    requires movable { Movable sizes (buffers_in sizes queues.old) grant }
    ensures { Moved sizes queues.old queues.new grant }
{
    if let Some(packet) = queues.pop(sizes.depth, grant.old) {
        if grant.new != sizes.buffers {
            queues.push(sizes.depth, grant.new, hopped(packet)).unwrap();
        }
    }
}

// The packet a hop further.
fn hopped(packet: Packet) -> Packet
    requires { packet.hops ≤ 64 }
    ensures { result ≡ hopped packet }
{
    Packet {
        hops: packet.hops + 1,
        ..packet
    }
}

// Carries out the grants of a cycle. Answers how many are deliveries. The loop below is apart, so that this proves without a
// file.
pub fn move_all(queues: &mut Queues, sizes: Sizes, grants: &[Grant]) -> usize
    requires slotted { Slotted sizes queues.old }
    requires movable { AllMovable sizes (buffers_in sizes queues.old) grants.now }
    ensures { AllMoved sizes queues.old queues.new grants.now result }
{
    move_each(queues, sizes, grants);
    grants
        .iter()
        .filter(|grant| grant.new == sizes.buffers)
        .count()
}

// Carries out the grants, one after another.
fn move_each(queues: &mut Queues, sizes: Sizes, grants: &[Grant])
    requires slotted { Slotted sizes queues.old }
    requires movable { AllMovable sizes (buffers_in sizes queues.old) grants.now }
    ensures { MovedInTurn sizes queues.old queues.new grants.now }
{
    for grant in grants {
        move_packet(queues, sizes, *grant);
    }
}
