// The buffers of a switch, in one table of records and one array of slots.
ghost use Rattle.std.specs.Prelude.{◌≡◌, ℕ, ◌+◌, ◌*◌, ◌<◌, ◌≤◌, length, replicate};
ghost use Rattle.std.specs.List.{slice_get};
ghost use Rattle.queue.specs.Held.{no_packet, no_queue, held};
ghost use Rattle.queue.specs.Left.{packets_left};
ghost use Rattle.queue.specs.Contents.{contents, Sound, Empty, Pushed, Popped};

use crate::{Full, Packet, Packets, Queue};

// There are this many slots, and no more buffers than slots.
const SLOTS: usize = 2048;

// What an unused slot holds. Kept as a constant, since of an array of `Packet::default()` the check does not find the
// clause `slots` of `new` by itself.
const NO_PACKET: Packet = Packet {
    number: 0,
    source: 0,
    destination: 0,
    hops: 0,
};

// Each buffer has a record and `depth` slots of its own, 1 to 4: the run of slots of the buffer b starts at b × depth.
// The struct is plain, since the form of the table is fixed: the depth and the soundness of the records are its callers',
// and so the calls take the depth, and require a buffer whose slots are in range and sound records, and where they write, a
// small depth.
#[derive(Clone, Drop)]
pub struct Queues {
    queues: [Queue; SLOTS],
    slots: [Packet; SLOTS],
}

impl Queues {
    // Every buffer is empty, whatever the depth.
    pub fn new() -> Self
        ensures queues { result.queues ≡ replicate 2048 no_queue }
        ensures slots { result.slots ≡ replicate 2048 no_packet }
        ensures empty { Empty result }
    {
        Queues {
            queues: [Queue::new(); SLOTS],
            slots: [NO_PACKET; SLOTS],
        }
    }

    // Appends a packet to the buffer b if there is room for it.
    #[tactic(auto, using(crate::proofs::Frames::lending))]
    pub fn push(&mut self, depth: usize, b: usize, packet: Packet) -> Result<(), Full>
        requires shallow { depth ≤ 4 }
        requires in_range { b * depth + depth ≤ 2048 }
        requires sound { Sound self.old depth }
        ensures { Pushed self.old self.new depth b packet result }
    {
        let start = b * depth;
        self.queues[b].push(&mut self.slots[start..start + depth], packet)
    }

    // Takes the first packet out of the buffer b, if it holds one.
    #[tactic(auto, using(crate::proofs::Frames::lending))]
    pub fn pop(&mut self, depth: usize, b: usize) -> Option<Packet>
        requires shallow { depth ≤ 4 }
        requires in_range { b * depth + depth ≤ 2048 }
        requires sound { Sound self.old depth }
        ensures { Popped self.old self.new depth b result }
    {
        let start = b * depth;
        self.queues[b].pop(&mut self.slots[start..start + depth])
    }

    // The first packet of the buffer b, if it holds one.
    pub fn front(&self, depth: usize, b: usize) -> Option<Packet>
        requires in_range { b * depth + depth ≤ 2048 }
        requires sound { Sound self.now depth }
        ensures { result ≡ slice_get (contents self.now depth b) 0 }
    {
        self.at(depth, b, 0)
    }

    // The packet at place k from the front of the buffer b, if it holds one there.
    pub fn at(&self, depth: usize, b: usize, k: usize) -> Option<Packet>
        requires in_range { b * depth + depth ≤ 2048 }
        requires sound { Sound self.now depth }
        ensures { result ≡ slice_get (contents self.now depth b) k }
    {
        let start = b * depth;
        self.queues[b].at(&self.slots[start..start + depth], k)
    }

    // The packets of the buffer b, the first one first.
    pub fn packets(&self, depth: usize, b: usize) -> Packets<'_>
        requires in_range { b * depth + depth ≤ 2048 }
        requires sound { Sound self.now depth }
        ensures { packets_left result ≡ contents self.now depth b }
    {
        let start = b * depth;
        Packets {
            queue: self.queues[b],
            run: &self.slots[start..start + depth],
            k: 0,
        }
    }

    // How many packets the buffer b holds, whatever the depth.
    pub fn len(&self, b: usize) -> usize
        requires { b < 2048 }
        ensures { (depth : ℕ) → result ≡ length (contents self.now depth b) }
    {
        self.queues[b].len()
    }
}
