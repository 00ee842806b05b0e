// One buffer: a queue of packets in a run of slots.
ghost use Rattle.std.specs.Prelude.{◌≡◌, ◌+◌, ◌<◌, ◌≤◌, List, [], ◌∷◌, ◌++◌, length, drop};
ghost use Rattle.std.specs.List.{slice_get};
ghost use Rattle.queue.specs.declared.packet.Packet.{Packet};
ghost use Rattle.queue.specs.Held.{no_queue, no_room, wrapped, held, Within};

use crate::{Full, Packet};

// The place of the first packet in the queue's run of slots, and how many packets the queue holds. They lie one after
// another from the first on, and past the end of the run they go on at its start. The calls on a queue and its run
// require that the queue lies within the run, which has at most 4 slots: the table of all queues hands them such. A pop is
// lent the run for writing as a push is, since this form is fixed, and leaves the slots as they are.
#[derive(Clone, Copy)]
pub struct Queue {
    first: u8,
    count: u8,
}

impl Queue {
    // A queue that holds no packet.
    pub fn new() -> Self
        ensures { result ≡ no_queue }
    {
        Queue { first: 0, count: 0 }
    }

    // How many packets the queue holds.
    #[tactic(auto, using(crate::proofs::Rings::length_around))]
    pub fn len(&self) -> usize
        ensures value { result ≡ self.now.count }
        ensures few { result < 256 }
        ensures holds { (run : List Packet) → result ≡ length (held self.now run) }
    {
        usize::from(self.count)
    }

    // Appends a packet if there is room for it.
    #[tactic(auto, using(crate::proofs::Rings::append_holds))]
    pub fn push(&mut self, run: &mut [Packet], packet: Packet) -> Result<(), Full>
        requires within { Within self.old (length run.old) }
        requires short { length run.old ≤ 4 }
        ensures room { self.old.count < length run.old → (result ≡ Ok tt) × (held self.new run.new ≡ held self.old run.old ++ (packet ∷ [])) }
        ensures full { length run.old ≤ self.old.count → (result ≡ Err no_room) × (self.new ≡ self.old) × (run.new ≡ run.old) }
        ensures within { Within self.new (length run.new) }
    {
        if self.len() >= run.len() {
            return Err(Full);
        }
        let back = self.slot(self.len(), run.len());
        run[back] = packet;
        self.count += 1;
        Ok(())
    }

    // Takes the first packet out, if there is one.
    #[tactic(auto, using(crate::proofs::Rings::remove_holds))]
    pub fn pop(&mut self, run: &mut [Packet]) -> Option<Packet>
        requires within { Within self.old (length run.old) }
        requires short { length run.old ≤ 4 }
        ensures first { result ≡ slice_get (held self.old run.old) 0 }
        ensures rest { held self.new run.new ≡ drop 1 (held self.old run.old) }
        ensures slots { run.new ≡ run.old }
        ensures empty { self.old.count ≡ 0 → self.new ≡ self.old }
        ensures within { Within self.new (length run.new) }
    {
        let packet = self.front(run)?;
        self.first = self.slot(1, run.len()) as u8;
        self.count -= 1;
        Some(packet)
    }

    // The first packet, if there is one.
    pub fn front(&self, run: &[Packet]) -> Option<Packet>
        requires within { Within self.now (length run.now) }
        ensures { result ≡ slice_get (held self.now run.now) 0 }
    {
        self.at(run, 0)
    }

    // The packet at place k from the front, if there is one.
    #[tactic(auto, using(crate::proofs::Rings::nth_around, crate::proofs::Rings::nth_around_past))]
    pub fn at(&self, run: &[Packet], k: usize) -> Option<Packet>
        requires within { Within self.now (length run.now) }
        ensures { result ≡ slice_get (held self.now run.now) k }
    {
        (k < self.len()).then(|| run[self.slot(k, run.len())])
    }

    // The slot at place k from the front in a run of `len` slots.
    fn slot(&self, k: usize, len: usize) -> usize
        requires first { self.now.first < len }
        requires place { k ≤ len }
        requires few { k < 256 }
        ensures value { result ≡ wrapped len (self.now.first + k) }
        ensures within { result < len }
    {
        let x = usize::from(self.first) + k;
        if x < len { x } else { x - len }
    }
}
