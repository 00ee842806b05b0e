// The packets of one buffer, one after another.
ghost use Rattle.std.specs.Prelude.{length};
ghost use Rattle.queue.specs.Held.{Within};

use crate::{Packet, Queue};

// The packets of a queue in its run of slots, from place k on, the first one first.
#[derive(Drop)]
pub struct Packets<'a> {
    pub(crate) queue: Queue,
    pub(crate) run: &'a [Packet],
    pub(crate) k: usize,
    ghost within: { Within queue (length run.now) },
}

impl<'a> Iterator for Packets<'a> {
    ghost use Rattle.std.specs.Iterator.{YieldsFirst, item_count};
    ghost use Rattle.queue.specs.Left.{packets_left};

    type Item = Packet;

    ghost next_gives = { YieldsFirst packets_left };

    ghost remaining = { item_count packets_left };

    #[tactic(auto, using(crate::proofs::Lefts::stepping))]
    fn next(&mut self) -> Option<Packet> {
        let packet = self.queue.at(self.run, self.k)?;
        self.k += 1;
        Some(packet)
    }
}
