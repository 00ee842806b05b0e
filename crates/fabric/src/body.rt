// What a fabric holds besides its routing and its arbiter.
ghost use Rattle.std.specs.Prelude.{◌≡◌, ◌+◌, ◌*◌, ◌<◌, ◌≤◌, length};
ghost use Rattle.queue.specs.Contents.{contents, Sound};
ghost use Rattle.fabric.specs.Bodies.{NewBody, TakenIn};

use cycle::Sizes;
use queue::{Packet, Queues};
use switch::FeedState;

// The buffers, what was counted, and the state of the feed.
#[derive(Drop)]
pub struct Body {
    pub sizes: Sizes,
    pub queues: Queues,
    pub taken: usize,
    pub delivered: usize,
    pub hops: usize,
    pub cycles: usize,
    pub feed: FeedState,
}

impl Body {
    // Empty buffers, nothing counted, and a feed that was not opened.
    pub fn new(sizes: Sizes) -> Body
        ensures { NewBody sizes result }
    {
        Body {
            sizes,
            queues: Queues::new(),
            taken: 0,
            delivered: 0,
            hops: 0,
            cycles: 0,
            feed: FeedState::Unopened,
        }
    }

    // Takes a packet into the buffer `b`, which has room, and answers its number.
    pub fn take_in(&mut self, b: usize, source: u8, destination: u8) -> usize
        requires shallow { self.old.sizes.depth ≤ 4 }
        requires in_range { b * self.old.sizes.depth + self.old.sizes.depth ≤ 2048 }
        requires sound { Sound self.old.queues self.old.sizes.depth }
        requires room { length (contents self.old.queues self.old.sizes.depth b) < self.old.sizes.depth }
        requires few { self.old.taken < 60000 }
        ensures number { result ≡ self.old.taken }
        ensures after { TakenIn b source destination self.old self.new }
    {
        let number = self.taken;
        let packet = Packet {
            number: number as u32,
            source,
            destination,
            hops: 0,
        };
        self.queues.push(self.sizes.depth, b, packet).unwrap();
        self.taken = number + 1;
        number
    }
}
