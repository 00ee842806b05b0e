// Why a call is refused.
ghost use Rattle.std.specs.Prelude.{◌≡◌};
ghost use Rattle.fabric.specs.Refusals.{refusal_number};

// The first question of a call that does not hold.
#[derive(Clone, Copy, PartialEq, Eq, Debug)]
pub enum Refusal {
    // The routing has no nodes.
    NoNodes = 1,
    // The depth is not 1 to 4.
    Depth = 2,
    // The buffers have more than 2,048 slots together.
    Slots = 3,
    // The feed was opened before.
    OpenedBefore = 4,
    // The feed is not open.
    NotOpen = 5,
    // The source is not a node.
    Source = 6,
    // The destination is not a node.
    Destination = 7,
    // 60,000 packets were taken in.
    PacketLimit = 8,
    // The injection buffer is full.
    Full = 9,
    // The trace has no room for the grants of a cycle.
    ShortTrace = 10,
    // 1,000,000 cycles were performed, or a drain could exceed them.
    CycleLimit = 11,
    // The feed is not closed.
    NotClosed = 12,
}

impl Refusal {
    // The number of the refusal, 1 to 12. A method, as that of a labelling's refusal.
    pub fn number(self) -> u8
        ensures { result ≡ refusal_number self }
    {
        self as u8
    }
}
