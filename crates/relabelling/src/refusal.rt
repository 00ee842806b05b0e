// Why bytes are no labelling.
ghost use Rattle.std.specs.Prelude.{◌≡◌};
ghost use Rattle.relabelling.specs.Refusals.{refusal_number};

#[derive(Clone, Copy, PartialEq, Eq, Debug)]
pub enum LabellingRefusal {
    // There are not 2 to 64 bytes, but `count`.
    Count { count: usize },
    // `position`, that of `label`, is not less than the number of bytes; it is the first such label.
    Outside { label: usize, position: usize },
    // `second` is the first label whose position another has before it, and `first` is that one.
    Repeated { first: usize, second: usize },
}

impl LabellingRefusal {
    // The number of the refusal: 13, 14 or 15. Kept as a method and no `From`, since the number drops what the refusal holds.
    pub fn number(&self) -> u8
        ensures { result ≡ refusal_number self.now }
    {
        match self {
            LabellingRefusal::Count { .. } => 13,
            LabellingRefusal::Outside { .. } => 14,
            LabellingRefusal::Repeated { .. } => 15,
        }
    }
}
