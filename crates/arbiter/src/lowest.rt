// The arbiter that grants the lowest buffer.
ghost use Rattle.std.specs.Prelude.{IfSome};
ghost use Rattle.arbiter.specs.Rule.{Granted};
ghost use Rattle.arbiter.specs.Lowest.{lowest, NoneLower};
ghost use Rattle.arbiter.specs.Order.{lowest_exists};

use crate::{Arbiter, Entry, is_proper};

// Grants the first entry, and remembers nothing.
#[derive(Clone, Copy, PartialEq, Eq, Debug)]
pub struct Lowest;

impl Arbiter for Lowest {
    ghost rule = { lowest };

    ghost exists = { lowest_exists };

    // Where it grants, no listed buffer is lower than the granted one: the first is the lowest, since the buffers rise.
    #[tactic(auto, using(crate::specs::Order::first_lowest))]
    fn grant(&mut self, link: usize, entries: &[Entry]) -> Option<usize>
        ensures granted { Granted lowest self.old self.new link entries.now result }
        ensures none_lower { IfSome result (NoneLower entries.now) }
    {
        is_proper(link, entries).then_some(0)
    }
}
