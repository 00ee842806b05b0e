// An arbiter of a kind that is chosen at run time.
ghost use Rattle.arbiter.specs.Policy.{policy};
ghost use Rattle.arbiter.specs.declared.policy.Policy.TheVariants.{Lowest, Rotating, Oldest};
ghost use Rattle.arbiter.specs.Order.{lowest_exists};
ghost use Rattle.arbiter.specs.Rotation.{rotating_exists};
ghost use Rattle.arbiter.specs.Age.{oldest_exists};

use crate::{Arbiter, Entry, Lowest, Oldest, Rotating};

// It grants as the arbiter that it holds, and stays of that kind.
#[derive(Drop)]
pub enum Policy {
    Lowest(Lowest),
    Rotating(Rotating),
    Oldest(Oldest),
}

impl Arbiter for Policy {
    ghost rule = { policy };

    ghost exists = { elim [
      | Lowest a ↦ lowest_exists a
      | Rotating a ↦ rotating_exists a
      | Oldest a ↦ oldest_exists a
    ] };

    // Kept as a match of one method: it binds each kind at its own type, and a macro for it would be longer.
    fn grant(&mut self, link: usize, entries: &[Entry]) -> Option<usize> {
        match self {
            Policy::Lowest(arbiter) => arbiter.grant(link, entries),
            Policy::Rotating(arbiter) => arbiter.grant(link, entries),
            Policy::Oldest(arbiter) => arbiter.grant(link, entries),
        }
    }
}
