// The arbiter that grants the oldest packet.
ghost use Rattle.std.specs.Prelude.{◌≡◌, IfSome};
ghost use Rattle.arbiter.specs.Rule.{Granted};
ghost use Rattle.arbiter.specs.Oldest.{oldest, oldest_place, NoneOlder};
ghost use Rattle.arbiter.specs.Age.{oldest_exists};

use crate::{Arbiter, Entry, is_proper};

// Grants the lowest packet number, which is the oldest packet, and remembers nothing.
#[derive(Clone, Copy, PartialEq, Eq, Debug)]
pub struct Oldest;

impl Arbiter for Oldest {
    ghost rule = { oldest };

    ghost exists = { oldest_exists };

    // Where it grants, no listed packet is older than the granted one, and of equals none stands earlier.
    #[tactic(auto, using(crate::specs::Age::oldest_first))]
    fn grant(&mut self, link: usize, entries: &[Entry]) -> Option<usize>
        ensures granted { Granted oldest self.old self.new link entries.now result }
        ensures none_older { IfSome result (NoneOlder entries.now) }
    {
        is_proper(link, entries).then(|| oldest_place(entries))
    }
}

// The place of the oldest packet, the first of equals; 0 in an empty list.
fn oldest_place(entries: &[Entry]) -> usize
    ensures { result ≡ oldest_place entries.now }
{
    entries
        .iter()
        .enumerate()
        .min_by_key(|(_, entry)| entry.packet)
        .map_or(0, |(place, _)| place)
}
