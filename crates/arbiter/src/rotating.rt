// The arbiter that goes round the buffers.
ghost use Rattle.std.specs.Prelude.{◌≡◌, ℕ, ◌<◌, length, replicate, IfSome, None, slice_index_or};
ghost use Rattle.arbiter.specs.Proper.{Ordered, buffer_at, link_limit};
ghost use Rattle.arbiter.specs.Rule.{Granted};
ghost use Rattle.arbiter.specs.Rotating.{rotating, above, first_above, last_on, remember, Remembered, NoneBetween, Rotated};
ghost use Rattle.arbiter.specs.Rotation.{rotating_exists};

use crate::{Arbiter, Entry, LINKS, is_proper};

// It remembers for each link the buffer that it granted last.
#[derive(Drop)]
pub struct Rotating {
    last: [Option<u16>; LINKS],
}

impl Rotating {
    // No link was granted yet.
    pub fn new() -> Self
        ensures state { result.last ≡ replicate link_limit None }
        ensures nothing_granted { (link : ℕ) → last_on result link ≡ None }
    {
        Rotating {
            last: nothing_granted(),
        }
    }

    // Remembers a buffer for this link, and for no other.
    fn remember(&mut self, link: usize, buffer: u16)
        requires { link < link_limit }
        ensures state { self.new ≡ remember self.old link buffer }
        ensures remembered { Remembered self.old self.new link buffer }
    {
        self.last[link] = Some(buffer);
    }
}

impl Arbiter for Rotating {
    ghost rule = { rotating };

    ghost exists = { rotating_exists };

    // Where it grants, no listed buffer lies strictly between the one granted last on this link and the granted one, going
    // up and round, and the granted one is then the last on this link. The other links keep theirs.
    fn grant(&mut self, link: usize, entries: &[Entry]) -> Option<usize>
        ensures granted { Granted rotating self.old self.new link entries.now result }
        ensures rotated { IfSome result (Rotated self.old self.new link entries.now) }
    {
        if !is_proper(link, entries) {
            return None;
        }
        let place = first_above(self.last[link], entries);
        self.remember(link, buffer_at(entries, place));
        Some(place)
    }
}

// Nothing is remembered for any link. Kept beside `new`, whose two clauses then prove with no answer.
fn nothing_granted() -> [Option<u16>; LINKS]
    ensures state { result ≡ replicate link_limit None }
    ensures all_none { (link : ℕ) → slice_index_or result link None ≡ None }
{
    [None; LINKS]
}

// The place of the first entry above `last`, and 0 where there is none.
fn first_above(last: Option<u16>, entries: &[Entry]) -> usize
    ensures place { result ≡ first_above last entries.now }
    ensures within { 0 < length entries.now → result < length entries.now }
    ensures none_between { Ordered entries.now → NoneBetween last entries.now result }
{
    entries
        .iter()
        .position(|entry| is_above(entry.buffer, last))
        .unwrap_or(0)
}

// Whether a buffer is above `last`; any is above none.
fn is_above(buffer: usize, last: Option<u16>) -> bool
    ensures { result ≡ above last buffer }
{
    last.is_none_or(|below| buffer > usize::from(below))
}

// The buffer at a place of a list in order, whose buffer numbers are small.
fn buffer_at(entries: &[Entry], place: usize) -> u16
    requires ordered { Ordered entries.now }
    requires within { place < length entries.now }
    ensures { result ≡ buffer_at entries.now place }
{
    entries[place].buffer as u16
}
