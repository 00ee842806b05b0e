// Which lists an arbiter answers.
ghost use Rattle.std.specs.Prelude.{◌≡◌, ◌&&◌, nat_lt, Decides};
ghost use Rattle.arbiter.specs.Proper.{Proper, Ordered, buffer_limit};

use crate::Entry;

// Link numbers are under this.
pub const LINKS: usize = 448;

// Buffer numbers are under this, and so no proper list is longer.
const BUFFERS: usize = 2048;

// Whether the list is proper: the link number is under 448, and there are 1 to 2,048 entries, whose buffer numbers rise
// strictly and are under 2,048. One pass.
pub fn is_proper(link: usize, entries: &[Entry]) -> bool
    ensures { Decides result (Proper link entries.now) }
{
    link < LINKS && !entries.is_empty() && entries.len() <= BUFFERS && is_ordered(entries)
}

// Whether the buffer numbers rise strictly and are in range. It ends at the first pair that does not rise or is out of range;
// the last is asked apart, since a list of one has no pair.
fn is_ordered(entries: &[Entry]) -> bool
    ensures { Decides result (Ordered entries.now) }
{
    entries.is_sorted_by(may_follow) && entries.last().is_none_or(is_in_range)
}

// Whether the next entry's buffer is above this one's, and in range.
fn may_follow(entry: &Entry, next: &Entry) -> bool
    ensures { result ≡ (nat_lt entry.now.buffer next.now.buffer && nat_lt next.now.buffer buffer_limit) }
{
    entry.buffer < next.buffer && next.buffer < BUFFERS
}

// Whether an entry's buffer number is one that a buffer can have.
fn is_in_range(entry: &Entry) -> bool
    ensures { result ≡ nat_lt entry.now.buffer buffer_limit }
{
    entry.buffer < BUFFERS
}
