// Reading a routing: each array is filled place by place.
ghost use Rattle.std.specs.Prelude.{◌≡◌, ◌<◌};
ghost use Rattle.std.specs.Option.{option_map};
ghost use Rattle.network.specs.Laws.{NodeBound};
ghost use Rattle.table.specs.Stored.{StoresSizes, StoresArrays, channel_of};

use crate::answers::{Answers, Channel};
use crate::row::Row;
use network::{Hop, Routing};

// The channel of a hop in two bytes. Kept as a function since a `From` could not ask that the hop is small.
fn channel_of(hop: Hop) -> Channel
    requires { (hop.port < 6) × (hop.class < 2) }
    ensures { result ≡ channel_of hop }
{
    Channel {
        port: hop.port as u8,
        class: hop.class as u8,
    }
}

// The link of node `n` by port `p`, with its node in a byte. The four functions that ask are apart, since each speaks of its
// own method of the trait, and a closure with a cast would need clauses of its own.
fn link_byte<R: Routing>(routing: &R, n: usize, p: usize) -> Option<u8>
    ensures { result ≡ (R.meaning routing.now).link n p }
{
    routing.link(n, p).map(|m| m as u8)
}

// The distance from `n` to `d` in a byte.
fn distance_byte<R: Routing>(routing: &R, n: usize, d: usize) -> u8
    ensures { result ≡ (R.meaning routing.now).distance n d }
{
    routing.distance(n, d) as u8
}

// The channel of the escape from `n` towards `d`.
fn channel<R: Routing>(routing: &R, n: usize, d: usize) -> Option<Channel>
    ensures { result ≡ option_map channel_of ((R.meaning routing.now).escape n d) }
{
    routing.escape(n, d).map(channel_of)
}

// The rank of the escape channel of class `e` on port `p` of node `n` in a byte.
fn rank_byte<R: Routing>(routing: &R, n: usize, p: usize, e: usize) -> u8
    ensures { result ≡ (R.meaning routing.now).rank n p e }
{
    routing.rank(n, p, e) as u8
}

// All the answers of a routing.
pub fn answers_of<R: Routing>(routing: &R) -> Answers
    ensures sizes { StoresSizes (R.meaning routing.now) result }
    ensures arrays { StoresArrays (R.meaning routing.now) result }
{
    Answers {
        nodes: routing.nodes(),
        ports: routing.ports(),
        classes: routing.classes(),
        ceiling: routing.ceiling(),
        links: Row::filled(|n| Row::filled(|p| link_byte(routing, n, p))),
        distances: Row::filled(|n| Row::filled(|d| distance_byte(routing, n, d))),
        escapes: Row::filled(|n| Row::filled(|d| channel(routing, n, d))),
        ranks: Row::filled(|n| Row::filled(|p| Row::filled(|e| rank_byte(routing, n, p, e)))),
    }
}
