// Which buffers request a port, and what they would be granted.
ghost use Rattle.std.specs.Prelude.{◌≡◌, ◌<◌, map, Some, nat_lt};
ghost use Rattle.switch.specs.Places.{location};
ghost use Rattle.switch.specs.Cycle.{has_room, is_nearer, by_escape, next_buffer, granting, entry_of};
ghost use Rattle.cycle.specs.Starts.{network_in, snapshot, request_in, requests_in};

use crate::Start;
use crate::visit::Visit;
use arbiter::Entry;
use arrayvec::ArrayVec;
use network::Routing;
use queue::Packet;
use switch::Grant;

impl<'a, 'b, R: Routing> Start<'a, 'b, R> {
    // Whether the buffer `b` has room. That `b` is one of the plan's stands in clauses, here and in three functions more: a
    // type for such a number would be no plainer.
    fn has_room(&self, b: usize) -> bool
        requires { b < self.now.plan.now.sizes.buffers }
        ensures { result ≡ has_room (snapshot self.now) b }
    {
        is_below(self.queues.len(b), self.plan.sizes.depth)
    }

    // Whether the link of `n` by port `p` leads one nearer to `d`.
    fn is_nearer(&self, n: usize, p: usize, d: usize) -> bool
        ensures { result ≡ is_nearer (network_in self.now) n d ((network_in self.now).link n p) }
    {
        let routing = self.plan.routing;
        routing
            .link(n, p)
            .is_some_and(|m| routing.distance(m, d) + 1 == routing.distance(n, d))
    }

    // The grant that moves a packet from buffer `b` to buffer `new`. Its number goes by `as`, since a `u32` makes no `usize` by
    // `From`.
    fn granting(&self, packet: Packet, b: usize, new: usize) -> Grant
        ensures { Some result ≡ granting (snapshot self.now) b packet (Some new) }
    {
        Grant {
            cycle: self.cycle,
            packet: packet.number as usize,
            old: b,
            new,
        }
    }
}

// Whether a buffer that holds so many packets has a slot left. A function of its own, so that it proves without a file, as
// `next_for` and, beside the decisions, `choose`.
fn is_below(count: usize, depth: usize) -> bool
    ensures { result ≡ nat_lt count depth }
{
    count < depth
}

impl<'a, 'b, 'c, R: Routing> Visit<'a, 'b, 'c, R> {
    // The buffer of the escape channel of a packet for `d`, if it is a channel of the port, which does not deliver, and has room.
    fn by_escape(&self, d: usize) -> Option<usize>
        requires { self.now.port < self.now.start.now.plan.now.sizes.ports }
        ensures { result ≡ by_escape (snapshot self.now.start.now) self.now.node self.now.port ((network_in self.now.start.now).escape self.now.node d) }
    {
        let hop = self.start.plan.routing.escape(self.node, d)?;
        if hop.port != self.port {
            return None;
        }
        let b = self
            .start
            .plan
            .sizes
            .channel_buffer(self.node, self.port, hop.class + 1);
        self.start.has_room(b).then_some(b)
    }

    // The buffer that a packet for `d` joins by the port; the number of buffers where it is delivered, since a trace is
    // written so; none where it may not use the port.
    fn next_buffer(&self, d: usize) -> Option<usize>
        ensures { result ≡ next_buffer (snapshot self.now.start.now) self.now.node self.now.port d }
    {
        let sizes = self.start.plan.sizes;
        if self.port == sizes.ports {
            return (d == self.node).then_some(sizes.buffers);
        }
        let adaptive = sizes.channel_buffer(self.node, self.port, 0);
        if self.start.is_nearer(self.node, self.port, d) && self.start.has_room(adaptive) {
            return Some(adaptive);
        }
        self.by_escape(d)
    }

    // The buffer that a packet joins. Where it came from and what it has done so far does not matter.
    fn next_for(&self, packet: Packet) -> Option<usize>
        ensures { result ≡ next_buffer (snapshot self.now.start.now) self.now.node self.now.port packet.destination }
    {
        self.next_buffer(usize::from(packet.destination))
    }

    // The grant that the buffer `b`, which stands at the node, requests.
    pub fn request(&self, b: usize) -> Option<Grant>
        requires buffer { b < self.now.start.now.plan.now.sizes.buffers }
        requires stands { location (network_in self.now.start.now) b ≡ Some self.now.node }
        ensures { result ≡ request_in self.now b }
    {
        if self.granted[b] {
            return None;
        }
        let packet = self.start.queues.front(self.start.plan.sizes.depth, b)?;
        let new = self.next_for(packet)?;
        Some(self.start.granting(packet, b, new))
    }

    // The entries of all buffers that request the port, in rising order. The next buffer of the chain is read before this one is
    // asked, so that the processor need not wait for it.
    pub fn requests(&self, entries: &mut ArrayVec<Entry, 2048>)
        ensures { entries.new.items ≡ map entry_of (requests_in self.now) }
    {
        entries.clear();
        let mut next = self.start.standing.first_at(self.node);
        while let Some(b) = next {
            next = self.start.standing.next_after(b);
            if let Some(grant) = self.request(b) {
                entries.push(Entry {
                    buffer: grant.old,
                    packet: grant.packet,
                });
            }
        }
    }
}
