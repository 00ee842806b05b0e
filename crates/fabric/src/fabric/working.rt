// The work that is left.
ghost use Rattle.std.specs.Prelude.{◌≡◌, ◌<◌, ◌≤◌, sum_by, Option};
ghost use Rattle.queue.specs.Contents.{contents};
ghost use Rattle.switch.specs.Buffers.{distance_from, packet_work, work_left};
ghost use Rattle.fabric.specs.Fabrics.{network_in, depth_in, state_of};

use crate::fabric::Fabric;
use arbiter::Arbiter;
use cycle::Plan;
use network::Routing;

impl<R: Routing, A: Arbiter> Fabric<R, A> {
    // The work of the packets of all buffers.
    pub(super) fn total_work(&self) -> usize
        ensures value { result ≡ work_left (network_in self.now) (state_of self.now).buffers }
        ensures small { result ≤ 532480 }
    {
        (0..self.body.sizes.buffers)
            .map(|b| self.buffer_work(b))
            .sum()
    }

    // The work of the packets of the buffer `b`.
    fn buffer_work(&self, b: usize) -> usize
        requires { b < self.now.body.sizes.buffers }
        ensures { result ≡ sum_by (packet_work (network_in self.now) b) (contents self.now.body.queues (depth_in self.now) b) }
    {
        let plan = Plan {
            routing: &self.table,
            sizes: self.body.sizes,
        };
        let at = plan.location(b);
        self.body
            .queues
            .packets(self.body.sizes.depth, b)
            .map(|packet| self.distance_from(at, usize::from(packet.destination)) + 1)
            .sum()
    }

    // The distance to `d` from where a packet stands.
    fn distance_from(&self, at: Option<usize>, d: usize) -> usize
        ensures value { result ≡ distance_from (network_in self.now) at d }
        ensures small { result ≤ 64 }
    {
        at.map_or(0, |n| self.table.distance(n, d))
    }
}
