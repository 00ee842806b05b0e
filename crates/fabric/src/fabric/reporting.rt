// What a fabric tells of itself.
ghost use Rattle.std.specs.Prelude.{◌≡◌, ◌≤◌};
ghost use Rattle.switch.specs.Buffers.{work_left};
ghost use Rattle.switch.specs.Calls.{inside, report_of};
ghost use Rattle.fabric.specs.Fabrics.{network_in, state_of};

use crate::fabric::Fabric;
use arbiter::Arbiter;
use network::Routing;
use switch::Report;

impl<R: Routing, A: Arbiter> Fabric<R, A> {
    // The routing that the fabric was made with.
    pub fn routing(&self) -> &R
        ensures { result.now ≡ self.now.routing }
    {
        &self.routing
    }

    // The work left. The sum is apart, so that this proves without a file.
    pub fn work(&self) -> usize
        ensures value { result ≡ work_left (network_in self.now) (state_of self.now).buffers }
        ensures small { result ≤ 532480 }
    {
        self.total_work()
    }

    // How many packets are inside.
    pub fn inside(&self) -> usize
        ensures { result ≡ inside (state_of self.now) }
    {
        self.body.taken.saturating_sub(self.body.delivered)
    }
}

impl<R: Routing + Drop, A: Arbiter + Drop> Fabric<R, A> {
    // What the fabric has done. It takes the fabric for good.
    pub fn report(self) -> Report
        ensures { result ≡ report_of (state_of self) }
    {
        Report {
            taken: self.body.taken,
            delivered: self.body.delivered,
            hops: self.body.hops,
            cycles: self.body.cycles,
            inside: self.inside(),
        }
    }
}
