// The cycles of a fabric.
ghost use Rattle.std.specs.Prelude.{◌≡◌, length};
ghost use Rattle.switch.specs.Calls.{decisions};
ghost use Rattle.switch.specs.Calls.Answer.{number};
ghost use Rattle.switch.specs.Calls.Call.{cycle, drain};
ghost use Rattle.fabric.specs.Traces.{Traced};
ghost use Rattle.fabric.specs.Fabrics.{network_in, depth_in, state_of, Answered, Asked, May, numbered, Trace};

use crate::fabric::Fabric;
use crate::refusal::Refusal;
use arbiter::Arbiter;
use cycle::{Plan, Start, move_all};
use network::Routing;
use switch::{FeedState, Grant};

impl<R: Routing, A: Arbiter> Fabric<R, A> {
    // Performs one cycle, and writes its grants at the front of the trace, in order. Answers how many there are.
    pub fn cycle(&mut self, trace: &mut [Grant]) -> Result<usize, Refusal>
        ensures answered { Answered A.rule (cycle (length trace.old)) self.old self.new (numbered result) }
        ensures traced { Trace A.rule self.old trace.old trace.new result }
    {
        self.may_cycle(trace.len())?;
        Ok(self.perform_cycle(trace))
    }

    // Performs cycles until nothing is inside. Answers how many.
    pub fn drain(&mut self) -> Result<usize, Refusal>
        ensures { Answered A.rule drain self.old self.new (numbered result) }
    {
        self.may_drain()?;
        Ok(self.perform_drain())
    }

    // Has the trace room for the grants of a cycle, and were fewer than 1,000,000 cycles performed?
    fn may_cycle(&self, room: usize) -> Result<(), Refusal>
        ensures { Asked A.rule (cycle room) self.now result }
    {
        if room < self.body.sizes.nodes * (self.body.sizes.ports + 1) {
            return Err(Refusal::ShortTrace);
        }
        if self.body.cycles >= 1_000_000 {
            return Err(Refusal::CycleLimit);
        }
        Ok(())
    }

    // Performs a cycle that no question refuses: decides its grants, writes them at the front of the trace, and moves the
    // packets. With nothing inside, no port is visited.
    fn perform_cycle(&mut self, trace: &mut [Grant]) -> usize
        requires may { May (cycle (length trace.old)) self.old }
        ensures answered { Answered A.rule (cycle (length trace.old)) self.old self.new (number result) }
        ensures traced { Traced (decisions (network_in self.old) A.rule (depth_in self.old) (state_of self.old)).grants trace.old trace.new result }
    {
        if self.inside() == 0 {
            self.body.cycles += 1;
            return 0;
        }
        let plan = Plan {
            routing: &self.table,
            sizes: self.body.sizes,
        };
        let start = Start {
            plan: &plan,
            standing: &self.standing,
            queues: &self.body.queues,
            cycle: self.body.cycles,
        };
        let count = start.decide(&mut self.arbiter, &mut self.scratch, trace);
        drop(start);
        drop(plan);
        let delivered = move_all(&mut self.body.queues, self.body.sizes, &trace[0..count]);
        self.body.delivered += delivered;
        self.body.hops += count - delivered;
        self.body.cycles += 1;
        count
    }

    // Is the feed closed, and do the cycles performed and the work left make at most 1,000,000?
    fn may_drain(&self) -> Result<(), Refusal>
        ensures { Asked A.rule drain self.now result }
    {
        if self.body.feed != FeedState::Closed {
            return Err(Refusal::NotClosed);
        }
        if self.body.cycles > 1_000_000 - self.work() {
            return Err(Refusal::CycleLimit);
        }
        Ok(())
    }

    // Performs a drain that no question refuses.
    fn perform_drain(&mut self) -> usize
        requires may { May drain self.old }
        ensures { Answered A.rule drain self.old self.new (number result) }
    {
        // Room for the grants of the largest network.
        let mut trace = [Grant::default(); 448];
        let mut count = 0;
        while self.inside() > 0 {
            let _ = self.perform_cycle(&mut trace);
            count += 1;
        }
        count
    }
}
