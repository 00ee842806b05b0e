// What a cycle decides from.
ghost use Rattle.queue.specs.Contents.{Sound};
ghost use Rattle.cycle.specs.Chains.{Stands};

use crate::{Plan, Standing};
use network::Routing;
use queue::Queues;

// The plan, and the buffers that stand at each node; what the buffers hold at the start of the cycle; and the cycle's
// number.
pub struct Start<'a, 'b, R: Routing> {
    pub plan: &'b Plan<'a, R>,
    pub standing: &'b Standing,
    pub queues: &'b Queues,
    pub cycle: usize,
    ghost stands: { Stands (R.meaning plan.now.routing.now) standing.now },
    ghost sound: { Sound queues.now plan.now.sizes.depth },
}

// By hand, since a derive would ask the routing to be `Drop`, and none makes a struct with ghost fields `Copy` for every
// routing.
impl<'a, 'b, R: Routing> Drop for Start<'a, 'b, R> {
    fn drop(self) {
        let Start {
            plan: _,
            standing: _,
            queues: _,
            cycle: _,
        } = self;
    }
}
