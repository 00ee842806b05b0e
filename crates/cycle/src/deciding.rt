// The decisions of a cycle.
ghost use Rattle.std.specs.Prelude.{◌≡◌, ◌+◌, ◌*◌, ◌<◌, ◌≤◌, false, [], IfSome, length, replicate};
ghost use Rattle.arbiter.specs.Rule.{Granted};
ghost use Rattle.switch.specs.Cycle.{chosen, next_arbiter, requests};
ghost use Rattle.cycle.specs.Measures.{visit_of};
ghost use Rattle.cycle.specs.Starts.{network_in, snapshot, visit_in, requests_in};
ghost use Rattle.cycle.specs.Decided.{Decided};

use crate::visit::Visit;
use crate::{Plan, Start};
use arbiter::{Arbiter, Entry};
use arrayvec::ArrayVec;
use network::Routing;
use switch::Grant;

// What a cycle writes while it decides: which buffers have a grant, and the requests of one visit.
#[derive(Clone, Drop)]
pub struct Scratch {
    granted: [bool; 2048],
    entries: ArrayVec<Entry, 2048>,
}

impl Scratch {
    // Room for the largest network. What it holds before a cycle means nothing.
    pub fn new() -> Self
        ensures granted { result.granted ≡ replicate 2048 false }
        ensures entries { result.entries.items ≡ [] }
    {
        Scratch {
            granted: [false; 2048],
            entries: ArrayVec::new(),
        }
    }
}

impl<'a, 'b, 'c, R: Routing> Visit<'a, 'b, 'c, R> {
    // The request that the arbiter grants, if there is one.
    fn decide<A: Arbiter>(
        &self,
        arbiter: &mut A,
        entries: &mut ArrayVec<Entry, 2048>,
    ) -> Option<Grant>
        ensures answer { result ≡ chosen (network_in self.now.start.now) A.rule (visit_in self.now) arbiter.old (requests_in self.now) }
        ensures after { arbiter.new ≡ next_arbiter (network_in self.now.start.now) A.rule (visit_in self.now) arbiter.old (requests_in self.now) }
        ensures old { IfSome result (λ g. g.old < self.now.start.now.plan.now.sizes.buffers) }
    {
        self.requests(entries);
        let entries = entries.as_slice();
        if entries.is_empty() {
            return None;
        }
        let link = self.node * (self.start.plan.sizes.ports + 1) + self.port;
        let place = choose(arbiter, link, entries)?;
        self.request(entries[place].buffer)
    }
}

// The place of the entry to which the arbiter grants the link.
fn choose<A: Arbiter>(arbiter: &mut A, link: usize, entries: &[Entry]) -> Option<usize>
    ensures { Granted A.rule arbiter.old arbiter.new link entries.now result }
{
    arbiter.grant(link, entries)
}

impl<'a, 'b, R: Routing> Start<'a, 'b, R> {
    // Decides the grants of the cycle, and writes them at the front of the trace. Answers how many there are.
    pub fn decide<A: Arbiter>(
        &self,
        arbiter: &mut A,
        scratch: &mut Scratch,
        trace: &mut [Grant],
    ) -> usize
        requires room { self.now.plan.now.sizes.nodes * (self.now.plan.now.sizes.ports + 1) ≤ length trace.old }
        ensures { Decided (snapshot self.now) A.rule arbiter.old arbiter.new trace.old trace.new result }
    {
        // Copies, which the visits read faster than what is lent twice.
        let plan = Plan {
            routing: self.plan.routing,
            sizes: self.plan.sizes,
        };
        let start = Start {
            plan: &plan,
            standing: self.standing,
            queues: self.queues,
            cycle: self.cycle,
        };
        start.visit_all(arbiter, &mut scratch.granted, &mut scratch.entries, trace)
    }

    // The same, with marks for the buffers that have a grant, and room for the requests of a visit. A function of its own,
    // since a part of a field is not lent beside another field (tried).
    fn visit_all<A: Arbiter>(
        &self,
        arbiter: &mut A,
        granted: &mut [bool],
        entries: &mut ArrayVec<Entry, 2048>,
        trace: &mut [Grant],
    ) -> usize
        requires flags { self.now.plan.now.sizes.buffers ≤ length granted.old }
        requires room { self.now.plan.now.sizes.nodes * (self.now.plan.now.sizes.ports + 1) ≤ length trace.old }
        ensures { Decided (snapshot self.now) A.rule arbiter.old arbiter.new trace.old trace.new result }
    {
        let granted = &mut granted[..self.plan.sizes.buffers];
        granted.fill(false);
        // The front of the lent slice is written, a form that is fixed: the count is the next place in it, and the answer.
        let mut count = 0;
        for node in 0..self.plan.sizes.nodes {
            for port in 0..self.plan.sizes.ports + 1 {
                let visit = Visit {
                    start: self,
                    granted,
                    node,
                    port,
                };
                // The visit ends before a mark is set.
                let decision = visit.decide(arbiter, entries);
                drop(visit);
                if let Some(grant) = decision {
                    granted[grant.old] = true;
                    trace[count] = grant;
                    count += 1;
                }
            }
        }
        count
    }
}
