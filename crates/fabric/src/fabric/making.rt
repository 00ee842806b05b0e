// The making of a fabric.
ghost use Rattle.fabric.specs.Fabrics.{Made, Making, MayMake, MakeAsked};

use crate::body::Body;
use crate::fabric::{Fabric, NotMade};
use crate::refusal::Refusal;
use arbiter::Arbiter;
use cycle::{Plan, Scratch, Sizes, Standing};
use network::Routing;
use table::Table;

// An empty fabric over the routing, whose runs keep the law; or a refusal, with routing and arbiter as they were.
pub fn make<R: Routing, A: Arbiter>(
    routing: R,
    arbiter: A,
    depth: usize,
) -> Result<Fabric<R, A>, NotMade<R, A>>
    ensures { Making (R.meaning routing) A.rule depth routing arbiter result }
{
    if let Err(refusal) = may_make(&routing, depth) {
        return Err(NotMade {
            routing,
            arbiter,
            refusal,
        });
    }
    Ok(made(routing, arbiter, depth))
}

// Has the routing nodes, is the depth 1 to 4, and have the buffers at most 2,048 slots together?
fn may_make<R: Routing>(routing: &R, depth: usize) -> Result<(), Refusal>
    ensures { MakeAsked (R.meaning routing.now) depth result }
{
    if routing.nodes() == 0 {
        return Err(Refusal::NoNodes);
    }
    if depth == 0 || depth > 4 {
        return Err(Refusal::Depth);
    }
    if Sizes::of(routing, depth).buffers * depth > 2048 {
        return Err(Refusal::Slots);
    }
    Ok(())
}

// The fabric that no question refuses.
fn made<R: Routing, A: Arbiter>(routing: R, arbiter: A, depth: usize) -> Fabric<R, A>
    requires { MayMake (R.meaning routing) depth }
    ensures { Made (R.meaning routing) A.rule depth routing arbiter result }
{
    let table = Table::read(&routing);
    let sizes = Sizes::of(&routing, depth);
    let standing = Standing::of(&Plan {
        routing: &routing,
        sizes,
    });
    Fabric {
        routing,
        arbiter,
        table,
        body: Body::new(sizes),
        standing,
        scratch: Scratch::new(),
    }
}
