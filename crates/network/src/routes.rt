// Following the escape channels from one node to another.
ghost use Rattle.std.specs.Prelude.{◌≡◌, ◌<◌};
ghost use Rattle.network.specs.Routes.{Routed, step_by};
ghost use Rattle.std.specs.Option.{option_map};

use crate::{Hop, RouteError, RouteStep, Routing};
use std::alloc::Global;

// The step that escape takes from `node` towards `end`, with its rank.
fn next_step<R: Routing>(routing: &R, node: usize, end: usize) -> Option<RouteStep>
    ensures { result ≡ option_map (step_by (R.meaning routing.now) node) ((R.meaning routing.now).escape node end) }
{
    let Hop { port, class, next } = routing.escape(node, end)?;
    Some(RouteStep {
        node,
        port,
        class,
        rank: routing.rank(node, port, class),
        next,
    })
}

// The steps from `start` to `end`, which are nodes.
fn steps_between<R: Routing>(
    heap: Global,
    routing: &R,
    start: usize,
    end: usize,
) -> Result<Vec<RouteStep>, RouteError>
    requires { (start < (R.meaning routing.now).nodes) × (end < (R.meaning routing.now).nodes) }
    ensures { Routed (R.meaning routing.now) start end result }
{
    let mut steps = Vec::new(heap);
    let mut node = start;
    while let Some(step) = next_step(routing, node, end) {
        steps.push(step)?;
        node = step.next;
    }
    Ok(steps)
}

// The steps that follow escape from `start` until it names no hop. They end at `end`, are as many as the distance,
// which no walk over the links undercuts, and their ranks rise strictly. A start or an end that is no node, and want of
// memory, are errors.
pub fn route<R: Routing>(
    heap: Global,
    routing: &R,
    start: usize,
    end: usize,
) -> Result<Vec<RouteStep>, RouteError>
    ensures { Routed (R.meaning routing.now) start end result }
{
    let nodes = routing.nodes();
    if start >= nodes {
        return Err(RouteError::NoStart);
    }
    if end >= nodes {
        return Err(RouteError::NoEnd);
    }
    steps_between(heap, routing, start, end)
}
