// The route of a command.
ghost use Rattle.traceroute.specs.Traces.{Traced};

use crate::command::Command;
use crate::trace_error::TraceError;
use network::{RouteError, RouteStep, Routing, route};
use std::alloc::Global;

// The steps of the escape route between the two nodes of the command, as many as their distance, with rising ranks; or
// why there is none: the sizes are unusable, the start or else the end is no node, or memory is out.
pub fn traced(heap: Global, command: &Command) -> Result<Vec<RouteStep>, TraceError>
    ensures { Traced command.now result }
{
    let nodes = command.shape.nodes();
    if nodes == 0 {
        return Err(TraceError::Unusable { name: command.name });
    }
    route(heap, &command.shape, command.start, command.end).map_err(|error| match error {
        RouteError::NoStart => TraceError::NoNode {
            node: command.start,
            nodes,
        },
        RouteError::NoEnd => TraceError::NoNode {
            node: command.end,
            nodes,
        },
        RouteError::OutOfMemory => TraceError::OutOfMemory,
    })
}
