// A visit of a port at a node, in a cycle.
ghost use Rattle.std.specs.Prelude.{◌≡◌, ◌<◌, ◌≤◌, length};

use crate::Start;
use network::Routing;

// Which buffers were granted before; and the port, which is one of the node's, or comes after them and delivers.
pub(crate) struct Visit<'a, 'b, 'c, R: Routing> {
    pub start: &'c Start<'a, 'b, R>,
    pub granted: &'c [bool],
    pub node: usize,
    pub port: usize,
    ghost node_within: { node < start.now.plan.now.sizes.nodes },
    ghost port_within: { port ≤ start.now.plan.now.sizes.ports },
    ghost flags: { length granted.now ≡ start.now.plan.now.sizes.buffers },
}

// By hand, since a derive would ask the routing to be `Drop`, and none makes a struct with ghost fields `Copy` for every
// routing.
impl<'a, 'b, 'c, R: Routing> Drop for Visit<'a, 'b, 'c, R> {
    fn drop(self) {
        let Visit {
            start: _,
            granted: _,
            node: _,
            port: _,
        } = self;
    }
}
