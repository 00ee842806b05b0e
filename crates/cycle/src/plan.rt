// The plan of a switch.
ghost use Rattle.cycle.specs.Measures.{Fits};

use crate::Sizes;
use network::Routing;

// A routing and its sizes, which fit it: every buffer has its slots.
pub struct Plan<'a, R: Routing> {
    pub routing: &'a R,
    pub sizes: Sizes,
    ghost fits: { Fits (R.meaning routing.now) sizes },
}

// By hand, since a derive would ask the routing to be `Drop`, and none makes a struct with ghost fields `Copy` for every
// routing.
impl<'a, R: Routing> Drop for Plan<'a, R> {
    fn drop(self) {
        let Plan {
            routing: _,
            sizes: _,
        } = self;
    }
}
