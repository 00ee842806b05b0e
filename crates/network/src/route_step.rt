// What a traced route is made of, and why there may be none.
ghost use Rattle.std.specs.Prelude.{◌≡◌, Some};
ghost use Rattle.network.specs.declared.route_step.RouteError.TheVariants.{OutOfMemory};
ghost use Rattle.network.specs.Texts.{step_text};

use std::alloc::AllocFailed;
use std::fmt;

// One step of a route: from `node`, by an escape channel of this port, class and rank, to `next`.
#[derive(Clone, Copy, PartialEq, Eq, Debug)]
pub struct RouteStep {
    pub node: usize,
    pub port: usize,
    pub class: usize,
    pub rank: usize,
    pub next: usize,
}

// A step is written as its five numbers, in the order of the fields.
impl fmt::Display for RouteStep {
    ghost output = { λ s. Some (step_text s) };

    fn fmt<W: fmt::Write>(&self, f: &mut fmt::Formatter<W>) -> fmt::Result {
        let RouteStep {
            node,
            port,
            class,
            rank,
            next,
        } = *self;
        write!(f, "{node} {port} {class} {rank} {next}")
    }
}

// Why a route is not traced: its start or its end is no node, or memory is out.
#[derive(Clone, Copy, PartialEq, Eq, Debug)]
pub enum RouteError {
    NoStart,
    NoEnd,
    OutOfMemory,
}

// By hand, since a derived one has no contract, and the clauses name `OutOfMemory`.
impl<T: Drop> From<AllocFailed<T>> for RouteError {
    ghost from_gives = { λ refused r. r ≡ OutOfMemory };

    fn from(_refused: AllocFailed<T>) -> Self {
        RouteError::OutOfMemory
    }
}
