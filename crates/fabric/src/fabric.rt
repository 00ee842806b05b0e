// A fabric. What it holds is what some history of its calls leaves.
ghost use Rattle.std.specs.Prelude.{◌≤◌};
ghost use Rattle.table.specs.Tables.{network_of};
ghost use Rattle.queue.specs.Contents.{Sound};
ghost use Rattle.cycle.specs.Measures.{Fits};
ghost use Rattle.cycle.specs.Chains.{Stands};
ghost use Rattle.fabric.specs.Bodies.{Reached};

use crate::body::Body;
use crate::refusal::Refusal;
use cycle::{Scratch, Standing};
use table::Table;

// The routing and the arbiter as they were handed over; the routing's answers in a table, on which the calls run; the body;
// and the buffers that stand at each node. Sizes and chains are those of the table's network, the queues are sound, and
// the state is what some history leaves, where the bars make a proposition of it, as a ghost field must be.
#[derive(Drop)]
pub struct Fabric<R, A> {
    routing: R,
    arbiter: A,
    table: Table,
    body: Body,
    standing: Standing,
    scratch: Scratch,
    ghost fits: { Fits (network_of table) body.sizes },
    ghost stands: { Stands (network_of table) standing },
    ghost sound: { Sound body.queues body.sizes.depth },
    ghost reached: { ∥ Reached (network_of table) arbiter body ∥₁ },
    ghost few: { body.taken ≤ 60000 },
}

// What a refused `make` hands back.
#[derive(Drop)]
pub struct NotMade<R, A> {
    pub routing: R,
    pub arbiter: A,
    pub refusal: Refusal,
}

mod cycling;
mod feeding;
mod making;
mod reporting;
mod working;

pub use making::make;
