// Tables: stored answers that keep the laws of a routing.
ghost use Rattle.network.specs.Laws.{Lawful};
ghost use Rattle.table.specs.Stored.{stored_network};

use crate::answers::Answers;

// All answers of a routing. The bars make a proposition of the laws, as a ghost field must be.
#[derive(Clone, Copy)]
pub struct Table {
    answers: Answers,
    ghost lawful: { ∥ Lawful (stored_network answers) ∥₁ },
}

mod asking;
mod making;
