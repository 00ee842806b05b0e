// Why words are no command.
ghost use Rattle.std.specs.Prelude.{◌≡◌};
ghost use Rattle.traceroute.specs.declared.word_error.WordError.TheVariants.{OutOfMemory};

use std::alloc::AllocFailed;
use thiserror::Error;

#[derive(Clone, Copy, PartialEq, Eq, Debug, Error)]
pub enum WordError {
    // The first word names no shape, or there is none.
    #[error("the first word must be line, ring, tree, mesh, torus or cylinder")]
    NoShape,
    // The word at `place`, counted from the shape's at 0, is the first that is no number.
    #[error("word {place} after the shape is not a number")]
    NoNumber { place: usize },
    // There are more or fewer numbers than the shape's `sizes` and two nodes.
    #[error("after the shape there must be its sizes, {sizes} of them, and two nodes")]
    WrongCount { sizes: usize },
    #[error("out of memory")]
    OutOfMemory,
}

// By hand, since a derived one has no contract, and the clauses name `OutOfMemory`.
impl<T: Drop> From<AllocFailed<T>> for WordError {
    ghost from_gives = { λ refused r. r ≡ OutOfMemory };

    fn from(_refused: AllocFailed<T>) -> Self {
        WordError::OutOfMemory
    }
}
