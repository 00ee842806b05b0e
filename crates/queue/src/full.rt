// Why a push fails: the buffer has no room.
ghost use Rattle.std.specs.Prelude.{Some, codes};

use std::error::Error;
use std::fmt;

#[derive(Clone, Copy, Debug, PartialEq, Eq)]
pub struct Full;

// By hand, since a derived one has no contract, and this one promises the text.
impl fmt::Display for Full {
    ghost output = { λ _. Some (codes "the buffer has no room") };

    fn fmt<W: fmt::Write>(&self, f: &mut fmt::Formatter<W>) -> fmt::Result {
        f.write_str("the buffer has no room")
    }
}

impl Error for Full {}
