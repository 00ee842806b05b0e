// Rows of answers.
ghost use Rattle.std.specs.Prelude.{◌≡◌};
ghost use Rattle.std.specs.Option.{option_copied};
ghost use Rattle.table.specs.Rows.{Filled, at, cell};

use std::array;

// An array. It is a struct since the check does not cover a literal of `Answers` with arrays of arrays.
#[derive(Clone, Copy)]
pub struct Row<T, const SIZE: usize> {
    cells: [T; SIZE],
}

impl<T, const SIZE: usize> Row<T, SIZE> {
    // The row of what `answer` gives at each place.
    pub fn filled<F: Fn(usize) -> T>(answer: F) -> Row<T, SIZE>
        requires { F.IsAlwaysCallable answer }
        ensures { Filled result (F.post answer) }
    {
        Row {
            cells: array::from_fn(answer),
        }
    }

    // What stands at a place, if there is such a place.
    pub fn get(&self, place: usize) -> Option<&T>
        ensures { option_copied result ≡ at place self.now }
    {
        self.cells.get(place)
    }
}

impl<T, const WIDTH: usize, const HEIGHT: usize> Row<Row<T, WIDTH>, HEIGHT> {
    // What stands in column `d` of row `n`, if they are there.
    pub fn cell(&self, n: usize, d: usize) -> Option<&T>
        ensures { option_copied result ≡ cell self.now n d }
    {
        self.get(n)?.get(d)
    }
}
