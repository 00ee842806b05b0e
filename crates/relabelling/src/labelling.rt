// A labelling is a permutation of nodes: each label has a position, and no two share one.
ghost use Rattle.std.specs.Prelude.{◌≡◌, ℕ, ◌<◌, ◌≤◌, ◌≢◌, slice_index};

// The positions of the labels 0, 1 and so on stand in front; what is behind the first `count` means nothing. Kept as an
// array and a count, since a labelling is copied and uses no heap: a `Vec` and an `ArrayVec` are not `Copy`.
#[derive(Clone, Copy)]
pub struct Labelling {
    count: usize,
    positions: [u8; 64],
    ghost few: { (2 ≤ count) × (count ≤ 64) },
    ghost within: { (i : ℕ) → i < count → slice_index positions i < count },
    ghost once: { (i j : ℕ) → i < j → j < count → slice_index positions i ≢ slice_index positions j },
}

mod asking;
mod making;
