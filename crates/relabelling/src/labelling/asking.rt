// The questions of a labelling.
ghost use Rattle.std.specs.Prelude.{◌≡◌, ◌<◌, if◌then◌else◌, Some, None, nat_lt, slice_index};
ghost use Rattle.relabelling.specs.Relabels.{label_of};

use crate::labelling::Labelling;

impl Labelling {
    // How many labels there are.
    pub fn len(&self) -> usize
        ensures { result ≡ self.now.count }
    {
        self.count
    }

    // The position of `label`, which is one.
    pub(crate) fn position_of(&self, label: usize) -> usize
        requires { label < self.now.count }
        ensures { result ≡ slice_index self.now.positions label }
    {
        usize::from(self.positions[label])
    }

    // The label at `position`, or 0 where there is none.
    pub(crate) fn label_at(&self, position: usize) -> usize
        ensures { result ≡ label_of self.now.positions self.now.count position }
    {
        (0..self.count)
            .find(|&label| self.position_of(label) == position)
            .unwrap_or(0)
    }

    // The position of `label`, or none where there is no such label.
    pub fn position(&self, label: usize) -> Option<usize>
        ensures { result ≡ (if nat_lt label self.now.count then Some (slice_index self.now.positions label) else None) }
    {
        (label < self.count).then(|| self.position_of(label))
    }
}
