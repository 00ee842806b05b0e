// The making of a labelling from bytes.
ghost use Rattle.std.specs.Prelude.{◌≡◌, ℕ, ◌<◌, length, MatchOption, MatchResult, ◌≢◌, slice_index};
ghost use Rattle.relabelling.specs.Labels.{Counted, Within, Once, Refused, Listed, Labelled};

use crate::LabellingRefusal;
use crate::labelling::Labelling;

// There are 2 to 64 bytes.
fn check_count(bytes: &[u8]) -> Result<(), LabellingRefusal>
    ensures { MatchResult result (λ _. Counted bytes.now) (Refused bytes.now) }
{
    let count = bytes.len();
    if (2..=64).contains(&count) {
        Ok(())
    } else {
        Err(LabellingRefusal::Count { count })
    }
}

// Each position is less than the number of labels. It is asked of bytes that passed the check before, since a refusal says
// so; `check_once` and `listing` likewise.
fn check_within(bytes: &[u8]) -> Result<(), LabellingRefusal>
    requires { Counted bytes.now }
    ensures { MatchResult result (λ _. Within bytes.now) (Refused bytes.now) }
{
    for (label, &position) in bytes.iter().enumerate() {
        let position = usize::from(position);
        if position >= bytes.len() {
            return Err(LabellingRefusal::Outside { label, position });
        }
    }
    Ok(())
}

// The first label before `second` that has the same position.
fn same_before(bytes: &[u8], second: usize) -> Option<usize>
    requires { second < length bytes.now }
    ensures { MatchOption result ((i : ℕ) → i < second → slice_index bytes.now i ≢ slice_index bytes.now second) (λ i. (i < second) × (slice_index bytes.now i ≡ slice_index bytes.now second)) }
{
    bytes[..second]
        .iter()
        .position(|before| *before == bytes[second])
}

// No position stands twice. A loop over the second label, since the answer is both; one nested search was tried, and proved
// only at the full limits of the search.
fn check_once(bytes: &[u8]) -> Result<(), LabellingRefusal>
    requires counted { Counted bytes.now }
    requires within { Within bytes.now }
    ensures { MatchResult result (λ _. Once bytes.now) (Refused bytes.now) }
{
    for second in 0..bytes.len() {
        if let Some(first) = same_before(bytes, second) {
            return Err(LabellingRefusal::Repeated { first, second });
        }
    }
    Ok(())
}

// The labelling of bytes that passed all three checks.
fn listing(bytes: &[u8]) -> Labelling
    requires counted { Counted bytes.now }
    requires within { Within bytes.now }
    requires once { Once bytes.now }
    ensures { Listed bytes.now result }
{
    let count = bytes.len();
    let mut positions = [0; 64];
    positions[..count].copy_from_slice(bytes);
    Labelling { count, positions }
}

impl Labelling {
    // The labelling that lists exactly the bytes, or the first fault, each looked for in all the bytes before the next:
    // there are not 2 to 64 of them; one is not less than their number; one stands twice.
    pub fn new(bytes: &[u8]) -> Result<Labelling, LabellingRefusal>
        ensures { Labelled bytes.now result }
    {
        check_count(bytes)?;
        check_within(bytes)?;
        check_once(bytes)?;
        Ok(listing(bytes))
    }
}
