use arbiter::{Arbiter, Entry, Lowest, Oldest, Policy, Rotating, is_proper};
use std::array;
use std::process::Abort;

// A question for a link about the entries from a place up to another, and the answer that it should get.
type Case = (usize, usize, usize, Option<usize>);

// No arbiter answers these.
const IMPROPER: [Case; 8] = [
    (448, 0, 1, None),
    (usize::MAX, 0, 1, None),
    (0, 0, 0, None),
    (0, 5, 7, None),
    (0, 6, 8, None),
    (0, 0, 7, None),
    (0, 8, 9, None),
    (447, 7, 10, None),
];

const LOWEST: [Case; 4] = [
    (0, 0, 3, Some(0)),
    (0, 0, 3, Some(0)),
    (0, 5, 6, Some(0)),
    (447, 1, 6, Some(0)),
];

// Link 9 goes round the buffers 3, 4 and 5, then meets other lists. Link 10 has a memory of its own, and the improper
// lists in between leave both as they are.
const ROTATING: [Case; 17] = [
    (9, 0, 3, Some(0)),
    (9, 0, 3, Some(1)),
    (10, 0, 3, Some(0)),
    (9, 0, 3, Some(2)),
    (457, 0, 3, None),
    (10, 0, 0, None),
    (9, 5, 7, None),
    (9, 0, 3, Some(0)),
    (10, 0, 3, Some(1)),
    (9, 2, 6, Some(0)),
    (9, 0, 6, Some(3)),
    (9, 3, 5, Some(1)),
    (9, 0, 4, Some(0)),
    (9, 0, 1, Some(0)),
    (10, 0, 1, Some(0)),
    (10, 0, 3, Some(1)),
    (447, 1, 6, Some(0)),
];

const OLDEST: [Case; 6] = [
    (0, 0, 6, Some(4)),
    (0, 0, 4, Some(1)),
    (0, 2, 4, Some(1)),
    (0, 0, 1, Some(0)),
    (0, 4, 6, Some(0)),
    (447, 1, 4, Some(0)),
];

// The lists of the tables are parts of this one. The first six entries rise; then come an equal neighbour, a fall, and
// two buffers out of range.
fn listed() -> [Entry; 10] {
    [
        (3, 30),
        (4, 20),
        (5, 40),
        (6, 20),
        (7, 10),
        (2047, 10),
        (2047, 9),
        (59, 8),
        (2048, 7),
        (2049, 6),
    ]
    .map(|(buffer, packet)| Entry { buffer, packet })
}

// Puts the questions to one arbiter, in their order.
fn replay<A: Arbiter>(rt: &impl Abort, arbiter: &mut A, cases: &[Case]) {
    let entries = listed();
    for &(link, from, to, answer) in cases {
        assert!(rt; from <= to && to <= 10);
        assert_eq!(rt; arbiter.grant(link, &entries[from..to]), answer);
    }
}

// The test of a list answers yes or no to each question alike.
fn tested(rt: &impl Abort, cases: &[Case], proper: bool) {
    let entries = listed();
    for &(link, from, to, _) in cases {
        assert!(rt; from <= to && to <= 10);
        assert_eq!(rt; is_proper(link, &entries[from..to]), proper);
    }
}

#[test]
fn proper_lists(rt: HostRuntime) {
    tested(&rt, &IMPROPER, false);
    tested(&rt, &LOWEST, true);
    tested(&rt, &OLDEST, true);
}

// Every buffer asks; with one more there is no proper list.
#[test]
fn longest_list(rt: HostRuntime) {
    let all: [Entry; 2049] = array::from_fn(|buffer| Entry { buffer, packet: 7 });
    let longest = all.get(..2048);
    assert!(rt; longest.is_some_and(|entries| is_proper(447, entries)));
    assert!(rt; !is_proper(447, &all));
}

#[test]
fn lowest_grants(rt: HostRuntime) {
    replay(&rt, &mut Lowest, &LOWEST);
    replay(&rt, &mut Lowest, &IMPROPER);
}

#[test]
fn rotating_grants(rt: HostRuntime) {
    let mut arbiter = Rotating::new();
    replay(&rt, &mut arbiter, &IMPROPER);
    replay(&rt, &mut arbiter, &ROTATING);
}

#[test]
fn oldest_grants(rt: HostRuntime) {
    replay(&rt, &mut Oldest, &OLDEST);
    replay(&rt, &mut Oldest, &IMPROPER);
}

#[test]
fn policy_grants(rt: HostRuntime) {
    replay(&rt, &mut Policy::Lowest(Lowest), &LOWEST);
    replay(&rt, &mut Policy::Rotating(Rotating::new()), &ROTATING);
    replay(&rt, &mut Policy::Oldest(Oldest), &OLDEST);
    replay(&rt, &mut Policy::Rotating(Rotating::new()), &IMPROPER);
}
