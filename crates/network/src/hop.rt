// One hop by an escape channel: the port and the escape class that it takes, and the node where it leads.
#[derive(Clone, Copy, PartialEq, Eq, Debug)]
pub struct Hop {
    pub port: usize,
    pub class: usize,
    pub next: usize,
}
