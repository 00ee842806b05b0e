// What a switch has done: packets taken in and delivered, hops made and cycles performed; and the packets still inside.
#[derive(Clone, Copy, PartialEq, Eq, Debug)]
pub struct Report {
    pub taken: usize,
    pub delivered: usize,
    pub hops: usize,
    pub cycles: usize,
    pub inside: usize,
}
