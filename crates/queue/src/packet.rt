// A packet: its number, counted from 0 in the order in which packets are taken in; the nodes that it comes from and goes
// to; the hops that it has made.
#[derive(Clone, Copy, PartialEq, Eq, Debug)]
pub struct Packet {
    pub number: u32,
    pub source: u8,
    pub destination: u8,
    pub hops: u8,
}
