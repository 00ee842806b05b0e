// The answers of a routing in arrays of bytes, since no answer is above 128.

use crate::row::Row;

// The most nodes, ports and escape classes that a network has.
pub const NODES: usize = 64;

pub const PORTS: usize = 6;

pub const CLASSES: usize = 2;

// The port and the class of an escape.
#[derive(Clone, Copy)]
pub struct Channel {
    pub port: u8,
    pub class: u8,
}

// A link stands at its node and port, a distance and the channel of an escape at the node and the destination, and a
// rank at its node, port and class. The node where an escape leads is not stored: it is at the far end of the port's
// link.
#[derive(Clone, Copy)]
pub struct Answers {
    pub nodes: usize,
    pub ports: usize,
    pub classes: usize,
    pub ceiling: usize,
    pub links: Row<Row<Option<u8>, PORTS>, NODES>,
    pub distances: Row<Row<u8, NODES>, NODES>,
    pub escapes: Row<Row<Option<Channel>, NODES>, NODES>,
    pub ranks: Row<Row<Row<u8, CLASSES>, PORTS>, NODES>,
}
