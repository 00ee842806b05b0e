// One buffer that asks for a link, and the number of its first packet.
#[derive(Clone, Copy, PartialEq, Eq, Debug, Default)]
pub struct Entry {
    pub buffer: usize,
    pub packet: usize,
}
