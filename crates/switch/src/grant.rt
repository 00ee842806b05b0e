// One grant, as the trace of a cycle lists it: the number of the cycle, counted from 0; the number of the packet; the
// buffer that the packet leaves; and the buffer that it joins, or the number of buffers where it is delivered: a number, and
// no `Option`, since the form of a trace is fixed.
#[derive(Clone, Copy, PartialEq, Eq, Default, Debug)]
pub struct Grant {
    pub cycle: usize,
    pub packet: usize,
    pub old: usize,
    pub new: usize,
}
