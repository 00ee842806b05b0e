// The numbers of a network that a cycle uses again and again.
ghost use Rattle.std.specs.Prelude.{◌≡◌, ◌+◌, ◌*◌, ◌<◌};
ghost use Rattle.cycle.specs.Measures.{Measured, Bounded};

use network::Routing;

// The nodes, the ports of each, the channels of each link, the buffers, and the depth of each buffer.
#[derive(Clone, Copy)]
pub struct Sizes {
    pub nodes: usize,
    pub ports: usize,
    pub channels: usize,
    pub buffers: usize,
    pub depth: usize,
}

impl Sizes {
    // The sizes of a routing, for buffers of a depth.
    #[tactic(auto, using(crate::proofs::Fitting::buffer_count_is))]
    pub fn of<R: Routing>(routing: &R, depth: usize) -> Self
        ensures { Measured (R.meaning routing.now) depth result }
    {
        let nodes = routing.nodes();
        let ports = routing.ports();
        let channels = routing.classes() + 1;
        Sizes {
            nodes,
            ports,
            channels,
            buffers: nodes * ports * channels + nodes,
            depth,
        }
    }

    // The buffer of channel `c` of the link that leaves node `n` by port `p`.
    #[tactic(auto, using(crate::proofs::Fitting::channel_buffer_within))]
    pub fn channel_buffer(self, n: usize, p: usize, c: usize) -> usize
        requires bounded { Bounded self }
        requires node { n < self.nodes }
        requires port { p < self.ports }
        requires channel { c < self.channels }
        ensures value { result ≡ (n * self.ports + p) * self.channels + c }
        ensures within { result < self.buffers }
    {
        (n * self.ports + p) * self.channels + c
    }
}
