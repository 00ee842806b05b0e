// The interface of a routing: eight questions that change nothing, and the network that their answers describe.
ghost use Rattle.std.specs.Prelude.{◌≡◌};
ghost use Rattle.network.specs.Network.{Network};
ghost use Rattle.network.specs.Laws.{Lawful, Bounds, Follows};

use crate::Hop;

// A routing means a network that keeps the laws. Every method answers as the meaning says, for every argument: out of
// range there is no link and no escape, and distance and rank are 0; from a node to itself there is no escape.
pub trait Routing {
    ghost meaning: { Self → Network };

    // The number of nodes, 0 where the routing is unusable.
    fn nodes(&self) -> usize
        ensures { result ≡ (meaning self.now).nodes };

    // The number of ports that each node has.
    fn ports(&self) -> usize
        ensures { result ≡ (meaning self.now).ports };

    // The number of escape classes.
    fn classes(&self) -> usize
        ensures { result ≡ (meaning self.now).classes };

    // A number above every rank.
    fn ceiling(&self) -> usize
        ensures { result ≡ (meaning self.now).ceiling };

    // The node at the far end of the link that leaves node `n` by port `p`.
    fn link(&self, n: usize, p: usize) -> Option<usize>
        ensures { result ≡ (meaning self.now).link n p };

    // The number of hops of a shortest way from `n` to `d`.
    fn distance(&self, n: usize, d: usize) -> usize
        ensures { result ≡ (meaning self.now).distance n d };

    // The escape channel from `n` towards `d`, and the node where it leads.
    fn escape(&self, n: usize, d: usize) -> Option<Hop>
        ensures { result ≡ (meaning self.now).escape n d };

    // The rank of the escape channel of class `e` on port `p` of node `n`.
    fn rank(&self, n: usize, p: usize, e: usize) -> usize
        ensures { result ≡ (meaning self.now).rank n p e };

    ghost lawful: { (x : Self) → Lawful (meaning x) };

    // What follows from `lawful` at any arguments, for the proofs of generic code.
    ghost bounds: { (x : Self) → Bounds (meaning x) };

    ghost follows: { (x : Self) → Follows (meaning x) };
}
