// The line: nodes in a row, each linked to the next and to the one before.
#![tactic(auto)]

ghost use Rattle.std.specs.Prelude.{◌≡◌};
ghost use Rattle.line.specs.Lines.{line, line_sized};
ghost use Rattle.line.specs.LineLaws.{line_lawful};
ghost use Rattle.network.proofs.Consequences.{bounds_of, follows_of};

use network::{Hop, Routing};

const PORTS: usize = 2;

const CLASSES: usize = 1;

// The line of `size` nodes. A size that is not 2 to 64 makes a line that is unusable.
#[derive(Clone, Copy, PartialEq, Eq, Debug)]
pub struct Line {
    pub size: usize,
}

impl Line {
    // Whether the size is 2 to 64.
    fn is_usable(&self) -> bool
        ensures { result ≡ line_sized self.now.size }
    {
        (2..=64).contains(&self.size)
    }
}

impl Routing for Line {
    ghost meaning = { λ x. line x.size };

    ghost lawful = { λ x. line_lawful x.size };

    ghost bounds = { λ x. bounds_of _ (line_lawful x.size) };

    ghost follows = { λ x. follows_of _ (line_lawful x.size) };

    // This number and the next two are kept as plain `if`s, since `then_some(..).unwrap_or(0)` says the same at more length.
    fn nodes(&self) -> usize {
        if self.is_usable() { self.size } else { 0 }
    }

    fn ports(&self) -> usize {
        if self.is_usable() { PORTS } else { 0 }
    }

    fn classes(&self) -> usize {
        if self.is_usable() { CLASSES } else { 0 }
    }

    // A rank is at most the number of the last node.
    fn ceiling(&self) -> usize {
        self.nodes()
    }

    // Port 0 leads up and port 1 down, with no link past the ends.
    fn link(&self, n: usize, p: usize) -> Option<usize> {
        if n >= self.nodes() {
            return None;
        }
        match p {
            0 => (n + 1 < self.size).then_some(n + 1),
            1 => n.checked_sub(1),
            _ => None,
        }
    }

    fn distance(&self, n: usize, d: usize) -> usize {
        let nodes = self.nodes();
        if n >= nodes || d >= nodes {
            0
        } else {
            n.abs_diff(d)
        }
    }

    fn escape(&self, n: usize, d: usize) -> Option<Hop> {
        let nodes = self.nodes();
        if n >= nodes || d >= nodes || n == d {
            None
        } else if n < d {
            Some(Hop {
                port: 0,
                class: 0,
                next: n + 1,
            })
        } else {
            Some(Hop {
                port: 1,
                class: 0,
                next: n - 1,
            })
        }
    }

    // Ranks rise in the direction of travel.
    fn rank(&self, n: usize, p: usize, e: usize) -> usize {
        if e >= CLASSES || self.link(n, p).is_none() {
            0
        } else if p == 0 {
            n
        } else {
            self.size - 1 - n
        }
    }
}
