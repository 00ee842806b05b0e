// A table is a routing.
ghost use Rattle.table.specs.Tables.{network_of};
ghost use Rattle.table.specs.TableLaws.{table_lawful};
ghost use Rattle.network.proofs.Consequences.{bounds_of, follows_of};

use crate::table::Table;
use network::{Hop, Routing};

impl Routing for Table {
    ghost meaning = { network_of };

    ghost lawful = { table_lawful };

    ghost bounds = { λ x. bounds_of _ (table_lawful x) };

    ghost follows = { λ x. follows_of _ (table_lawful x) };

    fn nodes(&self) -> usize {
        self.answers.nodes
    }

    fn ports(&self) -> usize {
        self.answers.ports
    }

    fn classes(&self) -> usize {
        self.answers.classes
    }

    fn ceiling(&self) -> usize {
        self.answers.ceiling
    }

    fn link(&self, n: usize, p: usize) -> Option<usize> {
        self.answers.links.cell(n, p)?.map(usize::from)
    }

    fn distance(&self, n: usize, d: usize) -> usize {
        let hops = self.answers.distances.cell(n, d);
        hops.copied().map_or(0, usize::from)
    }

    // The hop goes along the link of the channel's port.
    fn escape(&self, n: usize, d: usize) -> Option<Hop> {
        let channel = self.answers.escapes.cell(n, d).copied()??;
        let port = usize::from(channel.port);
        let class = usize::from(channel.class);
        let next = self.link(n, port)?;
        Some(Hop { port, class, next })
    }

    fn rank(&self, n: usize, p: usize, e: usize) -> usize {
        let classes = self.answers.ranks.cell(n, p);
        let rank = classes.and_then(|classes| classes.get(e));
        rank.copied().map_or(0, usize::from)
    }
}
