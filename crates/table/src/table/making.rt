// The reading of a routing into a table.
ghost use Rattle.std.specs.Prelude.{◌≡◌};
ghost use Rattle.table.specs.Tables.{network_of};

use crate::reading::answers_of;
use crate::table::Table;
use network::Routing;

impl Table {
    // The table that answers as the routing does, whatever is asked.
    pub fn read<R: Routing>(routing: &R) -> Table
        ensures { network_of result ≡ R.meaning routing.now }
    {
        Table {
            answers: answers_of(routing),
        }
    }
}
