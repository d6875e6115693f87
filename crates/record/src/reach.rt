// The tables that a caller may reach (02, R-2).
ghost use Rattle.std.specs.Prelude.{◌≡◌};
ghost use Rattle.record.specs.Reach.{holds_table};

use crate::Tables;

// Whether the caller may reach a table.
pub fn holds_table(tables: Tables, table: u16) -> bool
    ensures { result ≡ holds_table tables table }
{
    tables.first <= table && table <= tables.last
}
