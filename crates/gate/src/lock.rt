// The setup lock.
ghost use Rattle.std.specs.Prelude.{◌≡◌};
ghost use Rattle.table.specs.Rows.{at_row};
ghost use Rattle.gate.specs.Lock.{guarded, locked};

use find::row::Row;
use table::row::LOAD_PARAMETERS;
use table::{Values, kind, place};
use wire::Number;

// Does the lock guard this row?
fn guards(row: Row) -> bool
    ensures { result ≡ guarded (at_row row) }
{
    if row.is_nv() {
        return true;
    }
    match row.kind() {
        kind::CARD => true,
        kind::COMMAND => row.number() == LOAD_PARAMETERS,
        _ => false,
    }
}

// Is a write to this row refused by the lock as it stands now? While the lock is open, the row is not looked at.
pub fn refuses(values: &Values, row: Row) -> bool
    ensures { result ≡ locked (at_row row) values.now }
{
    if u8::at(values, place::LOCK) == 1 {
        return guards(row);
    }
    false
}
