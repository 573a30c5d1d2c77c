// A whole read of a row.
ghost use Rattle.std.specs.Prelude.{◌≡◌, replicate};
ghost use Rattle.wire.specs.Splice.{splice};
ghost use Rattle.table.specs.Rows.{at_row};
ghost use Rattle.gauge.specs.Whole.{value_of};

use command::word;
use find::row::Row;
use table::{Values, kind};

// The row's value as it is now, with zeros behind it, in the room of what is held (R16.5).
pub fn value_of(values: &Values, row: Row) -> [u8; 64]
    ensures { result ≡ splice (replicate 64 0) 0 (value_of (at_row row) values.now) }
{
    match row.kind() {
        kind::BOOL..=kind::STRING => entry::read_entry(values, row),
        kind::CARD => card::card_of(values),
        _ => word::reading(word::command_at(row)),
    }
}
