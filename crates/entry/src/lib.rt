// One row's entry in the values: read, stored, and its default.
#![tactic(auto)]

ghost use Rattle.std.specs.Prelude.{◌≡◌, ◌+◌, ◌≤◌, length, replicate};
ghost use Rattle.table.specs.Rows.{rows, at_row};
ghost use Rattle.table.specs.Rule.{held};
ghost use Rattle.entry.specs.Entry.{held_by, copied, with_entry, defaults};

use find::columns;
use find::row::Row;
use table::{Values, kind};
use wire::Number;

// The bytes that an entry has in the values, by its type and length.
fn held_by(kind: u8, len: usize) -> usize
    ensures { result ≡ held_by kind len }
{
    match kind {
        kind::BOOL..=kind::STRING => len,
        _ => 0,
    }
}

// The bytes that a row has in the values.
fn held_of(row: Row) -> usize
    ensures held { result ≡ held (at_row row) }
    ensures most { result ≤ 64 }
    ensures inside { (at_row row).place + result ≤ 1024 }
{
    held_by(row.kind(), row.len())
}

// ---- reading and storing

// The bytes of a row, with zeros behind them: no heap, so what is held has the room of the longest entry (R16.5).
pub fn read_entry(values: &Values, row: Row) -> [u8; 64]
    ensures { result ≡ copied (at_row row) values.now }
{
    let place = row.place();
    let len = held_of(row);
    let mut bytes = [0u8; 64];
    wire::copy_at(&mut bytes, 0, &values[place..place + len]);
    bytes
}

// Gives the place at which the entry stands.
pub fn store_entry(values: &mut Values, row: Row, value: &[u8]) -> usize
    requires { length value.now ≡ held (at_row row) }
    ensures place { result ≡ (at_row row).place }
    ensures values { values.new ≡ with_entry (at_row row) values.old value.now }
{
    let place = row.place();
    wire::copy_at(values, place, value);
    place
}

// ---- defaults

// Every row's default, and zero in the bytes of no row. Most defaults are zeros, so only the words that are not are put.
pub fn put_defaults(values: &mut Values)
    ensures { values.new ≡ defaults rows (replicate 1024 0) }
{
    values.fill(0);
    for (place, word) in columns::WORD_PLACE.iter().zip(&columns::WORD) {
        word.put(values, usize::from(*place));
    }
}
