// A line's transfer by value: whether it counts, and the record after an opening or a part.
#![tactic(auto)]

ghost use Rattle.std.specs.Prelude.{cond, ◌&&◌, ◌≡◌, ◌+◌, ◌≤◌, Some, None, length};
ghost use Rattle.table.specs.Access.{access_number};
ghost use Rattle.transfer.specs.Records.{key_at, allows, fitting, counts};
ghost use Rattle.transfer.specs.Turns.{goes, is_reading, is_writing, opened_record, turned, grown};

use find::row::Row;
use sdo::Key;
use table::access::Access;

// Three names and no Option of two: a record that goes nowhere is a record too (R6.4), and a match on one name is plainer than on a name in Some.
#[derive(Clone, Copy, PartialEq, Eq)]
pub enum Direction {
    Neither,
    Reads,
    Writes,
}

// Held bytes with lengths beside them, and no Vec or slice: R16.5. Of a read held begins with the value, of a write with the bytes sent; place is the
// count of bytes given or sent.
#[derive(Clone, Copy)]
pub struct Transfer {
    pub held: [u8; 64],
    pub row: usize,
    pub direction: Direction,
    pub len: usize,
    pub place: usize,
    pub toggle: bool,
}

pub fn key_at(row: Row) -> Key
    ensures { result ≡ key_at row }
{
    Key {
        index: row.index(),
        sub: row.sub(),
    }
}

fn access_allows(d: Direction, access: Access) -> bool
    ensures { result ≡ allows d (access_number access) }
{
    match d {
        Direction::Neither => false,
        Direction::Reads => access != Access::WriteOnly,
        Direction::Writes => access != Access::ReadOnly,
    }
}

// The row of a record with these, where it fits the table; or it counts as none.
fn counts(row: usize, d: Direction, len: usize, place: usize) -> Option<Row>
    ensures { result ≡ cond (fitting row d len place) (Some row) None }
{
    let row = Row::of(row)?;
    let lengths = row.smallest()..=row.largest();
    if access_allows(d, row.access()) && lengths.contains(&len) && place <= len {
        return Some(row);
    }
    None
}

// The row of a transfer that counts and goes in this direction.
fn going(t: Transfer, d: Direction) -> Option<Row>
    ensures { result ≡ cond (goes d t.direction && counts t) (Some t.row) None }
{
    if t.direction == d {
        return counts(t.row, d, t.len, t.place);
    }
    None
}

pub fn reading(t: Transfer) -> Option<Row>
    ensures { result ≡ cond (is_reading t.direction && counts t) (Some t.row) None }
{
    going(t, Direction::Reads)
}

pub fn writing(t: Transfer) -> Option<Row>
    ensures { result ≡ cond (is_writing t.direction && counts t) (Some t.row) None }
{
    going(t, Direction::Writes)
}

// An opening starts with the bytes that it carries itself, and toggle 0.
pub fn opened(
    direction: Direction,
    row: usize,
    held: [u8; 64],
    len: usize,
    place: usize,
) -> Transfer
    ensures { result ≡ opened_record direction row held len place }
{
    Transfer {
        held,
        row,
        direction,
        len,
        place,
        toggle: false,
    }
}

// After a part of a read that was not the last, of some size.
pub fn turned(t: Transfer, size: usize) -> Transfer
    requires { (t.place ≤ 64) × (size ≤ 256) }
    ensures { result ≡ turned t size }
{
    Transfer {
        direction: Direction::Reads,
        place: t.place + size,
        toggle: !t.toggle,
        ..t
    }
}

// With a part of a write.
pub fn grown(t: Transfer, part: &[u8]) -> Transfer
    requires { (t.len ≤ 64) × (t.place + length part.now ≤ t.len) }
    ensures { result ≡ grown t part.now }
{
    let mut held = t.held;
    wire::copy_at(&mut held, t.place, part);
    Transfer {
        held,
        direction: Direction::Writes,
        place: t.place + part.len(),
        toggle: !t.toggle,
        ..t
    }
}
