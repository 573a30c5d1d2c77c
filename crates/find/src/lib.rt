// The object table in the code: its columns, a row with its fields, and the way to a row.
#![tactic(auto)]

mod area;
pub mod columns;
pub mod row;
pub mod shape;

ghost use Rattle.std.specs.Prelude.{◌≡◌, ◌+◌, ◌≤◌, ◌<◌};
ghost use Rattle.table.specs.Rows.{row_count, at_row};
ghost use Rattle.table.specs.Find.{absence, find_row};
ghost use Rattle.table.specs.Halve.{look_count};
ghost use Rattle.find.specs.Search.{found_row, number_of, found_by, Numbered, search_number};

use row::Row;
use table::code::AbortCode;

// Where a key leads, and how many rows were looked at for it.
#[derive(Clone, Copy)]
pub struct Search {
    pub found: Result<Row, AbortCode>,
    pub looked: u32,
}

// What `halve` comes to is one number: how many rows were looked at, times 1,024, and the row, or one of these two, which are no row's.
// A struct with a Result in it is given back through memory at each call: tried, a short read takes 444 instructions for 246, of 340.
const NO_INDEX: u32 = 512;

const NO_SUB: u32 = 513;

// The key of a row, by the row's number.
fn index_of(row: usize) -> u16
    requires { row < row_count }
    ensures { result ≡ (at_row row).index }
{
    columns::INDEX[row]
}

fn sub_of(row: usize) -> u8
    requires { row < row_count }
    ensures { result ≡ (at_row row).sub }
{
    columns::SUB[row]
}

// No row is left. Had one that was looked at the index?
fn absent(seen: bool) -> u32
    ensures { result ≡ number_of (absence seen) }
{
    if seen {
        return NO_SUB;
    }
    NO_INDEX
}

// The search by halves, by hand as R16.10 asks, since its looks are counted (R1.9). So many rows are left, from low on. The middle one is looked at,
// and a half of the others is left. `% 512` tells the compiler that a row's number is none of the two above, and `looked` is bounded so that the
// answer fits.
fn halve(low: usize, left: usize, index: u16, sub: u8, seen: bool, looked: u32) -> u32
    requires { (low + left ≤ row_count) × (looked + left ≤ 511) }
    ensures { result ≡ search_number index sub seen low left looked }
{
    if left == 0 {
        return looked * 1024 + absent(seen);
    }
    let half = left / 2;
    let middle = low + half;
    let row_index = index_of(middle);
    if row_index == index {
        let row_sub = sub_of(middle);
        if row_sub == sub {
            return (looked + 1) * 1024 + (middle % 512) as u32;
        }
        if row_sub < sub {
            let next = middle + 1;
            let rest = left - half - 1;
            return halve(next, rest, index, sub, true, looked + 1);
        }
        return halve(low, half, index, sub, true, looked + 1);
    }
    if row_index < index {
        let next = middle + 1;
        let rest = left - half - 1;
        return halve(next, rest, index, sub, seen, looked + 1);
    }
    halve(low, half, index, sub, seen, looked + 1)
}

// The row of what is found.
fn row_of(number: u32) -> Result<Row, AbortCode>
    requires { Numbered number }
    ensures { result ≡ found_row (found_by number) }
{
    match number {
        NO_INDEX => Err(AbortCode::IndexAbsent),
        NO_SUB => Err(AbortCode::SubindexAbsent),
        _ => Ok(Row::numbered(number as usize)),
    }
}

// A key is searched for by halves in all rows.
pub fn find_counted(index: u16, sub: u8) -> Search
    ensures found { result.found ≡ found_row (find_row index sub) }
    ensures looked { result.looked ≡ look_count index sub }
    ensures most { result.looked ≤ 9 }
{
    let number = halve(0, columns::ROWS, index, sub, false, 0);
    Search {
        found: row_of(number % 1024),
        looked: number / 1024,
    }
}

// By index and subindex: a row, or which of the two is absent. In an area without rows nothing is searched for.
pub fn find(index: u16, sub: u8) -> Result<Row, AbortCode>
    ensures { result ≡ found_row (find_row index sub) }
{
    if area::is_empty(index) {
        return Err(AbortCode::IndexAbsent);
    }
    find_counted(index, sub).found
}
