// A row of the table: in a contract it is its number, and the code carries the row's shape beside it.
ghost use Rattle.std.specs.Prelude.{ℕ, ◌≡◌, ◌<◌, Some, None, cond, ltb, eqb};
ghost use Rattle.std.proofs.Common.{sym};
ghost use Rattle.table.specs.Access.{access_number};
ghost use Rattle.table.specs.Row.{ULINT, smallest, largest};
ghost use Rattle.table.specs.Rows.{row_count, at_row};
ghost use Rattle.table.specs.Rule.{rank};
ghost use Rattle.find.specs.Columns.{shape as row-shape, placing};

use crate::{columns, shape};
use std::marker::Model;
use table::access::Access;

#[derive(Clone, Copy)]
pub struct Row {
    number: usize,
    shape: u16,
}

impl Model for Row {
    ghost Value = { ℕ };

    ghost view = { λ r. r.number };

    ghost invariant = { λ r. (r.number < row_count) × (r.shape ≡ row-shape (at_row r.number)) };

    ghost inverse = { λ n. record { number = n; shape = row-shape (at_row n) } };

    ghost inverse_ok = { λ a h i. record { number = a.number; shape = sym h.1 i } };
}

// The places of the least and the greatest number that a row takes, in the order of its type. A ULINT takes every number, so it has
// none here.
#[derive(Clone, Copy)]
pub struct Limits {
    pub low: u32,
    pub high: u32,
}

// Place of a row and number of its limits, as one number.
fn placing_of(row: usize) -> u16
    requires { row < row_count }
    ensures { result ≡ placing row }
{
    columns::PLACING[row]
}

impl Row {
    pub fn numbered(number: usize) -> Row
        requires { number < row_count }
        ensures { result ≡ number }
    {
        Row {
            number,
            shape: shape::shape_of(number),
        }
    }

    // Of a number that may be no row's.
    pub fn of(number: usize) -> Option<Row>
        ensures { result ≡ cond (ltb number row_count) (Some number) None }
    {
        if number < columns::ROWS {
            return Some(Row::numbered(number));
        }
        None
    }

    pub fn number(self) -> usize
        ensures number { result ≡ self }
        ensures row { self < row_count }
    {
        self.number
    }

    pub fn index(self) -> u16
        ensures { result ≡ (at_row self).index }
    {
        crate::index_of(self.number)
    }

    pub fn sub(self) -> u8
        ensures { result ≡ (at_row self).sub }
    {
        crate::sub_of(self.number)
    }

    pub fn kind(self) -> u8
        ensures kind { result ≡ (at_row self).kind }
        ensures row { self < row_count }
    {
        shape::kind_in(self.shape)
    }

    pub fn access(self) -> Access
        ensures { access_number result ≡ (at_row self).access }
    {
        match shape::access_in(self.shape) {
            1 => Access::ReadOnly,
            2 => Access::WriteOnly,
            _ => Access::ReadWrite,
        }
    }

    pub fn is_nv(self) -> bool
        ensures { result ≡ eqb (at_row self).nv 1 }
    {
        shape::nv_in(self.shape) == 1
    }

    // The room that the entry takes in the values.
    pub fn len(self) -> usize
        ensures len { result ≡ (at_row self).len }
        ensures row { self < row_count }
    {
        shape::len_in(self.shape)
    }

    pub fn smallest(self) -> usize
        ensures smallest { result ≡ smallest (at_row self) }
        ensures row { self < row_count }
    {
        shape::smallest_in(self.shape)
    }

    pub fn largest(self) -> usize
        ensures largest { result ≡ largest (at_row self) }
        ensures row { self < row_count }
    {
        shape::largest_in(self.shape)
    }

    pub fn place(self) -> usize
        ensures place { result ≡ (at_row self).place }
        ensures row { self < row_count }
    {
        usize::from(placing_of(self.number) % 1024)
    }

    pub fn default(self) -> u64
        ensures { result ≡ (at_row self).def }
    {
        u64::from(columns::DEFAULT[self.number])
    }

    pub fn limits(self) -> Limits
        requires { (at_row self).kind ≡ ULINT → ⊥ }
        ensures low { result.low ≡ rank (at_row self).kind (at_row self).low }
        ensures high { result.high ≡ rank (at_row self).kind (at_row self).high }
    {
        let pair = usize::from(placing_of(self.number) / 1024);
        Limits {
            low: columns::MINIMUM[pair],
            high: columns::MAXIMUM[pair],
        }
    }
}
