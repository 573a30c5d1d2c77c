// Type, access, NV mark and length of a row stand in one number, its shape: where more than one is asked for, the column is read once.
ghost use Rattle.std.specs.Prelude.{◌≡◌, ◌<◌};
ghost use Rattle.table.specs.Rows.{row_count, at_row};
ghost use Rattle.find.specs.Columns.{shape, kind_in, access_in, nv_in, len_in, smallest_in, largest_in};

use crate::columns;

pub fn shape_of(row: usize) -> u16
    requires { row < row_count }
    ensures { result ≡ shape (at_row row) }
{
    columns::SHAPE[row]
}

pub fn kind_in(shape: u16) -> u8
    ensures { result ≡ kind_in shape }
{
    (shape % 16) as u8
}

pub fn access_in(shape: u16) -> u8
    ensures { result ≡ access_in shape }
{
    (shape / 16 % 4) as u8
}

pub fn nv_in(shape: u16) -> u8
    ensures { result ≡ nv_in shape }
{
    (shape / 64 % 2) as u8
}

// The room that the entry takes in the values.
pub fn len_in(shape: u16) -> usize
    ensures { result ≡ len_in shape }
{
    usize::from(shape / 128)
}

// The smallest and the largest length of a value, where a client says, sends or is told it: two functions, since table/specs/Row has two definitions,
// which in this table are one.
pub fn smallest_in(shape: u16) -> usize
    ensures { result ≡ smallest_in shape }
{
    len_in(shape)
}

pub fn largest_in(shape: u16) -> usize
    ensures { result ≡ largest_in shape }
{
    len_in(shape)
}
