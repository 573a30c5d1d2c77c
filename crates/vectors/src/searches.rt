// The search by halves (R1.8, R1.9). Beside each vector stand the numbers of the rows that are looked at, as docs/object-table.md has the
// rows, from 0 to 128. The rows from 0 up to 129 are left at first, so row 64, 800F:15, is looked at for every key; then row 32, 6000:0E, or
// row 97, F3A4:01.
use crate::report::say;
use find::Search;
use std::io;

const INDEX_ABSENT: u32 = 0x06020000;

const SUBINDEX_ABSENT: u32 = 0x06090011;

// Was this row found, with so many looks?
fn found(
    rt: &impl Print,
    name: &str,
    index: u16,
    sub: u8,
    row: usize,
    looks: u32,
) -> io::Result<()> {
    let Search { found, looked } = find::find_counted(index, sub);
    let right = found.is_ok_and(|at| at.number() == row);
    say(rt, name, right & (looked == looks))
}

// Was nothing found, with this code and so many looks?
fn absent(
    rt: &impl Print,
    name: &str,
    index: u16,
    sub: u8,
    code: u32,
    looks: u32,
) -> io::Result<()> {
    let Search { found, looked } = find::find_counted(index, sub);
    let right = found.is_err_and(|told| u32::from(told) == code);
    say(rt, name, right & (looked == looks))
}

pub fn rows(rt: &impl Print) -> io::Result<()> {
    // 64
    found(rt, "search: the middle row", 0x800F, 0x15, 64, 1)?;
    // 64, 32, 16, 8, 4, 2, 1, 0
    found(rt, "search: the first row", 0x1000, 0x00, 0, 8)?;
    // 64, 32, 16, 24, 28, 30
    found(rt, "search: the setup lock", 0x2003, 0x00, 30, 6)?;
    // 64, 97, 113, 121, 125, 127, 128
    found(rt, "search: the last row", 0xFBF4, 0x03, 128, 7)
}

pub fn absent_indices(rt: &impl Print) -> io::Result<()> {
    // as for the first row, which stands behind the key
    absent(rt, "search: before all rows", 0x0FFF, 0xFF, INDEX_ABSENT, 8)?;
    // 64, 32, 16, 24, 28, 30, 31: between 2003:00 and 2010:00
    absent(
        rt,
        "search: between two objects",
        0x2004,
        0x00,
        INDEX_ABSENT,
        7,
    )?;
    // 64, 32, 48, 40, 44, 42, 43: an area without rows, between 600F:02 and 8005:01
    absent(
        rt,
        "search: in an area without rows",
        0x7000,
        0x00,
        INDEX_ABSENT,
        7,
    )?;
    // as for the last row, which stands before the key
    absent(rt, "search: behind all rows", 0xFFFF, 0xFF, INDEX_ABSENT, 7)
}

pub fn absent_subs(rt: &impl Print) -> io::Result<()> {
    // 64, 32, 16, 24, 28, 30, 31: row 30 has the index, and row 31 is looked at behind it
    absent(
        rt,
        "search: behind a lone entry",
        0x2003,
        0x01,
        SUBINDEX_ABSENT,
        7,
    )?;
    // 64, 32, 16, 24, 28, 30, 31: row 32, 6000:0E, had the index, and none that is looked at after it
    absent(
        rt,
        "search: before an object's entries",
        0x6000,
        0x00,
        SUBINDEX_ABSENT,
        7,
    )?;
    // 64, 32, 16, 8, 12, 10, 9: row 8, 1018:04, had it
    absent(
        rt,
        "search: behind an object's entries",
        0x1018,
        0x05,
        SUBINDEX_ABSENT,
        7,
    )?;
    // 64, 97, 81, 89, 85, 87, 86: row 85, F390:00, had it
    absent(rt, "search: behind F390", 0xF390, 0x01, SUBINDEX_ABSENT, 7)
}
