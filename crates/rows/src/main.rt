// Prints the object table from the proved functions, one row to a line: index, subindex, type, access, NV mark, length, place,
// minimum, maximum, default, and how many rows the search looks at for its key. Numbers are in capital hex, length, place and count in
// decimal; a dash stands where a row has none.
#![tactic(auto)]

ghost use Rattle.std.specs.Prelude.{◌≡◌};
ghost use Rattle.table.specs.Row.{ULINT};
ghost use Rattle.table.specs.Rows.{at_row};

use find::columns;
use find::row::Row;
use std::io;
use table::access::Access;
use table::kind;

fn kind_text(kind: u8) -> &'static str {
    match kind {
        kind::BOOL => "BOOL",
        kind::USINT => "USINT",
        kind::UINT => "UINT",
        kind::UDINT => "UDINT",
        kind::ULINT => "ULINT",
        kind::REAL => "REAL",
        kind::STRING => "STRING",
        kind::CARD => "CARD",
        _ => "COMMAND",
    }
}

fn access_text(access: Access) -> &'static str {
    match access {
        Access::ReadOnly => "RO",
        Access::WriteOnly => "WO",
        Access::ReadWrite => "RW",
    }
}

// The number at a place in the order of its type: a REAL's bit pattern.
fn number_at(kind: u8, rank: u32) -> u64 {
    let place = u64::from(rank);
    if kind != kind::REAL {
        return place;
    }
    if place < 2147483648 {
        return 4294967296 - place;
    }
    place - 2147483648
}

// The least and the greatest number of a row that is no ULINT.
fn print_limits(rt: &impl Print, row: Row, digits: usize) -> io::Result<()>
    requires { (at_row row).kind ≡ ULINT → ⊥ }
{
    let kind = row.kind();
    let both = row.limits();
    let low = number_at(kind, both.low);
    let high = number_at(kind, both.high);
    print!(rt; " {low:0digits$X} {high:0digits$X}")
}

// Only numbers have limits and a default: of up to eight bytes. A ULINT takes every number.
fn print_number(rt: &impl Print, row: Row) -> io::Result<()> {
    let digits = 2 * row.len().min(8);
    if row.kind() == kind::ULINT {
        print!(rt; " 0000000000000000 FFFFFFFFFFFFFFFF")?;
    } else {
        print_limits(rt, row, digits)?;
    }
    let number = row.default();
    print!(rt; " {number:0digits$X}")
}

// Place, and what only numbers have.
fn print_extent(rt: &impl Print, row: Row) -> io::Result<()> {
    let kind = row.kind();
    if kind < kind::CARD {
        let place = row.place();
        print!(rt; " {place}")?;
    } else {
        print!(rt; " -")?;
    }
    if kind < kind::STRING {
        print_number(rt, row)
    } else {
        print!(rt; " - - -")
    }
}

fn print_row(rt: &impl Print, row: Row) -> io::Result<()> {
    let index = row.index();
    let sub = row.sub();
    let kind = kind_text(row.kind());
    let access = access_text(row.access());
    let nv = if row.is_nv() { "NV" } else { "-" };
    let len = row.len();
    print!(rt; "{index:04X} {sub:02X} {kind} {access} {nv} {len}")?;
    print_extent(rt, row)?;
    let looked = find::find_counted(index, sub).looked;
    println!(rt; " {looked}")
}

fn main(rt: HostRuntime) -> io::Result<()> {
    for number in 0..columns::ROWS {
        print_row(&rt, Row::numbered(number))?;
    }
    Ok(())
}
