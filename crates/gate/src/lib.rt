// What may be read and written: the table's checks of a key, index, subindex and access; and the setup lock.
#![tactic(auto)]

pub mod lock;

ghost use Rattle.std.specs.Prelude.{◌≡◌};
ghost use Rattle.table.specs.Find.{find_row};
ghost use Rattle.table.specs.Access.{access_number};
ghost use Rattle.table.specs.Codes.{code_of};
ghost use Rattle.gate.specs.Gates.{gate, read_gate, write_gate, way_of};

use find::row::Row;
use table::access::Access;
use table::code::AbortCode;

// The way to a row, refused where rows of one access are barred.
fn way(index: u16, sub: u8, barred: Access, abort: AbortCode) -> Result<Row, AbortCode>
    ensures { way_of result ≡ gate (access_number barred) (code_of abort) (find_row index sub) }
{
    let row = find::find(index, sub)?;
    if row.access() == barred {
        return Err(abort);
    }
    Ok(row)
}

// Two names for the one way, which PROMISES has.
pub fn to_read(index: u16, sub: u8) -> Result<Row, AbortCode>
    ensures { way_of result ≡ read_gate (find_row index sub) }
{
    way(index, sub, Access::WriteOnly, AbortCode::WriteOnly)
}

pub fn to_write(index: u16, sub: u8) -> Result<Row, AbortCode>
    ensures { way_of result ≡ write_gate (find_row index sub) }
{
    way(index, sub, Access::ReadOnly, AbortCode::ReadOnly)
}
