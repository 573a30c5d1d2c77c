// A saved block taken into the values.
#![tactic(auto)]

ghost use Rattle.std.specs.Prelude.{◌≡◌, ◌+◌, ◌*◌, ◌^◌, ◌≤◌, ◌<◌, length, drop};
ghost use Rattle.bits.specs.Bits.{bits, field};
ghost use Rattle.limits.specs.Limits.{number_len};
ghost use Rattle.table.specs.Row.{REAL};
ghost use Rattle.wire.specs.Little.{little};
ghost use Rattle.wire.specs.Splice.{splice};
ghost use Rattle.block.specs.Block.{width as width_by, entry_bytes, load_rows};
ghost use Rattle.block.specs.Saved.{saved_rows, loadable, loaded};
ghost use Rattle.block.specs.Asked.{Sized, entry_len, saved_numbers};

use find::columns;
use table::{Block, Values, kind};
use wire::Number;

fn put_number(values: &mut [u8], place: usize, kind: u8, v: u32)
    requires { (place + number_len kind ≤ length values.old) × (v < 2 ^ (8 * number_len kind)) }
    ensures { values.new ≡ splice values.old place (little (number_len kind) v) }
{
    if kind::UINT < kind {
        v.put(values, place);
    } else if kind == kind::UINT {
        (v as u16).put(values, place);
    } else {
        (v as u8).put(values, place);
    }
}

fn take_entry(
    block: &Block,
    at: usize,
    kind: u8,
    width: usize,
    v: u32,
    values: &mut Values,
    place: usize,
)
    requires { Sized kind (entry_len kind width) place × (width ≡ width_by kind (entry_len kind width)) × (at + width ≤ 4096) × (kind ≤ REAL → v ≡ field (bits block.now) at width) }
    ensures { values.new ≡ splice values.old place (entry_bytes kind (entry_len kind width) (drop at (bits block.now))) }
{
    if kind::REAL < kind {
        bits::get_bytes(values, place, width / 8, block, at);
    } else {
        put_number(values, place, kind, v);
    }
}

// The entries of the block, whose numbers are known, into the values. By an index, since what is known of an entry stands in several columns (R16.3).
fn take_entries(numbers: &[u32; columns::NV_ROWS], block: &Block, values: &mut Values)
    requires { numbers.now ≡ saved_numbers (bits block.now) 8 saved_rows }
    ensures { values.new ≡ load_rows (bits block.now) 8 saved_rows values.old }
{
    for i in 0..columns::NV_ROWS {
        let at = usize::from(columns::NV_AT[i]);
        // in 16 bits: in 64 the walk's count is kept in memory, and a device reset by one mailbox takes 1.53 times the independent board's
        // instructions, of 1.5
        let width = usize::from(columns::NV_AT[i + 1] - columns::NV_AT[i]);
        let place = usize::from(columns::NV_PLACE[i]);
        take_entry(
            block,
            at,
            columns::NV_KIND[i],
            width,
            numbers[i],
            values,
            place,
        );
    }
}

// Takes the block whole, or nothing where it is faulty.
pub fn load(block: &Block, values: &mut Values) -> bool
    ensures { (result ≡ loadable block.now) × (values.new ≡ loaded block.now values.old) }
{
    let mut numbers = [0; columns::NV_ROWS];
    if !block::take_numbers(block, &mut numbers) {
        return false;
    }
    take_entries(&numbers, block, values);
    true
}
