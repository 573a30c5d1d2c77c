// The values written into a saved block.
#![tactic(auto)]

ghost use Rattle.std.specs.Prelude.{ℕ, get_or, ◌≡◌, true, ◌++◌, ◌+◌, ◌-◌, ◌^◌, ◌≤◌, ◌<◌, take, drop, replicate};
ghost use Rattle.bits.specs.Bits.{bits, msb};
ghost use Rattle.limits.specs.Limits.{number_len};
ghost use Rattle.table.specs.Row.{REAL};
ghost use Rattle.table.specs.Rows.{nv_end};
ghost use Rattle.wire.specs.Little.{number};
ghost use Rattle.wire.specs.Splice.{splice};
ghost use Rattle.block.specs.Block.{LAYOUT, BAG552, width as width_by, entry_bits, saved, all_zero};
ghost use Rattle.block.specs.Saved.{saved_rows, storable, stored_block};
ghost use Rattle.block.specs.Asked.{Sized, fresh_bytes, entry_len, held_front};

use find::columns;
use table::{Block, Values, kind};

// The bytes of a block up to the last entry, and eight more: so many are read and written where a field is added.
const FRESH: usize = (columns::NV_END + 7) / 8 + 8;

// Into a block that is zero from bit at on.
fn save_entry(
    values: &Values,
    place: usize,
    kind: u8,
    v: u32,
    block: &mut [u8; FRESH],
    at: usize,
    width: usize,
)
    requires { Sized kind (entry_len kind width) place × (width ≡ width_by kind (entry_len kind width)) × (at + width ≤ nv_end) × (v ≡ number values.now place (number_len kind)) × (kind ≤ REAL → v < 2 ^ width) × (all_zero (drop at (bits block.old)) ≡ true) }
    ensures { bits block.new ≡ splice (bits block.old) at (entry_bits kind (entry_len kind width) (take (entry_len kind width) (drop place values.now))) }
{
    if kind::REAL < kind {
        bits::put_bytes(block, at, &values[place..place + width / 8]);
    } else {
        bits::add_field(block, at, width, v);
    }
}

// The entries that stand before the first that is outside its limits, into a block without any, and how many they are.
fn save_entries(values: &Values, block: &mut [u8; FRESH]) -> usize
    requires { all_zero (drop 8 (bits block.old)) ≡ true }
    ensures { (result ≡ held_front values.now saved_rows) × (bits block.new ≡ splice (bits block.old) 8 (saved values.now (take result saved_rows))) }
{
    // by an index, as above all columns (R16.3)
    for i in 0..columns::NV_ROWS {
        let kind = columns::NV_KIND[i];
        let place = usize::from(columns::NV_PLACE[i]);
        let v = limits::number_by(values, place, kind);
        let rank = limits::rank_of(kind, v);
        if !(columns::NV_LOW[i]..=columns::NV_HIGH[i]).contains(&rank) {
            return i;
        }
        let at = usize::from(columns::NV_AT[i]);
        let width = usize::from(columns::NV_AT[i + 1]) - at;
        save_entry(values, place, kind, v, block, at, width);
    }
    columns::NV_ROWS
}

// Layout, model and entries into a fresh block of zeros: how many entries went in.
fn fill_block(values: &Values, block: &mut [u8; FRESH]) -> usize
    requires { block.old ≡ replicate fresh_bytes 0 }
    ensures { (result ≡ held_front values.now saved_rows) × (bits block.new ≡ splice (splice (splice (bits (replicate fresh_bytes 0)) 0 (msb 4 LAYOUT)) 4 (msb 4 BAG552)) 8 (saved values.now (take result saved_rows))) }
{
    bits::put_field(block, 0, 4, block::LAYOUT);
    bits::put_field(block, 4, 4, block::MODEL);
    save_entries(values, block)
}

// A fresh block, and zeros behind it.
fn write_block(fresh: &[u8; FRESH], block: &mut Block)
    ensures block { block.new ≡ fresh.now ++ replicate (512 - fresh_bytes) 0 }
    ensures bytes { (i : ℕ) → get_or fresh.now i 0 < 256 }
{
    block.fill(0);
    wire::copy_at(block, 0, fresh);
}

// Writes the block of the values, or nothing where an NV value is outside its limits or a trip point is crossed.
pub fn store(values: &Values, block: &mut Block) -> bool
    ensures { (result ≡ storable values.now) × (block.new ≡ stored_block values.now block.old) }
{
    if crossed::is_straight(values) {
        let mut fresh = [0; FRESH];
        let n = fill_block(values, &mut fresh);
        if n < columns::NV_ROWS {
            return false;
        }
        write_block(&fresh, block);
        return true;
    }
    false
}
