// The saved block: whether one is faulty, and the numbers of its entries.
#![tactic(auto)]

ghost use Rattle.std.specs.Prelude.{true, ◌≡◌, ◌+◌, ◌*◌, ◌≤◌, ◌<◌, eqb, length, drop};
ghost use Rattle.bits.specs.Bits.{bits};
ghost use Rattle.table.specs.Rows.{nv_count, nv_low_level};
ghost use Rattle.block.specs.Block.{BAG552, all_zero, headed};
ghost use Rattle.block.specs.Saved.{saved_rows, loadable};
ghost use Rattle.block.specs.Asked.{saved_front, saved_numbers, crossed_by, straight_by};

use find::columns;
use table::Block;

pub const LAYOUT: u32 = 1;

pub const MODEL: u32 = 1;

// ---- All entries.

// Is none outside its limits? Then their numbers go into the room for them. As an Option of the numbers they are copied, and a device reset
// takes 1.52 times the independent board's instructions, of 1.5.
fn good_numbers(block: &Block, numbers: &mut [u32; columns::NV_ROWS]) -> bool
    ensures good { result ≡ eqb (saved_front (bits block.now) 8 saved_rows) nv_count }
    ensures numbers { result ≡ true → numbers.new ≡ saved_numbers (bits block.now) 8 saved_rows }
{
    // by an index, since what is known of an entry stands in several columns (R16.3)
    for i in 0..columns::NV_ROWS {
        let at = usize::from(columns::NV_AT[i]);
        let cut = usize::from(columns::NV_CUT[i]);
        let v = bits::cut_field(block, at, cut);
        let rank = limits::rank_of(columns::NV_KIND[i], v);
        if !(columns::NV_LOW[i]..=columns::NV_HIGH[i]).contains(&rank) {
            return false;
        }
        numbers[i] = v;
    }
    true
}

// ---- The trip points.

// The point whose entries begin with this one.
fn is_crossed(numbers: &[u32], first: usize) -> bool
    requires { first + nv_low_level < length numbers.now }
    ensures { result ≡ crossed_by numbers.now first }
{
    crossed::by_numbers(
        numbers[first + columns::NV_HIGH_ENABLE],
        numbers[first + columns::NV_LOW_ENABLE],
        numbers[first + columns::NV_HIGH_LEVEL],
        numbers[first + columns::NV_LOW_LEVEL],
    )
}

// Is neither point crossed?
fn is_straight(numbers: &[u32]) -> bool
    requires { length numbers.now ≡ nv_count }
    ensures { result ≡ straight_by numbers.now }
{
    if is_crossed(numbers, columns::NV_POINT_1) {
        return false;
    }
    !is_crossed(numbers, columns::NV_POINT_2)
}

// ---- The rest.

// Are all bytes from byte first on zero? The greatest says it, with no way out of the loop.
fn bytes_zero(block: &Block, first: usize) -> bool
    requires { first ≤ 512 }
    ensures { result ≡ all_zero (drop (8 * first) (bits block.now)) }
{
    let mut most: u8 = 0;
    for byte in &block[first..] {
        most = most.max(*byte);
    }
    most == 0
}

// Are all bits from bit end on zero?
fn rest_zero(block: &Block, end: usize) -> bool
    requires { end ≤ 4096 }
    ensures { result ≡ all_zero (drop end (bits block.now)) }
{
    let first = (end + 7) / 8;
    if bits::get_field(block, end, 8 * first - end) != 0 {
        return false;
    }
    bytes_zero(block, first)
}

// ---- The block.

// Are layout and model the ones that are known here?
pub fn is_headed(block: &Block) -> bool
    ensures { result ≡ headed BAG552 (bits block.now) }
{
    if bits::get_field(block, 0, 4) != LAYOUT {
        return false;
    }
    bits::get_field(block, 4, 4) == MODEL
}

// Is a block not faulty? Then the numbers of all its entries go into the room for them, as above.
pub fn take_numbers(block: &Block, numbers: &mut [u32; columns::NV_ROWS]) -> bool
    ensures taken { result ≡ loadable block.now }
    ensures numbers { result ≡ true → numbers.new ≡ saved_numbers (bits block.now) 8 saved_rows }
{
    if !is_headed(block) {
        return false;
    }
    if !rest_zero(block, columns::NV_END) {
        return false;
    }
    if !good_numbers(block, numbers) {
        return false;
    }
    is_straight(numbers)
}
