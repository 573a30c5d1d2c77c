// Storing and loading: NV entries at their places in the values, little-endian, and their bits in the block. Bytes stand here in fours
// as they are, with the byte that each begins at.
ghost use Rattle.std.specs.Prelude.{◌+◌, ◌≤◌};

use crate::blocks::default_block;
use crate::report::{compare_values, put_fours, same, say};
use std::io;
use table::{Block, Values};

fn default_values() -> Values {
    let mut values = [0u8; 1024];
    entry::put_defaults(&mut values);
    values
}

// ---- storing

// A store that is taken writes these 512 bytes.
fn stores(rt: &impl Print, name: &str, values: &Values, expected: &Block) -> io::Result<()> {
    let mut block = [0xA5u8; 512];
    let taken = store::store(values, &mut block);
    say(rt, name, taken & same(&block, expected))
}

// Label 41 42 43, bytes 1 to 3 of the block. 8005:01 on: bit 264. 800E:11 is 1.5, 3FC00000, from the middle of byte 38 on.
// F9F7 is 80000001: bit 1182, 02 in byte 147, and bit 1213, 04 in byte 151.
fn some_values() -> Values {
    let mut values = default_values();
    put_fours(
        &mut values,
        &[204, 251, 260, 579],
        &[0x41424300, 0x01000100, 0x0000C03F, 0x01000080],
    );
    values
}

fn some_block() -> Block {
    let mut block = default_block();
    put_fours(
        &mut block,
        &[1, 33, 38, 147, 151],
        &[0x41424300, 0x80400000, 0x03FC0000, 0x06000000, 0x04000000],
    );
    block
}

// Entries without NV mark do not come into the block.
fn other_values() -> Values {
    let mut values = default_values();
    values[236] = 0x01;
    values[354] = 0x04;
    values[1023] = 0xFF;
    values
}

// Both sides of trip point 1 at 258, and 800E:11 at 260 is 1500, 44BB8000; in the block from byte 38 on.
fn straight_values() -> Values {
    let mut values = default_values();
    put_fours(&mut values, &[258, 260], &[0x01010000, 0x0080BB44]);
    values
}

fn straight_block() -> Block {
    let mut block = default_block();
    put_fours(&mut block, &[38], &[0x344BB800]);
    block
}

fn stores_some(rt: &impl Print) -> io::Result<()> {
    stores(
        rt,
        "store: label, BOOL, REAL and a last entry",
        &some_values(),
        &some_block(),
    )
}

fn stores_others(rt: &impl Print) -> io::Result<()> {
    stores(
        rt,
        "store: lock, summary and spare bytes stay out",
        &other_values(),
        &default_block(),
    )
}

fn stores_straight(rt: &impl Print) -> io::Result<()> {
    stores(
        rt,
        "store: both sides on, 0 below 1500",
        &straight_values(),
        &straight_block(),
    )
}

pub fn stored(rt: &impl Print) -> io::Result<()> {
    stores(
        rt,
        "store: the defaults",
        &default_values(),
        &default_block(),
    )?;
    stores_some(rt)?;
    stores_others(rt)?;
    stores_straight(rt)
}

// ---- refusing

// A lent NV value outside its limits, or a crossed trip point: nothing is written.
fn refuses(rt: &impl Print, name: &str, values: &Values) -> io::Result<()> {
    let mut block = [0xA5u8; 512];
    let taken = store::store(values, &mut block);
    say(rt, name, !taken & same(&block, &[0xA5u8; 512]))
}

// The defaults, with one number of len bytes lent at a place.
fn refuses_lent(rt: &impl Print, name: &str, at: usize, len: usize, v: u64) -> io::Result<()>
    requires { at + len ≤ 1024 }
{
    let mut values = default_values();
    wire::put_number(&mut values, at, len, v);
    refuses(rt, name, &values)
}

// At 251 stands 8005:01, at 253 8005:11, at 260 800E:11 (2048 is 45000000).
fn refused_first(rt: &impl Print) -> io::Result<()> {
    refuses(rt, "store: all zero, so 8005:11 is 0", &[0u8; 1024])?;
    refuses_lent(rt, "store: BOOL 2 lent", 251, 1, 0x02)?;
    refuses_lent(rt, "store: USINT above", 253, 1, 0x03)?;
    refuses_lent(rt, "store: REAL above", 260, 4, 0x45000000)
}

// At 264 stands 800E:12, at 460 F840:01, at 464 F840:03, at 254 8005:13.
fn refused_last(rt: &impl Print) -> io::Result<()> {
    refuses_lent(rt, "store: source index other", 264, 4, 0x800E1101)?;
    refuses_lent(rt, "store: UDINT below", 460, 4, 0x00210000)?;
    refuses_lent(rt, "store: last NV number with limits", 464, 1, 0x06)?;
    refuses_lent(rt, "store: REAL not a number", 254, 4, 0x7FC00000)
}

// Both sides of trip point 1 at 258, of trip point 2 at 296, where all levels are 0. At 272 stands 800E:14: 1.5 is 3FC00000.
fn crossed_values() -> Values {
    let mut values = straight_values();
    put_fours(&mut values, &[260, 272], &[0x0000803F, 0x0000C03F]);
    values
}

fn refused_crossed(rt: &impl Print) -> io::Result<()> {
    refuses_lent(rt, "store: both sides on, both levels 0", 258, 2, 0x0101)?;
    refuses_lent(rt, "store: the same of the second point", 296, 2, 0x0101)?;
    refuses(rt, "store: both sides on, 1.5 over 1", &crossed_values())
}

pub fn refused(rt: &impl Print) -> io::Result<()> {
    refused_first(rt)?;
    refused_last(rt)?;
    refused_crossed(rt)
}

// ---- there and back

// The NV entries whose defaults are not zero: 8005:11, the source indices, the unit and its code.
fn nv_defaults() -> Values {
    let mut values = [0u8; 1024];
    put_fours(
        &mut values,
        &[253, 264, 276, 292, 302, 314, 330, 461],
        &[
            0x01000000, 0x00110E80, 0x00140E80, 0x00110060, 0x00110F80, 0x00140F80, 0x00110060,
            0x00220001,
        ],
    );
    values
}

// The defaults loaded into zeros are these and no other byte.
fn loads_defaults(rt: &impl Print) -> io::Result<()> {
    let mut values = [0u8; 1024];
    let taken = load::load(&default_block(), &mut values);
    say(
        rt,
        "load: the defaults into zeros",
        taken & same(&values, &nv_defaults()),
    )
}

// What was stored comes back over defaults.
fn comes_back(rt: &impl Print) -> io::Result<()> {
    let values = some_values();
    let mut block = [0u8; 512];
    let stored = store::store(&values, &mut block);
    let mut fresh = default_values();
    let loaded = load::load(&block, &mut fresh);
    say(
        rt,
        "load: what was stored comes back",
        stored & loaded & same(&fresh, &values),
    )
}

// Only NV entries are loaded: lock, summary and spare bytes stay. The summary is worked out behind it (masks.rt).
fn others_stay(rt: &impl Print) -> io::Result<()> {
    let mut values = other_values();
    load::load(&default_block(), &mut values);
    compare_values(
        rt,
        "load alone: lock, summary and spare bytes stay",
        &values,
        &other_values(),
    )
}

// What was loaded is stored as the same 512 bytes.
fn same_block(rt: &impl Print) -> io::Result<()> {
    let mut values = [0x5Au8; 1024];
    let loaded = load::load(&some_block(), &mut values);
    let mut block = [0u8; 512];
    let stored = store::store(&values, &mut block);
    say(
        rt,
        "store: what was loaded, bit by bit",
        loaded & stored & same(&block, &some_block()),
    )
}

// Power-up, whatever the values held: defaults, then the NV entries of the block.
fn powers_up(rt: &impl Print) -> io::Result<()> {
    let mut values = [0x5Au8; 1024];
    gauge::power::fill(&mut values, &some_block());
    compare_values(rt, "power-up: what the block has", &values, &some_values())
}

pub fn back(rt: &impl Print) -> io::Result<()> {
    loads_defaults(rt)?;
    comes_back(rt)?;
    others_stay(rt)?;
    same_block(rt)?;
    powers_up(rt)
}
