// Damaged blocks. The bits of a block: 0 to 3 layout, 4 to 7 model, the label from 8 on (bytes 1 to 32), then 264 8005:01,
// 265 8005:02, 266 8005:11, 274 8005:13, 306 800E:01, 307 800E:02, 308 800E:11, 340 800E:12, 372 :13, 404 :14, 436 :15, 468 :16,
// 500 :17, 532 :18, 564 :1A, 596 800F:01, 597 800F:02, 598 800F:11, 630 :12, 662 :13, 694 :14, 726 :15, 758 :16, 790 :17, 822 :18,
// 854 :1A, 886 F3A1:01 to 1110 F3A8:01, 1142 F840:01, 1174 F840:03, 1182 F9F7:00; from 1214 on zeros.
// A vector is the block of the defaults with some bytes from one place on: the place, how many, and the bytes as they stand.
ghost use Rattle.std.specs.Prelude.{◌+◌, ◌≤◌};

use crate::report::{put, put_fours, same, say};
use std::io;
use table::Block;

// The defaults that are not zero. 8005:11 is 1: bit 273. 800E1100 from bit 340, 800E1400 from 436 and 60001100 from 564 on
// begin in the middle of a byte. 800F1100 from bit 630, 800F1400 from 726 and 60001100 from 854 on begin two bits before a
// byte's end: 10 00000000 00111100 01000100, 10 00000000 00111100 01010000, 01 10000000 00000000 01000100. 00220000 from bit 1142 on:
// 00 00000000 10001000. F840:03 is 1: bit 1181. Here they stand in fours, with the byte that each begins at.
const PLACES: [usize; 9] = [0, 34, 42, 54, 70, 78, 90, 106, 144];

const DEFAULTS: [u32; 9] = [
    0x11000000, 0x40000000, 0x0800E110, 0x0800E140, 0x06000110, 0x02003C44, 0x02003C50, 0x01800044,
    0x88000004,
];

pub fn default_block() -> Block {
    let mut block = [0u8; 512];
    put_fours(&mut block, &PLACES, &DEFAULTS);
    block
}

// A good block is taken and changes the values; a faulty one is refused and leaves every value byte.
fn loads(rt: &impl Print, name: &str, block: &Block, good: bool) -> io::Result<()> {
    let mut values = [0x5Au8; 1024];
    let taken = load::load(block, &mut values);
    let left = same(&values, &[0x5Au8; 1024]);
    say(rt, name, (taken == good) & (left != good))
}

fn loads_with(
    rt: &impl Print,
    name: &str,
    at: usize,
    count: usize,
    run: u64,
    good: bool,
) -> io::Result<()>
    requires { at + count ≤ 512 }
{
    let mut block = default_block();
    put(&mut block, at, count, run);
    loads(rt, name, &block, good)
}

// ---- layout and model

// Byte 0 is 0001 0001, and one bit is other.
fn layouts(rt: &impl Print) -> io::Result<()> {
    loads_with(rt, "block: layout 9", 0, 1, 0x91, false)?;
    loads_with(rt, "block: layout 5", 0, 1, 0x51, false)?;
    loads_with(rt, "block: layout 3", 0, 1, 0x31, false)?;
    loads_with(rt, "block: layout 0", 0, 1, 0x01, false)
}

fn models(rt: &impl Print) -> io::Result<()> {
    loads_with(rt, "block: model 9", 0, 1, 0x19, false)?;
    loads_with(rt, "block: model 5", 0, 1, 0x15, false)?;
    loads_with(rt, "block: model 3", 0, 1, 0x13, false)?;
    loads_with(rt, "block: model 0", 0, 1, 0x10, false)
}

pub fn headers(rt: &impl Print) -> io::Result<()> {
    loads(rt, "block: the defaults", &default_block(), true)?;
    loads(rt, "block: all zero", &[0u8; 512], false)?;
    layouts(rt)?;
    models(rt)
}

// ---- the rest

// Bits 1208 to 1215 are byte 151: 1213 is the last of F9F7:00, 1214 the first of the rest.
pub fn rests(rt: &impl Print) -> io::Result<()> {
    loads_with(rt, "block: last bit of the last entry", 151, 1, 0x04, true)?;
    loads_with(rt, "block: first bit of the rest", 151, 1, 0x02, false)?;
    loads_with(rt, "block: last bit of the rest", 511, 1, 0x01, false)?;
    loads_with(
        rt,
        "block: first whole byte of the rest",
        152,
        1,
        0x80,
        false,
    )
}

// ---- limits

// 8005:11 is 1 or 2. Bits 272 and 273, the first of byte 34, are its last two.
fn filaments(rt: &impl Print) -> io::Result<()> {
    loads_with(rt, "limit: 8005:11 is 0", 34, 1, 0x00, false)?;
    loads_with(rt, "limit: 8005:11 is 2", 34, 1, 0x80, true)?;
    loads_with(rt, "limit: 8005:11 is 3", 34, 1, 0xC0, false)
}

// F840:01 is 00220000 to FD4E0000, from two bits before the end of byte 142 on.
// FD4E0000: 11 11110101 00111000 00000000 000000. FD4E0001 ends in 000001. 0021FFFF: 00 00000000 10000111 11111111 111111.
fn units(rt: &impl Print) -> io::Result<()> {
    loads_with(rt, "limit: F840:01 is FD4E0000", 142, 5, 0x03F5380000, true)?;
    loads_with(
        rt,
        "limit: F840:01 is FD4E0001",
        142,
        5,
        0x03F5380004,
        false,
    )?;
    loads_with(
        rt,
        "limit: F840:01 is 0021FFFF",
        142,
        5,
        0x000087FFFC,
        false,
    )
}

// F840:03 is 1 to 5. Its last six bits begin byte 147: 000110 is 6, 000101 is 5.
fn unit_codes(rt: &impl Print) -> io::Result<()> {
    loads_with(rt, "limit: F840:03 is 0", 147, 1, 0x00, false)?;
    loads_with(rt, "limit: F840:03 is 5", 147, 1, 0x14, true)?;
    loads_with(rt, "limit: F840:03 is 6", 147, 1, 0x18, false)
}

// 800E:11 is 0 to 1500, from the middle of byte 38 to the middle of byte 42, where 800E:12 begins with 8. 44BB8000, 44BB8001,
// minus zero and the first below it.
fn levels(rt: &impl Print) -> io::Result<()> {
    loads_with(rt, "limit: 800E:11 is 1500", 38, 5, 0x044BB80008, true)?;
    loads_with(
        rt,
        "limit: 800E:11 is above 1500",
        38,
        5,
        0x044BB80018,
        false,
    )?;
    loads_with(
        rt,
        "limit: 800E:11 is minus zero",
        38,
        5,
        0x0800000008,
        true,
    )?;
    loads_with(
        rt,
        "limit: 800E:11 is below zero",
        38,
        5,
        0x0800000018,
        false,
    )
}

// 8005:13 is any finite REAL. Byte 34 is 01, the end of 8005:11, and its first six bits.
// 7FC00000: 011111 11110000. 7F800000: 011111 11100000. 7F7FFFFF: 011111 11011111 11111111 11111111 11.
fn currents(rt: &impl Print) -> io::Result<()> {
    loads_with(
        rt,
        "limit: 8005:13 is not a number",
        34,
        5,
        0x5FF0000000,
        false,
    )?;
    loads_with(rt, "limit: 8005:13 is infinite", 34, 5, 0x5FE0000000, false)?;
    loads_with(
        rt,
        "limit: 8005:13 is the largest finite",
        34,
        5,
        0x5FDFFFFFC0,
        true,
    )
}

// 800E:12 takes 800E1100 alone. Its last bit, 371, is 10 in byte 46; its first, 340, is 08 in byte 42.
fn sources(rt: &impl Print) -> io::Result<()> {
    loads_with(rt, "limit: 800E:12 is 800E1101", 46, 1, 0x10, false)?;
    loads_with(rt, "limit: 800E:12 is 000E1100", 42, 1, 0x00, false)
}

// A BOOL is one bit, and no bit is outside its limits: 264, 265, 306, 307, 596 and 597. The high levels are 1500, so that no trip point is
// crossed.
fn bools(rt: &impl Print) -> io::Result<()> {
    let mut block = default_block();
    put_fours(
        &mut block,
        &[33, 38, 74],
        &[0xC0400000, 0x344BB800, 0x0D12EE00],
    );
    loads(rt, "limit: every BOOL is 1", &block, true)
}

pub fn limits(rt: &impl Print) -> io::Result<()> {
    filaments(rt)?;
    units(rt)?;
    unit_codes(rt)?;
    levels(rt)?;
    currents(rt)?;
    sources(rt)?;
    bools(rt)
}

// ---- crossed trip points

// The enables of trip point 1 are 20 and 10 in byte 38; its levels are zero.
fn sides(rt: &impl Print) -> io::Result<()> {
    loads_with(rt, "crossed: both sides, both levels 0", 38, 1, 0x30, false)?;
    loads_with(rt, "crossed: not by the high side alone", 38, 1, 0x20, true)?;
    loads_with(rt, "crossed: not by the low side alone", 38, 1, 0x10, true)
}

// Of trip point 2 they are 08 and 04 in byte 74. 800F:11 from two bits before its end on is 1500, 44BB8000: 01 00010010 11101110 00000000 000000,
// and 800F:12 begins with 10.
fn second_point(rt: &impl Print) -> io::Result<()> {
    loads_with(rt, "crossed: the second point", 74, 1, 0x0C, false)?;
    loads_with(
        rt,
        "crossed: not the second, 0 below 1500",
        74,
        5,
        0x0D12EE0002,
        true,
    )
}

// Both sides of trip point 1, with 800E:11 from the middle of byte 38 and 800E:14 from that of byte 50 on: 1500 is 44BB8000, 1 is 3F800000.
fn loads_levels(rt: &impl Print, name: &str, upper: u32, lower: u32, good: bool) -> io::Result<()> {
    let mut block = default_block();
    put_fours(&mut block, &[38, 50], &[upper, lower]);
    loads(rt, name, &block, good)
}

fn both_levels(rt: &impl Print) -> io::Result<()> {
    loads_levels(rt, "crossed: 1500 over 1", 0x33F80000, 0x044BB800, false)?;
    loads_levels(rt, "crossed: 1500 and 1500", 0x344BB800, 0x044BB800, false)?;
    loads_levels(
        rt,
        "crossed: not 1 below 1500",
        0x344BB800,
        0x03F80000,
        true,
    )
}

pub fn crossed(rt: &impl Print) -> io::Result<()> {
    sides(rt)?;
    second_point(rt)?;
    both_levels(rt)
}
