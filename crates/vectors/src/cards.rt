// The trip card. Its bits: 0 to 3 layout; 4 and 5 enables of point 1; from 6 on high level, from 38 high hysteresis, from 70 low
// level, from 102 low hysteresis; 134 and 135 enables of point 2; from 136 on (byte 17, 21, 25, 29) its four numbers.
// A card stands here as its bytes 0 to 3, 4 to 7 and so on; byte 32 is zero in all of them. Its settings stand as bytes of the values,
// where numbers are little-endian: of point 1 the enables (high at 258, low at 259, after two bytes of no setting), high level (260),
// low level (272), high hysteresis (284) and low hysteresis (288), then the same of point 2, 38 bytes later.
use crate::report::{compare_values, put_fours, same, say};
use limits::Verdict;
use std::io;
use table::Values;
use table::code::AbortCode;

// ---- cards and their settings

// Nothing but the layout.
const ZERO: [u32; 8] = [0x10000000, 0, 0, 0, 0, 0, 0, 0];

const OFF: [u32; 10] = [0, 0, 0, 0, 0, 0, 0, 0, 0, 0];

// Example K. Byte 0 is 0001 (layout) 0 1 (enables) 00. 0.5 is 3F000000: from bit 70 on, 00 ends byte 8, and 11111100 is byte 9.
// 0.125 is 3E000000: from bit 102 on, 00 ends byte 12, and 11111000 is byte 13.
const K: [u32; 8] = [0x14000000, 0, 0x00FC0000, 0x00F80000, 0, 0, 0, 0];

const K_SET: [u32; 10] = [0x00000001, 0, 0x0000003F, 0, 0x0000003E, 0, 0, 0, 0, 0];

// Both sides of both points, with eight levels and hystereses. Point 1: 2.0 is 40000000, 0.5 3F000000, 1.0 3F800000, 0.25
// 3E800000; two bits before a byte's end: 01 ends byte 0, then FC in byte 5, FE in byte 9, FA in byte 13. Point 2: 11 ends byte
// 16, then 1000.0 is 447A0000, 10.0 41200000, 100.0 42C80000, 1.5 3FC00000, byte by byte.
const FULL: [u32; 8] = [
    0x1D000000, 0x00FC0000, 0x00FE0000, 0x00FA0000, 0x03447A00, 0x00412000, 0x0042C800, 0x003FC000,
];

const FULL_SET: [u32; 10] = [
    0x00000101, 0x00000040, 0x0000803F, 0x0000003F, 0x0000803E, 0x00000101, 0x00007A44, 0x0000C842,
    0x00002041, 0x0000C03F,
];

// Minus zero is 80000000. Low level of point 1: 10 ends byte 8. Low hysteresis of point 2: 80 in byte 29.
const MINUS_ZERO: [u32; 8] = [0x10000000, 0, 0x02000000, 0, 0, 0, 0, 0x00800000];

const MINUS_ZERO_SET: [u32; 10] = [0, 0, 0x00000080, 0, 0, 0, 0, 0, 0, 0x00000080];

// NaNs lent in the values, bit for bit. High hysteresis of point 1, 7FC00001: 01 ends byte 4, 11111111 00000000 00000000, and
// 000001 begins byte 8. High level of point 2, FFFFFFFF: bytes 17 to 20.
const LENT: [u32; 8] = [
    0x10000000, 0x01FF0000, 0x04000000, 0, 0x00FFFFFF, 0xFF000000, 0, 0,
];

const LENT_SET: [u32; 10] = [0, 0, 0, 0x0100C07F, 0, 0, 0xFFFFFFFF, 0, 0, 0];

// Enable bytes 07 and 80 are both 1: 0001 1 0 00 is byte 0, and 01 ends byte 16.
const ENABLES: [u32; 8] = [0x18000000, 0, 0, 0, 0x01000000, 0, 0, 0];

const ENABLES_SET: [u32; 10] = [0x00000700, 0, 0, 0, 0, 0x00000080, 0, 0, 0, 0];

// High level of point 1, 12345678: 00 ends byte 0, then 01001000 11010001 01011001, and 111000 begins byte 4.
const ACROSS: [u32; 8] = [0x1048D159, 0xE0000000, 0, 0, 0, 0, 0, 0];

const ACROSS_SET: [u32; 10] = [0, 0x78563412, 0, 0, 0, 0, 0, 0, 0, 0];

fn values_of(set: [u32; 10]) -> Values {
    let mut values = [0u8; 1024];
    put_fours(
        &mut values,
        &[256, 260, 272, 284, 288, 294, 298, 310, 322, 326],
        &set,
    );
    values
}

fn card_of(card: [u32; 8]) -> [u8; 33] {
    let mut bytes = [0u8; 33];
    put_fours(&mut bytes, &[0, 4, 8, 12, 16, 20, 24, 28], &card);
    bytes
}

// The 33 bytes, with zeros behind them.
fn whole(card: &[u8; 33]) -> [u8; 64] {
    let mut bytes = [0u8; 64];
    bytes[..33].copy_from_slice(card);
    bytes
}

fn shows(rt: &impl Print, name: &str, set: [u32; 10], card: [u32; 8]) -> io::Result<()> {
    let shown = card::card_of(&values_of(set));
    say(rt, name, same(&shown, &whole(&card_of(card))))
}

pub fn shown(rt: &impl Print) -> io::Result<()> {
    shows(rt, "card: example K", K_SET, K)?;
    shows(rt, "card: all zero", OFF, ZERO)?;
    shows(rt, "card: both points, all sides", FULL_SET, FULL)?;
    shows(rt, "card: minus zero", MINUS_ZERO_SET, MINUS_ZERO)?;
    shows(rt, "card: not a number, lent", LENT_SET, LENT)?;
    shows(rt, "card: enables other than 0 and 1", ENABLES_SET, ENABLES)?;
    shows(rt, "card: a number across five bytes", ACROSS_SET, ACROSS)
}

// ---- judging

fn code_told(verdict: Verdict) -> u32 {
    match verdict {
        Ok(()) => 0,
        Err(outside) => u32::from(AbortCode::from(outside)),
    }
}

// Expects the code of the verdict, 0 for none.
fn judges(rt: &impl Print, name: &str, card: [u32; 8], code: u32) -> io::Result<()> {
    say(rt, name, code_told(enter::judge(&card_of(card))) == code)
}

fn whole_cards(rt: &impl Print) -> io::Result<()> {
    judges(rt, "judged: example K", K, 0)?;
    judges(rt, "judged: all sides", FULL, 0)?;
    judges(rt, "judged: minus zero", MINUS_ZERO, 0)?;
    judges(rt, "judged: not a number", LENT, 0x06090030)
}

// Only the layout, and high level and high hysteresis of point 2, from byte 17 and byte 21 on.
fn layouts(rt: &impl Print) -> io::Result<()> {
    judges(rt, "judged: layout 0", [0, 0, 0, 0, 0, 0, 0, 0], 0x06090030)?;
    judges(
        rt,
        "judged: layout 2 before a level above",
        [0x20000000, 0, 0, 0, 0x0044BB80, 0x01000000, 0, 0],
        0x06090030,
    )
}

// 1500 is 44BB8000; 80000001 is the first below minus zero.
fn levels(rt: &impl Print) -> io::Result<()> {
    judges(
        rt,
        "judged: 1500",
        [0x10000000, 0, 0, 0, 0x0044BB80, 0x0044BB80, 0, 0],
        0,
    )?;
    judges(
        rt,
        "judged: level above",
        [0x10000000, 0, 0, 0, 0x0044BB80, 0x01000000, 0, 0],
        0x06090031,
    )?;
    judges(
        rt,
        "judged: level below",
        [0x10000000, 0, 0, 0, 0x00800000, 0x01000000, 0, 0],
        0x06090032,
    )
}

// 7F800000 and FF800000 are the infinities, 7FC00000 is not a number.
fn first_fields(rt: &impl Print) -> io::Result<()> {
    judges(
        rt,
        "judged: above before not a number",
        [0x10000000, 0, 0, 0, 0x007F8000, 0x007FC000, 0, 0],
        0x06090031,
    )?;
    judges(
        rt,
        "judged: below before above",
        [0x10000000, 0, 0, 0, 0x00FF8000, 0x007F8000, 0, 0],
        0x06090032,
    )
}

pub fn judged(rt: &impl Print) -> io::Result<()> {
    whole_cards(rt)?;
    layouts(rt)?;
    levels(rt)?;
    first_fields(rt)
}

// ---- writing

// A card written into zeros is these settings.
fn writes(rt: &impl Print, name: &str, card: [u32; 8], set: [u32; 10]) -> io::Result<()> {
    let mut values = [0u8; 1024];
    enter::write(&mut values, &card_of(card));
    say(rt, name, same(&values, &values_of(set)))
}

// Bytes of no setting.
fn with_others(set: [u32; 10]) -> Values {
    let mut values = values_of(set);
    values[0] = 0x11;
    values[264] = 0x22;
    values[1023] = 0x33;
    values
}

// A card of zeros over lent enables and levels: only the twelve entries change.
fn writes_over(rt: &impl Print) -> io::Result<()> {
    let mut values = with_others(FULL_SET);
    enter::write(&mut values, &card_of(ZERO));
    compare_values(
        rt,
        "written: zeros, and all else stays",
        &values,
        &with_others(OFF),
    )
}

pub fn written(rt: &impl Print) -> io::Result<()> {
    writes(rt, "written: example K", K, K_SET)?;
    writes(rt, "written: all sides", FULL, FULL_SET)?;
    writes_over(rt)
}
