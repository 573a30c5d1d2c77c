// The trip card: a view of the trip entries in the values. The words of trip point 1 begin two bits before a whole byte, those of trip
// point 2 on one.
#![tactic(auto)]

ghost use Rattle.std.specs.Prelude.{◌++◌, ◌≡◌, ◌+◌, ◌*◌, ◌/◌, ◌%◌, ◌≤◌, ◌<◌, length, replicate, get_or};
ghost use Rattle.wire.specs.Splice.{splice};
ghost use Rattle.bits.specs.Bits.{msb, bits};
ghost use Rattle.card.specs.Card.{enable, point_fields, card_of};

use table::{Values, place};
use wire::Number;

fn enable_at(values: &[u8], at: usize) -> u32
    requires { at + 1 ≤ length values.now }
    ensures { result ≡ enable values.now at }
{
    u32::from(wire::is_set(values, at))
}

// The fields of the point whose entries begin at a place, by their places in the card, as `point_fields` lists them (R3.2).
fn point_at(values: &[u8], from: usize) -> [u32; 6]
    requires { from + 34 ≤ length values.now }
    ensures { result ≡ point_fields values.now from }
{
    [
        enable_at(values, from + place::HIGH_ENABLE),
        enable_at(values, from + place::LOW_ENABLE),
        u32::at(values, from + place::HIGH_LEVEL),
        u32::at(values, from + place::HIGH_HYSTERESIS),
        u32::at(values, from + place::LOW_LEVEL),
        u32::at(values, from + place::LOW_HYSTERESIS),
    ]
}

// The 30 low bits of a word, then the two high bits of the next.
fn joined(a: u32, b: u32) -> u32
    ensures { result ≡ a % 1073741824 * 4 + b / 1073741824 }
{
    a % 1073741824 * 4 + b / 1073741824
}

// Four words into the bytes from a place on.
fn put_words(card: &mut [u8], at: usize, a: u32, b: u32, c: u32, d: u32)
    requires { at + 16 ≤ length card.old }
    ensures { bits card.new ≡ splice (bits card.old) (8 * at) (msb 32 a ++ (msb 32 b ++ (msb 32 c ++ msb 32 d))) }
{
    bits::put_word(card, at, a);
    bits::put_word(card, at + 4, b);
    bits::put_word(card, at + 8, c);
    bits::put_word(card, at + 12, d);
}

// The 17 bytes of six bits, four words and two bits.
fn put_first(card: &mut [u8], head: u32, a: u32, b: u32, c: u32, d: u32, tail: u32)
    requires { (17 ≤ length card.old) × (head < 64) × (tail < 4) }
    ensures { bits card.new ≡ splice (bits card.old) 0 (msb 6 head ++ (msb 32 a ++ (msb 32 b ++ (msb 32 c ++ (msb 32 d ++ msb 2 tail))))) }
{
    card[0] = (head * 4 + a / 1073741824) as u8;
    put_words(
        card,
        1,
        joined(a, b),
        joined(b, c),
        joined(c, d),
        joined(d, tail * 1073741824),
    );
}

// The two enables of a point as two bits.
fn enables(point: [u32; 6]) -> u32
    requires { (get_or point 0 0 < 2) × (get_or point 1 0 < 2) }
    ensures { (result ≡ get_or point 0 0 * 2 + get_or point 1 0) × (result < 4) }
{
    point[0] * 2 + point[1]
}

// The card as the first 33 bytes of what is lent: layout, trip point 1 and the enables of 2; then the words of 2.
fn put_card(card: &mut [u8], values: &Values)
    requires { (33 ≤ length card.old) × (length card.old ≤ 64) }
    ensures { card.new ≡ splice card.old 0 (card_of values.now) }
{
    let one = point_at(values, place::SETTINGS_1);
    let two = point_at(values, place::SETTINGS_2);
    put_first(
        card,
        4 + enables(one),
        one[2],
        one[3],
        one[4],
        one[5],
        enables(two),
    );
    put_words(card, 17, two[2], two[3], two[4], two[5]);
}

// The 33 bytes of the card, with zeros behind them: no heap, so it has the room of what is held (R16.5).
pub fn card_of(values: &Values) -> [u8; 64]
    ensures { result ≡ splice (replicate 64 0) 0 (card_of values.now) }
{
    let mut card = [0u8; 64];
    put_card(&mut card, values);
    card
}
