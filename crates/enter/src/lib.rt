// A trip card that is written: its fields, its judgement, and the write into the trip entries. It is a slice of 33 bytes by a clause and no array: it comes as what was
// sent, whose length is known from its row, and to make an array of it would be one more way out.
#![tactic(auto)]

ghost use Rattle.std.specs.Prelude.{◌&&◌, ◌||◌, ◌≡◌, ◌+◌, ◌*◌, ◌/◌, ◌%◌, ◌≤◌, ◌<◌, length, get_or};
ghost use Rattle.card.specs.Card.{point_1, point_2, fields_of, level_verdict, layout_verdict, first_bad, card_verdict, with_point, with_card};
ghost use Rattle.card.specs.Asked.{plainly_within, fields_crossed};

use limits::{Outside, Verdict};
use table::{Values, kind, place};
use wire::Number;

// ---- a card's fields

// The two low bits of a byte or word, then the 30 high bits of the next.
fn cut(a: u32, b: u32) -> u32
    ensures { result ≡ a % 4 * 1073741824 + b / 4 }
{
    a % 4 * 1073741824 + b / 4
}

// Of trip point 1, from bit 4 on.
fn fields_1(card: &[u8]) -> [u32; 6]
    requires { length card.now ≡ 33 }
    ensures { result ≡ fields_of card.now point_1 }
{
    let head = u32::from(card[0]);
    let a = bits::word_at(card, 1);
    let b = bits::word_at(card, 5);
    let c = bits::word_at(card, 9);
    let d = bits::word_at(card, 13);
    [
        head / 8 % 2,
        head / 4 % 2,
        cut(head, a),
        cut(a, b),
        cut(b, c),
        cut(c, d),
    ]
}

// Of trip point 2, from bit 134 on.
fn fields_2(card: &[u8]) -> [u32; 6]
    requires { length card.now ≡ 33 }
    ensures { result ≡ fields_of card.now point_2 }
{
    let head = u32::from(card[16]);
    let a = bits::word_at(card, 17);
    let b = bits::word_at(card, 21);
    let c = bits::word_at(card, 25);
    let d = bits::word_at(card, 29);
    [head / 2 % 2, head % 2, a, b, c, d]
}

// ---- judging

fn judge_layout(v: u32) -> Verdict
    ensures { result ≡ layout_verdict v }
{
    if v == 1 {
        return Ok(());
    }
    Err(Outside::NotANumber)
}

// 0x80000000 and 0xC4BB8000 are the ranks of 0 and 1500: the limits of each level and hysteresis in the table.
fn judge_level(v: u32) -> Verdict
    ensures { result ≡ level_verdict v }
{
    limits::judge_number(kind::REAL, 0x80000000, 0xC4BB8000, v)
}

// The first that is not within.
fn judge_levels(a: u32, b: u32, c: u32, d: u32) -> Verdict
    ensures { result ≡ first_bad (level_verdict a) (first_bad (level_verdict b) (first_bad (level_verdict c) (level_verdict d))) }
{
    judge_level(a)?;
    judge_level(b)?;
    judge_level(c)?;
    judge_level(d)
}

// Patterns up to that of 1500 are numbers from 0 to 1500.
const HIGHEST: u32 = 0x44BB8000;

fn plainly_within(fields: [u32; 6]) -> bool
    ensures { result ≡ plainly_within fields }
{
    if HIGHEST < fields[2] {
        return false;
    }
    if HIGHEST < fields[3] {
        return false;
    }
    if HIGHEST < fields[4] {
        return false;
    }
    fields[5] <= HIGHEST
}

fn both_within(one: [u32; 6], two: [u32; 6]) -> bool
    ensures { result ≡ (plainly_within one && plainly_within two) }
{
    plainly_within(one) && plainly_within(two)
}

// A whole card: layout, levels and hystereses, in this order.
pub fn judge(card: &[u8]) -> Verdict
    requires { length card.now ≡ 33 }
    ensures { result ≡ card_verdict card.now }
{
    judge_layout(u32::from(card[0]) / 16)?;
    let one = fields_1(card);
    let two = fields_2(card);
    if both_within(one, two) {
        return Ok(());
    }
    judge_levels(one[2], one[3], one[4], one[5])?;
    judge_levels(two[2], two[3], two[4], two[5])
}

fn point_crossed(fields: [u32; 6]) -> bool
    ensures { result ≡ fields_crossed fields }
{
    crossed::by_numbers(fields[0], fields[1], fields[2], fields[4])
}

// Does a card leave a trip point crossed?
pub fn is_crossed(card: &[u8]) -> bool
    requires { length card.now ≡ 33 }
    ensures { result ≡ (fields_crossed (fields_of card.now point_1) || fields_crossed (fields_of card.now point_2)) }
{
    let one = fields_1(card);
    let two = fields_2(card);
    if point_crossed(one) {
        return true;
    }
    point_crossed(two)
}

// ---- writing

fn write_point(values: &mut [u8], to: usize, fields: [u32; 6])
    requires { (to + 34 ≤ length values.old) × (get_or fields 0 0 < 2) × (get_or fields 1 0 < 2) }
    ensures { values.new ≡ with_point values.old to fields }
{
    (fields[0] as u8).put(values, to + place::HIGH_ENABLE);
    (fields[1] as u8).put(values, to + place::LOW_ENABLE);
    fields[2].put(values, to + place::HIGH_LEVEL);
    fields[3].put(values, to + place::HIGH_HYSTERESIS);
    fields[4].put(values, to + place::LOW_LEVEL);
    fields[5].put(values, to + place::LOW_HYSTERESIS);
}

// A whole card into the trip entries.
pub fn write(values: &mut Values, card: &[u8])
    requires { length card.now ≡ 33 }
    ensures { values.new ≡ with_card values.old card.now }
{
    write_point(values, place::SETTINGS_1, fields_1(card));
    write_point(values, place::SETTINGS_2, fields_2(card));
}
