// A value against the limits of its row. Limits are ranks: their places in the order of the type.
#![tactic(auto)]

ghost use Rattle.std.specs.Prelude.{◌≡◌, ◌+◌, ◌≤◌, length};
ghost use Rattle.wire.specs.Little.{number};
ghost use Rattle.limits.specs.Limits.{whole_verdict, abort_for, number_len, number_verdict, row_verdict};
ghost use Rattle.limits.specs.Ranks.{rank_verdict};
ghost use Rattle.table.specs.Row.{ULINT, REAL};
ghost use Rattle.table.specs.Rows.{at_row};
ghost use Rattle.table.specs.Rule.{rank};

use find::row::Row;
use table::code::AbortCode;
use table::kind;
use wire::Number;

// What is wrong with a value that is not within its limits.
#[derive(Clone, Copy, PartialEq, Eq)]
pub enum Outside {
    NotANumber,
    Above,
    Below,
}

impl From<Outside> for AbortCode {
    ghost from_gives = { λ outside abort. abort ≡ abort_for outside };

    fn from(outside: Outside) -> AbortCode {
        match outside {
            Outside::NotANumber => AbortCode::NotANumber,
            Outside::Above => AbortCode::TooHigh,
            Outside::Below => AbortCode::TooLow,
        }
    }
}

pub type Verdict = Result<(), Outside>;

// The place of a number in the order of its type, a REAL's by its bit pattern.
pub fn rank_of(kind: u8, v: u32) -> u32
    ensures { result ≡ rank kind v }
{
    if kind != kind::REAL {
        return v;
    }
    if v < 2147483648 {
        return 2147483648 + v;
    }
    4294967295 - v + 1
}

fn judge_whole(low: u32, high: u32, v: u32) -> Verdict
    ensures { result ≡ whole_verdict low high v }
{
    if high < v {
        return Err(Outside::Above);
    }
    if v < low {
        return Err(Outside::Below);
    }
    Ok(())
}

// A REAL is judged on its bit pattern: above the pattern of infinity, without the sign, stand the NaNs.
fn judge_real(low: u32, high: u32, v: u32) -> Verdict
    ensures { result ≡ rank_verdict REAL low high v }
{
    if 2139095040 < v % 2147483648 {
        return Err(Outside::NotANumber);
    }
    judge_whole(low, high, rank_of(kind::REAL, v))
}

// Any number of a row against that row's kind and limits.
pub fn judge_number(kind: u8, low: u32, high: u32, v: u32) -> Verdict
    ensures { result ≡ rank_verdict kind low high v }
{
    match kind {
        kind::BOOL..=kind::ULINT => judge_whole(low, high, v),
        kind::REAL => judge_real(low, high, v),
        _ => Ok(()),
    }
}

// ---- of a row

// The number that stands at a place, by its type.
pub fn number_by(bytes: &[u8], at: usize, kind: u8) -> u32
    requires { at + number_len kind ≤ length bytes.now }
    ensures { result ≡ number bytes.now at (number_len kind) }
{
    if kind::UINT < kind {
        return u32::at(bytes, at);
    }
    if kind == kind::UINT {
        return u32::from(u16::at(bytes, at));
    }
    u32::from(u8::at(bytes, at))
}

// A number of a row that is no ULINT.
fn judge_kind(row: Row, v: u32) -> Verdict
    requires { (at_row row).kind ≡ ULINT → ⊥ }
    ensures { result ≡ number_verdict (at_row row) v }
{
    let both = row.limits();
    judge_number(row.kind(), both.low, both.high, v)
}

// A value of the row's type and length. Only the bytes of a number are looked at, and a ULINT takes every number.
pub fn judge(row: Row, value: &[u8]) -> Verdict
    requires { length value.now ≡ (at_row row).len }
    ensures { result ≡ row_verdict (at_row row) value.now }
{
    let kind = row.kind();
    match kind {
        kind::BOOL..=kind::UDINT | kind::REAL => judge_kind(row, number_by(value, 0, kind)),
        _ => Ok(()),
    }
}
