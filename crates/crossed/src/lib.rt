// A crossed trip point: both its sides are enabled, and its low level is not below its high one.
#![tactic(auto)]

ghost use Rattle.std.specs.Prelude.{true, ◌≡◌, ◌+◌, ◌≤◌, length};
ghost use Rattle.wire.specs.Splice.{splice};
ghost use Rattle.wire.specs.Little.{number};
ghost use Rattle.limits.specs.Limits.{number_len};
ghost use Rattle.crossed.specs.Crossed.{crossed, crossed_at, straight};
ghost use Rattle.crossed.specs.Fitting.{own_or_apart, Fits};

use table::{Values, kind, place};

// By the enables of its high and its low side, and the bit patterns of their levels.
pub fn by_numbers(on_high: u32, on_low: u32, level_high: u32, level_low: u32) -> bool
    ensures { result ≡ crossed on_high on_low level_high level_low }
{
    if on_high == 0 {
        return false;
    }
    if on_low == 0 {
        return false;
    }
    let below = wire::real_of(level_low) < wire::real_of(level_high);
    !below
}

// The point whose settings begin at a place.
#[tactic(auto, unfolding(limits::specs::Limits::number_len))]
fn is_at(values: &[u8], at: usize) -> bool
    requires { at + 34 ≤ length values.now }
    ensures { result ≡ crossed_at values.now at }
{
    by_numbers(
        limits::number_by(values, at + place::HIGH_ENABLE, kind::BOOL),
        limits::number_by(values, at + place::LOW_ENABLE, kind::BOOL),
        limits::number_by(values, at + place::HIGH_LEVEL, kind::REAL),
        limits::number_by(values, at + place::LOW_LEVEL, kind::REAL),
    )
}

// Is neither point crossed?
pub fn is_straight(values: &Values) -> bool
    ensures { result ≡ straight values.now }
{
    if is_at(values, place::SETTINGS_1) {
        return false;
    }
    !is_at(values, place::SETTINGS_2)
}

// ---- with some bytes in the place of what stands there

// A number of the values, or of the bytes if they are to stand there.
fn number_after(values: &Values, at: usize, kind: u8, bytes: &[u8], place: usize) -> u32
    requires { (at + number_len kind ≤ 1024) × (place + length bytes.now ≤ 1024) × (own_or_apart at (number_len kind) place (length bytes.now) ≡ true) }
    ensures { result ≡ number (splice values.now place bytes.now) at (number_len kind) }
{
    if at == place {
        return limits::number_by(bytes, 0, kind);
    }
    limits::number_by(values, at, kind)
}

// The point whose settings begin at a place, with these bytes at theirs.
// As is_at, from two places: a closure for the number would be held to four numbers by its F.post, which is longer than the four lines.
#[tactic(auto, unfolding(limits::specs::Limits::number_len), using(crate::proofs::CrossedLaws::fields_fit))]
pub fn is_after(values: &Values, at: usize, bytes: &[u8], place: usize) -> bool
    requires { (at + 34 ≤ 1024) × Fits at place (length bytes.now) }
    ensures { result ≡ crossed_at (splice values.now place bytes.now) at }
{
    by_numbers(
        number_after(values, at + place::HIGH_ENABLE, kind::BOOL, bytes, place),
        number_after(values, at + place::LOW_ENABLE, kind::BOOL, bytes, place),
        number_after(values, at + place::HIGH_LEVEL, kind::REAL, bytes, place),
        number_after(values, at + place::LOW_LEVEL, kind::REAL, bytes, place),
    )
}
