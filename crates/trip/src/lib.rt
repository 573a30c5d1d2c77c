// Trip sides and points by value: how a sample turns them on and off.
#![tactic(auto)]

ghost use Rattle.std.specs.Prelude.{◌≡◌, Some, None, cond};
ghost use Rattle.trip.specs.Trip.{side_settled, low_next, high_next, point_next, all_off, usable_pressure};

#[derive(Clone, Copy)]
pub struct Side {
    pub level: f32,
    pub hysteresis: f32,
    pub enabled: bool,
}

#[derive(Clone, Copy)]
pub struct Point {
    pub high: Side,
    pub low: Side,
}

// Which sides of a point are on.
#[derive(Clone, Copy)]
pub struct On {
    pub high: bool,
    pub low: bool,
}

// Both trip points.
#[derive(Clone, Copy)]
pub struct Trips {
    pub one: On,
    pub two: On,
}

fn settle(enabled: bool, on: bool, off: bool, was: bool) -> bool
    ensures { result ≡ side_settled enabled on off was }
{
    if !enabled {
        return false;
    }
    if off {
        return false;
    }
    if on {
        return true;
    }
    was
}

// The two sides differ in the sense of each comparison and in the sign of the hysteresis; given as closures these are longer than the two lines.
pub fn low_next(side: Side, was: bool, p: f32) -> bool
    ensures { result ≡ low_next side was p }
{
    let opening = side.level + side.hysteresis;
    settle(side.enabled, p < side.level, p > opening, was)
}

pub fn high_next(side: Side, was: bool, p: f32) -> bool
    ensures { result ≡ high_next side was p }
{
    let opening = side.level - side.hysteresis;
    settle(side.enabled, p > side.level, p < opening, was)
}

pub fn next(point: Point, was: On, p: f32) -> On
    ensures { result ≡ point_next point was p }
{
    let upper = point.high;
    let lower = point.low;
    let high = high_next(upper, was.high, p);
    let low = low_next(lower, was.low, p);
    On { high, low }
}

pub fn all_off() -> Trips
    ensures { result ≡ all_off }
{
    let off = On {
        high: false,
        low: false,
    };
    Trips { one: off, two: off }
}

// The pressure of a sample that counts as valid: its flag is not 0, and the pressure is not negative and is finite. An infinity less itself
// is NaN.
pub fn usable(p: f32, valid: u8) -> Option<f32>
    ensures { result ≡ cond (usable_pressure p valid) (Some p) None }
{
    if valid == 0 {
        return None;
    }
    if p < 0.0 {
        return None;
    }
    if p - p == 0.0 {
        return Some(p);
    }
    None
}
