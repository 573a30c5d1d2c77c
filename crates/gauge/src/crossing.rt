// Would a write leave its trip point crossed? Four fields are read, the written one from what is sent.
ghost use Rattle.std.specs.Prelude.{true, ◌&&◌, ◌||◌, ◌≡◌, ◌+◌, ◌≤◌, length};
ghost use Rattle.wire.specs.Splice.{splice};
ghost use Rattle.table.specs.Row.{Allowed};
ghost use Rattle.table.specs.Rows.{at_row};
ghost use Rattle.crossed.specs.Crossed.{crossed_at};
ghost use Rattle.crossed.specs.Fitting.{Fits};
ghost use Rattle.gauge.specs.Among.{among};
ghost use Rattle.gauge.specs.Written.{crosses_1, crosses_2};

use crate::places;
use find::row::Row;
use table::{Values, kind, place};

// Bytes for the entry at a place, judged by the trip point that has so many bytes of settings from a place on: by its own alone.
fn entry_crosses(values: &Values, from: usize, size: usize, bytes: &[u8], at: usize) -> bool
    requires { (34 ≤ size) × (from + size ≤ 1024) × (among from size at ≡ true → Fits from at (length bytes.now)) }
    ensures { result ≡ (among from size at && crossed_at (splice values.now at bytes.now) from) }
{
    if places::is_among(from, size, at) {
        return crossed::is_after(values, from, bytes, at);
    }
    false
}

// A value for a row: the card is judged by both trip points, a command by none.
pub fn leaves_crossed(values: &Values, row: Row, bytes: &[u8]) -> bool
    requires { Allowed (at_row row) (length bytes.now) }
    ensures { result ≡ (crosses_1 (at_row row) values.now bytes.now || crosses_2 (at_row row) values.now bytes.now) }
{
    let kind = row.kind();
    if kind == kind::CARD {
        return enter::is_crossed(bytes);
    }
    if kind == kind::COMMAND {
        return false;
    }
    let at = row.place();
    if entry_crosses(values, place::SETTINGS_1, place::SETTINGS_1_SIZE, bytes, at) {
        return true;
    }
    entry_crosses(values, place::SETTINGS_2, place::SETTINGS_2_SIZE, bytes, at)
}
