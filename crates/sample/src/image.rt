// The cyclic image of the default mapping, ten bytes.
ghost use Rattle.std.specs.Prelude.{◌≡◌, ◌≤◌, length};
ghost use Rattle.wire.specs.Splice.{splice};
ghost use Rattle.sample.specs.Image.{image_of};

use table::{Values, place};
use wire::{Number, is_set};

pub fn image(values: &Values, out: &mut [u8])
    requires { 10 ≤ length out.old }
    ensures { out.new ≡ splice out.old 0 (image_of values.now) }
{
    let valid = u8::from(is_set(values, place::READING_VALID));
    let over = u8::from(is_set(values, place::OVERRANGE));
    let under = u8::from(is_set(values, place::UNDERRANGE));
    let pressure = u32::at(values, place::INPUT_VALUE);
    let summary = u8::at(values, place::SUMMARY_BYTE);
    let outputs = u32::at(values, place::TRIP_OUTPUTS);
    (valid + over * 2 + under * 4).put(out, 0);
    pressure.put(out, 1);
    summary.put(out, 5);
    outputs.put(out, 6);
}
