// A sample: reading, trips, fault words, summary byte and time; and the cyclic image.
#![tactic(auto)]

pub mod image;

ghost use Rattle.std.specs.Prelude.{false, ◌≡◌, ◌+◌, ◌≤◌, length};
ghost use Rattle.std.specs.Float.Ieee.{is_nan};
ghost use Rattle.trip.specs.Trip.{all_off};
ghost use Rattle.sample.specs.Faults.{kept_faults, with_faults, summary_of, with_summary};
ghost use Rattle.sample.specs.Sample.{settings, trips_next, trips_after, with_pressure, with_none, with_reading, trip_word, with_trip_entries, values_after};

use table::{Values, place};
use trip::{Point, Side, Trips};
use wire::{Number, is_set};

fn settings_at(values: &[u8], at: usize) -> Point
    requires { at + 34 ≤ length values.now }
    ensures { result ≡ settings values.now at }
{
    let high = Side {
        level: wire::real_at(values, at + place::HIGH_LEVEL),
        hysteresis: wire::real_at(values, at + place::HIGH_HYSTERESIS),
        enabled: is_set(values, at + place::HIGH_ENABLE),
    };
    let low = Side {
        level: wire::real_at(values, at + place::LOW_LEVEL),
        hysteresis: wire::real_at(values, at + place::LOW_HYSTERESIS),
        enabled: is_set(values, at + place::LOW_ENABLE),
    };
    Point { high, low }
}

// Both points, one sample on, by the settings that stand in the values.
fn next_trips(values: &Values, was: Trips, p: f32) -> Trips
    ensures { result ≡ trips_next values.now was p }
{
    let first = was.one;
    let second = was.two;
    let one = trip::next(settings_at(values, place::SETTINGS_1), first, p);
    let two = trip::next(settings_at(values, place::SETTINGS_2), second, p);
    Trips { one, two }
}

fn put_reading(values: &mut Values, p: f32)
    requires { is_nan p ≡ false }
    ensures { values.new ≡ with_pressure p values.old }
{
    let pattern = wire::bits_of(p);
    pattern.put(values, place::INPUT_VALUE);
    pattern.put(values, place::TRIP_INPUT_1);
    pattern.put(values, place::TRIP_INPUT_2);
    1u8.put(values, place::READING_VALID);
}

fn word_of(t: Trips) -> u8
    ensures { result ≡ trip_word t }
{
    let one = t.one;
    let two = t.two;
    u8::from(one.high) + u8::from(one.low) * 2 + u8::from(two.high) * 4 + u8::from(two.low) * 8
}

// The status entries of both points stand in a row, a byte for each side.
fn put_trips(values: &mut Values, t: Trips)
    ensures { values.new ≡ with_trip_entries t values.old }
{
    let one = t.one;
    let two = t.two;
    wire::put_flags(
        values,
        place::STATUS_1,
        one.high,
        one.low,
        two.high,
        two.low,
    );
    u32::from(word_of(t)).put(values, place::TRIP_OUTPUTS);
}

// A sample whose pressure is usable.
fn take_usable(values: &mut Values, was: Trips, p: f32) -> Trips
    requires { is_nan p ≡ false }
    ensures trips { result ≡ trips_next values.old was p }
    ensures values { values.new ≡ with_trip_entries (trips_next values.old was p) (with_pressure p values.old) }
{
    let next = next_trips(values, was, p);
    put_reading(values, p);
    put_trips(values, next);
    next
}

// A sample whose pressure is not usable turns both points off: no settings are read.
fn take_unusable(values: &mut Values) -> Trips
    ensures trips { result ≡ all_off }
    ensures values { values.new ≡ with_trip_entries all_off (with_none values.old) }
{
    0u8.put(values, place::READING_VALID);
    let off = trip::all_off();
    put_trips(values, off);
    off
}

// Reading and trips. Each way stores for itself, so that the two do not have to be joined.
fn take(values: &mut Values, was: Trips, p: f32, valid: u8) -> Trips
    ensures trips { result ≡ trips_after values.old was p valid }
    ensures values { values.new ≡ with_trip_entries (trips_after values.old was p valid) (with_reading p valid values.old) }
{
    match trip::usable(p, valid) {
        Some(p) => take_usable(values, was, p),
        None => take_unusable(values),
    }
}

fn keep(faults: u32) -> u32
    ensures { result ≡ kept_faults faults }
{
    faults & 0x603
}

fn put_faults(values: &mut Values, faults: u32)
    ensures { values.new ≡ with_faults faults values.old }
{
    let active = keep(faults);
    let latched = active | u32::at(values, place::LATCHED_WORD);
    (active as u16).put(values, place::SENSOR_ERROR);
    active.put(values, place::ACTIVE_WORD);
    latched.put(values, place::LATCHED_WORD);
}

// The summary byte of an active word under its mask.
fn summary_of(active: u32, mask: u32) -> u8
    ensures { result ≡ summary_of active mask }
{
    if active & mask == active { 0 } else { 4 }
}

// The summary byte, worked out anew from the active word and its mask.
pub fn put_summary(values: &mut Values)
    ensures { values.new ≡ with_summary values.old }
{
    let active = u32::at(values, place::ACTIVE_WORD);
    let mask = u32::at(values, place::ERROR_MASK);
    summary_of(active, mask).put(values, place::SUMMARY_BYTE);
}

pub fn taken(
    values: &mut Values,
    on: Trips,
    pressure: f32,
    valid: u8,
    faults: u32,
    seconds: u32,
) -> Trips
    ensures trips { result ≡ trips_after values.old on pressure valid }
    ensures values { values.new ≡ values_after values.old on pressure valid faults seconds }
{
    let next = take(values, on, pressure, valid);
    put_faults(values, faults);
    put_summary(values);
    seconds.put(values, place::POWER_ON_TIME);
    next
}
