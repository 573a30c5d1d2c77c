// The state bytes: transfer records and trip states by value, and back.
#![tactic(auto)]

ghost use Rattle.std.specs.Prelude.{◌≡◌, ◌+◌, ◌≤◌, length};
ghost use Rattle.wire.specs.Splice.{splice};
ghost use Rattle.transfer.specs.Records.{zero_record};
ghost use Rattle.transfer.specs.Turns.{grown};
ghost use Rattle.state.specs.State.{record_at, record_tail, record_bytes, trips_place, trips_at, trips_bytes, direction_of, direction_byte, record_size, form_place, form_at, form_bytes, fresh_state};

use transfer::{Direction, Transfer};
use trip::{On, Trips};
use wire::Number;

// How many they are, where each line's record and the trip states stand, and how many bytes a record has.
pub const SIZE: usize = 256;

pub const TOOL: usize = 0;

pub const SERVICE: usize = 96;

pub const RECORD: usize = 70;

pub type State = [u8; SIZE];

const TRIPS: usize = 192;

const FORM: usize = 196;

// No From: the enum is of crate transfer, how the state spells it is this crate's.
fn direction_of(n: u8) -> Direction
    ensures { result ≡ direction_of n }
{
    if n == 1 {
        return Direction::Reads;
    }
    if n == 2 {
        return Direction::Writes;
    }
    Direction::Neither
}

fn direction_byte(d: Direction) -> u8
    ensures { result ≡ direction_byte d }
{
    match d {
        Direction::Neither => 0,
        Direction::Reads => 1,
        Direction::Writes => 2,
    }
}

// The record that stands from a byte on.
pub fn record_at(state: &[u8], at: usize) -> Transfer
    requires { at + record_size ≤ length state.now }
    ensures { result ≡ record_at state.now at }
{
    let mut held = [0u8; 64];
    wire::copy_at(&mut held, 0, &state[at..at + 64]);
    let row = usize::from(u16::at(state, at + 64));
    let direction = direction_of(u8::at(state, at + 66));
    let len = usize::from(u8::at(state, at + 67));
    let place = usize::from(u8::at(state, at + 68));
    let toggle = wire::is_set(state, at + 69);
    Transfer {
        held,
        row,
        direction,
        len,
        place,
        toggle,
    }
}

// What stands behind the held bytes: row, direction, length, place, toggle. By put_number, since no clause says that row, length and place fit.
fn put_tail(state: &mut [u8], at: usize, t: Transfer)
    requires { at + record_size ≤ length state.old }
    ensures { state.new ≡ splice state.old (at + 64) (record_tail t) }
{
    wire::put_number(state, at + 64, 2, t.row as u64);
    direction_byte(t.direction).put(state, at + 66);
    wire::put_number(state, at + 67, 1, t.len as u64);
    wire::put_number(state, at + 68, 1, t.place as u64);
    u8::from(t.toggle).put(state, at + 69);
}

// Makes a record all zero.
pub fn clear_record(state: &mut [u8], at: usize)
    requires { at + record_size ≤ length state.old }
    ensures { state.new ≡ splice state.old at (record_bytes zero_record) }
{
    state[at..at + RECORD].fill(0);
}

// Writes a record's 70 bytes.
pub fn put_record(state: &mut [u8], at: usize, t: Transfer)
    requires { at + record_size ≤ length state.old }
    ensures { state.new ≡ splice state.old at (record_bytes t) }
{
    wire::copy_at(state, at, &t.held);
    put_tail(state, at, t);
}

// A part to a place. Most parts are full.
fn copy_part(state: &mut [u8], place: usize, part: &[u8])
    requires { place + length part.now ≤ length state.old }
    ensures { state.new ≡ splice state.old place part.now }
{
    if part.len() == sdo::PART {
        wire::copy_seven(state, place, part, 0);
    } else {
        wire::copy_at(state, place, part);
    }
}

// The record that stands there with a part of a write: only the part and what stands behind the held bytes are written.
pub fn put_part(state: &mut [u8], at: usize, t: Transfer, part: &[u8])
    requires { (at + record_size ≤ length state.old) × (t ≡ record_at state.old at) × ((t.len ≤ 64) × (t.place + length part.now ≤ t.len)) }
    ensures { state.new ≡ splice state.old at (record_bytes (grown t part.now)) }
{
    copy_part(state, at + t.place, part);
    put_tail(state, at, transfer::grown(t, part));
}

// The trip states, which stand in one word; a byte other than 0 is on.
pub fn trips_at(state: &State) -> Trips
    ensures { result ≡ trips_at state.now }
{
    let [a, b, c, d] = u32::at(state, TRIPS).to_le_bytes();
    Trips {
        one: On {
            high: a != 0,
            low: b != 0,
        },
        two: On {
            high: c != 0,
            low: d != 0,
        },
    }
}

pub fn put_trips(state: &mut State, t: Trips)
    ensures { state.new ≡ splice state.old trips_place (trips_bytes t) }
{
    let one = t.one;
    let two = t.two;
    wire::put_flags(state, TRIPS, one.high, one.low, two.high, two.low);
}

// Does the tool's line speak in mailboxes? A byte other than 0 says so.
pub fn form_at(state: &State) -> bool
    ensures { result ≡ form_at state.now }
{
    wire::is_set(state, FORM)
}

pub fn put_form(state: &mut State, boxed: bool)
    ensures { state.new ≡ splice state.old form_place (form_bytes boxed) }
{
    u8::from(boxed).put(state, FORM);
}

// Both records all zero and the trips off; the form stays.
pub fn drop_all(state: &mut State)
    ensures { state.new ≡ fresh_state state.old }
{
    clear_record(state, TOOL);
    clear_record(state, SERVICE);
    put_trips(state, trip::all_off());
}
