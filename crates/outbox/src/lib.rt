// Reads by mailbox: openings that carry the value, and parts. An entry has 64 bytes at most, so an opening carries all of it and a part is the last.
// Each function puts its answer into the room and gives its length, where line's gives eight bytes: a function for both would do neither plainly. The room is a part of what C lends, so its length is a clause.
#![tactic(auto)]

ghost use Rattle.std.specs.Prelude.{[], ◌≡◌, ◌+◌, ◌≤◌, length, take};
ghost use Rattle.wire.specs.Splice.{splice};
ghost use Rattle.order.specs.Talk.{value};
ghost use Rattle.order.specs.Serve.{read_opening, give_part, read_part};
ghost use Rattle.table.specs.Rows.{at_row};
ghost use Rattle.gauge.specs.Whole.{value_of, read_whole};
ghost use Rattle.sdo.specs.Long.{long_form};
ghost use Rattle.transfer.specs.Records.{key_at, row_of, view, zero_record_at};
ghost use Rattle.state.specs.State.{record_at};
ghost use Rattle.line.specs.Gauge.{plain, store_of};
ghost use Rattle.line.specs.Serving.{Room, laid};
ghost use Rattle.outbox.specs.Showing.{SdoLong, long_replied, reply_length};

use command::word;
use find::row::Row;
use line::reply;
use sdo::{Key, answer};
use table::{Values, kind};
use transfer::Transfer;
use wire::Number;

// All that is left of a read that counts.
fn give_part(state: &mut [u8], at: usize, t: Transfer, room: &mut [u8]) -> usize
    requires { Room at state.old room.old × (120 ≤ length room.old) × (t.len ≤ 64) × (t.place ≤ t.len) }
    ensures { (laid state.new room.new ≡ long_replied at state.old room.old t (give_part plain long_form (key_at t.row) (take t.len t.held) t.place t.toggle)) × (result ≡ reply_length (give_part plain long_form (key_at t.row) (take t.len t.held) t.place t.toggle)) × SdoLong result }
{
    let left = t.len - t.place;
    if left <= sdo::PART {
        let eight = answer::part_last(&t.held, t.len, t.place, t.toggle);
        reply::ended(state, at, room, eight);
        return sdo::SIZE;
    }
    state::clear_record(state, at);
    answer::last_head(t.toggle, 0).put(room, 0);
    wire::copy_at(room, sdo::PART_AT, &t.held[t.place..t.len]);
    1 + left
}

pub fn next_part(state: &mut [u8], at: usize, toggle: bool, room: &mut [u8]) -> usize
    requires { Room at state.old room.old × (120 ≤ length room.old) }
    ensures { (laid state.new room.new ≡ long_replied at state.old room.old (record_at state.old at) (read_part plain long_form (view (record_at state.old at)) toggle)) × (result ≡ reply_length (read_part plain long_form (view (record_at state.old at)) toggle)) × SdoLong result }
{
    let t = state::record_at(state, at);
    match transfer::reading(t) {
        Some(_) if t.toggle == toggle => return give_part(state, at, t, room),
        Some(row) => reply::wrong_toggle(state, at, room, transfer::key_at(row)),
        None => reply::ended(state, at, room, answer::no_transfer()),
    }
    sdo::SIZE
}

// The value as it is now, behind the eight bytes of its opening.
fn show(values: &Values, row: Row, room: &mut [u8])
    requires { 120 ≤ length room.old }
    ensures { room.new ≡ splice room.old 8 (value_of (at_row row) values.now) }
{
    let len = row.len();
    match row.kind() {
        kind::BOOL..=kind::STRING => {
            let place = row.place();
            wire::copy_at(room, sdo::SIZE, &values[place..place + len]);
        }
        kind::CARD => wire::copy_at(room, sdo::SIZE, &card::card_of(values)[..len]),
        _ => {
            let held = word::reading(word::command_at(row));
            wire::copy_at(room, sdo::SIZE, &held[..len]);
        }
    }
}

// A read is opened on the row of its key.
fn open_row(
    values: &Values,
    state: &mut [u8],
    at: usize,
    k: Key,
    row: Row,
    room: &mut [u8],
) -> usize
    requires { Room at state.old room.old × (120 ≤ length room.old) × (k ≡ key_at row) }
    ensures { (laid state.new room.new ≡ long_replied at state.old room.old (zero_record_at row) (read_opening plain long_form k (value (value_of (at_row row) values.now)))) × (result ≡ reply_length (read_opening plain long_form k (value (value_of (at_row row) values.now)))) × SdoLong result }
{
    let len = row.len();
    if answer::is_short(len) {
        let eight = line::read::short_answer(values, k, row);
        reply::ended(state, at, room, eight);
        return sdo::SIZE;
    }
    reply::ended(state, at, room, answer::opened_long(k, len));
    show(values, row, room);
    sdo::SIZE + len
}

pub fn open_read(values: &Values, state: &mut [u8], at: usize, k: Key, room: &mut [u8]) -> usize
    requires { Room at state.old room.old × (120 ≤ length room.old) }
    ensures { (laid state.new room.new ≡ long_replied at state.old room.old (zero_record_at (row_of k)) (read_opening plain long_form k (read_whole (store_of values.now [] state.old) k.index k.sub))) × (result ≡ reply_length (read_opening plain long_form k (read_whole (store_of values.now [] state.old) k.index k.sub))) × SdoLong result }
{
    match gate::to_read(k.index, k.sub) {
        Ok(row) => open_row(values, state, at, k, row, room),
        Err(abort) => {
            reply::refused(state, at, room, k, abort.into());
            sdo::SIZE
        }
    }
}
