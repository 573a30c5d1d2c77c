// Reads on a line: openings and parts. A key goes beside its row, since it is the message's own and the row's would be read again.
ghost use Rattle.std.specs.Prelude.{true, [], ◌≡◌, ◌≤◌, take};
ghost use Rattle.order.specs.Talk.{opened, value};
ghost use Rattle.order.specs.Serve.{read_opening, give_part, read_part};
ghost use Rattle.table.specs.Rows.{at_row};
ghost use Rattle.gauge.specs.Whole.{value_of, read_whole};
ghost use Rattle.sdo.specs.Eight.{answer_of, eight};
ghost use Rattle.transfer.specs.Records.{key_at, row_of, view, zero_record_at};
ghost use Rattle.state.specs.State.{record_at};
ghost use Rattle.line.specs.Gauge.{plain, store_of};
ghost use Rattle.line.specs.Serving.{Room, laid, replied};

use crate::reply;
use command::word;
use find::row::Row;
use sdo::{Key, answer};
use table::{Values, kind};
use transfer::{Direction, Transfer};

// The next part of a read that counts.
fn give_part(state: &mut [u8], at: usize, t: Transfer, room: &mut [u8])
    requires { Room at state.old room.old × (t.len ≤ 64) × (t.place ≤ t.len) }
    ensures { laid state.new room.new ≡ replied at state.old room.old t (give_part plain eight (key_at t.row) (take t.len t.held) t.place t.toggle) }
{
    // lent by themselves: with the record lent, all of it is put on the stack, in every message
    let held = t.held;
    if t.len <= t.place + sdo::PART {
        let eight = answer::part_last(&held, t.len, t.place, t.toggle);
        reply::ended(state, at, room, eight);
        return;
    }
    let eight = answer::part_more(&held, t.place, t.toggle);
    reply::going(state, at, transfer::turned(t, sdo::PART), room, eight);
}

pub fn next_part(state: &mut [u8], at: usize, toggle: bool, room: &mut [u8])
    requires { Room at state.old room.old }
    ensures { laid state.new room.new ≡ replied at state.old room.old (record_at state.old at) (read_part plain eight (view (record_at state.old at)) toggle) }
{
    let t = state::record_at(state, at);
    match transfer::reading(t) {
        Some(_) if t.toggle == toggle => give_part(state, at, t, room),
        Some(row) => reply::wrong_toggle(state, at, room, transfer::key_at(row)),
        None => reply::ended(state, at, room, answer::no_transfer()),
    }
}

// The answer that opens a read of up to four bytes. An entry that stands in the values is shown from there, with no copy; the card is
// longer, so the rest are command words.
pub fn short_answer(values: &Values, k: Key, row: Row) -> [u8; 8]
    requires { (k ≡ key_at row) × ((1 ≤ (at_row row).len) × ((at_row row).len ≤ 4)) }
    ensures { result ≡ answer_of (opened k (at_row row).len (value_of (at_row row) values.now) true) }
{
    let len = row.len();
    if row.kind() < kind::CARD {
        let place = row.place();
        return answer::opened_short(k, &values[place..place + len], len);
    }
    let held = word::reading(word::command_at(row));
    answer::opened_short(k, &held, len)
}

// A read is opened on the row of its key.
fn open_row(values: &Values, state: &mut [u8], at: usize, k: Key, row: Row, room: &mut [u8])
    requires { Room at state.old room.old × (k ≡ key_at row) }
    ensures { laid state.new room.new ≡ replied at state.old room.old (zero_record_at row) (read_opening plain eight k (value (value_of (at_row row) values.now))) }
{
    let len = row.len();
    if answer::is_short(len) {
        reply::ended(state, at, room, short_answer(values, k, row));
        return;
    }
    let held = gauge::read::value_of(values, row);
    let next = transfer::opened(Direction::Reads, row.number(), held, len, 0);
    reply::going(state, at, next, room, answer::opened_long(k, len));
}

pub fn open_read(values: &Values, state: &mut [u8], at: usize, k: Key, room: &mut [u8])
    requires { Room at state.old room.old }
    ensures { laid state.new room.new ≡ replied at state.old room.old (zero_record_at (row_of k)) (read_opening plain eight k (read_whole (store_of values.now [] state.old) k.index k.sub)) }
{
    match gate::to_read(k.index, k.sub) {
        Ok(row) => open_row(values, state, at, k, row, room),
        Err(abort) => reply::refused(state, at, room, k, abort.into()),
    }
}
