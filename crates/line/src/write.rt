// Writes on a line: openings, with the value or without, and parts.
ghost use Rattle.std.specs.Prelude.{true, false, not, [], ◌++◌, ◌≡◌, ◌+◌, ◌≤◌, Some, length, take};
ghost use Rattle.order.specs.Talk.{announced, own, part_taken, write_opened, sizes};
ghost use Rattle.order.specs.Gauge.{by_length, narrowed, judged_by};
ghost use Rattle.order.specs.Serve.{write_opening, take_more, conclude, take_part, write_part};
ghost use Rattle.table.specs.Row.{smallest, largest, Allowed};
ghost use Rattle.table.specs.Rows.{at_row};
ghost use Rattle.table.specs.Find.{At, find_row};
ghost use Rattle.sdo.specs.declared.Message.TheVariants.{OpenWrite};
ghost use Rattle.sdo.specs.Eight.{heard_of};
ghost use Rattle.transfer.specs.Records.{zero_record, zero_record_at, key_at, view};
ghost use Rattle.state.specs.State.{record_at};
ghost use Rattle.line.specs.Gauge.{plain, store_of};
ghost use Rattle.line.specs.Serving.{Room, Ready, Writable, laid, replied, ended_by, told, told_by, spoken_over, message_told};

use crate::reply;
use find::row::Row;
use gauge::commit;
use gauge::commit::{Accepted, Ending};
use sdo::{Key, Opening, answer};
use state::State;
use table::code::AbortCode;
use table::{Block, Values};
use transfer::{Direction, Transfer};

// May a value have the length that a client says or has sent, by the smallest and the largest? A name for what
// the range means, asked in two crates.
pub fn length_fits(low: usize, high: usize, n: usize) -> bool
    ensures { result ≡ by_length low high n (λ c. false) true }
{
    (low..=high).contains(&n)
}

// A whole write that ended so ends the transfer; after a device reset no line has one. The room has the answer that says yes already, so
// nothing more is told; where the write is refused the abort takes its place.
pub fn conclude(state: &mut State, at: usize, row: Row, ending: Ending, room: &mut [u8])
    requires { Room at state.old room.old }
    ensures { laid state.new room.new ≡ ended_by at row state.old room.old ending }
{
    match ending {
        Ok(Accepted::Plainly) => state::clear_record(state, at),
        Ok(Accepted::Restarting) => state::drop_all(state),
        Err(abort) => reply::refused(state, at, room, transfer::key_at(row), abort.into()),
    }
}

// ---- parts

// A part that is not the last. What is known of t stands in the clauses of three functions, here, of take_last and of inbox's take_part: send_part hands it to each as it
// stands, and a record of it would be put together there and taken apart here.
fn take_more(state: &mut [u8], at: usize, t: Transfer, row: Row, part: &[u8], room: &mut [u8])
    requires { Room at state.old room.old × Writable t.row × (t.row ≡ row) × Allowed (at_row t.row) t.len × (t.place ≤ t.len) × (t ≡ record_at state.old at) }
    ensures { laid state.new room.new ≡ replied at state.old room.old t (take_more plain (key_at t.row) t.len t.len (take t.place t.held ++ part.now) (not t.toggle) (part_taken t.toggle)) }
{
    let total = t.place + part.len();
    if t.len < total {
        let k = transfer::key_at(row);
        reply::refused(state, at, room, k, AbortCode::TooLong.into());
        return;
    }
    let eight = answer::part_taken(t.toggle);
    state::put_part(state, at, t, part);
    reply::tell(room, eight);
}

// The last part.
fn take_last(
    values: &mut Values,
    block: &mut Block,
    state: &mut State,
    at: usize,
    t: Transfer,
    row: Row,
    part: &[u8],
    room: &mut [u8],
)
    requires { Ready at room.old × Writable t.row × (t.row ≡ row) × Allowed (at_row t.row) t.len × (t.place ≤ t.len) × (t ≡ record_at state.old at) }
    ensures { told values.new block.new state.new room.new ≡ told_by at state.old room.old (spoken_over t (take_part plain (store_of values.old block.old state.old) (key_at t.row) t.len t.len (take t.place t.held ++ part.now) (not t.toggle) true (part_taken t.toggle))) }
{
    let len = t.len;
    let total = t.place + part.len();
    if length_fits(len, len, total) {
        // by themselves, as in read's give_part
        let held = transfer::grown(t, part).held;
        reply::tell(room, answer::part_taken(t.toggle));
        let ending = commit::commit(values, block, row, &held[..len]);
        conclude(state, at, row, ending, room);
        return;
    }
    reply::misfit(state, at, room, transfer::key_at(row), len, total);
}

pub fn send_part(
    values: &mut Values,
    block: &mut Block,
    state: &mut State,
    at: usize,
    toggle: bool,
    part: &[u8],
    last: bool,
    room: &mut [u8],
)
    requires { Ready at room.old }
    ensures { told values.new block.new state.new room.new ≡ told_by at state.old room.old (spoken_over (record_at state.old at) (write_part plain (store_of values.old block.old state.old) (view (record_at state.old at)) toggle part.now last)) }
{
    let t = state::record_at(state, at);
    match transfer::writing(t) {
        Some(row) if t.toggle == toggle => {
            if last {
                take_last(values, block, state, at, t, row, part, room);
                return;
            }
            take_more(state, at, t, row, part, room);
        }
        Some(row) => reply::wrong_toggle(state, at, room, transfer::key_at(row)),
        None => reply::ended(state, at, room, answer::no_transfer()),
    }
}

// ---- openings on the row of their key

// A write in parts, of the row's own length.
fn open_parts(state: &mut [u8], at: usize, k: Key, row: Row, len: usize, room: &mut [u8])
    requires { Room at state.old room.old × (len ≤ 64) }
    ensures { laid state.new room.new ≡ replied at state.old room.old (zero_record_at row) (write_opening plain k [] (sizes len len)) }
{
    let next = transfer::opened(Direction::Writes, row.number(), [0; 64], len, 0);
    reply::going(state, at, next, room, answer::write_opened(k));
}

// A write of the value that is lent, of the row's own length.
pub fn with_value(
    values: &mut Values,
    block: &mut Block,
    state: &mut State,
    at: usize,
    k: Key,
    row: Row,
    bytes: &[u8],
    room: &mut [u8],
)
    requires { Ready at room.old × (Writable row × (k ≡ key_at row)) × Allowed (at_row row) (length bytes.now) }
    ensures { told values.new block.new state.new room.new ≡ told_by at state.old room.old (spoken_over zero_record (conclude plain (store_of values.old block.old state.old) k (write_opened k) (plain.commit (store_of values.old block.old state.old) k bytes.now))) }
{
    reply::tell(room, answer::write_opened(k));
    let ending = commit::commit(values, block, row, bytes);
    conclude(state, at, row, ending, room);
}

// A write of bytes as many as the message says.
pub fn write_sized(
    values: &mut Values,
    block: &mut Block,
    state: &mut State,
    at: usize,
    k: Key,
    row: Row,
    bytes: &[u8],
    room: &mut [u8],
)
    requires { Ready at room.old × (Writable row × (k ≡ key_at row)) }
    ensures { told values.new block.new state.new room.new ≡ told_by at state.old room.old (spoken_over zero_record (conclude plain (store_of values.old block.old state.old) k (write_opened k) (judged_by plain (store_of values.old block.old state.old) k (announced (length bytes.now)) bytes.now (narrowed (smallest (at_row row)) (largest (at_row row)) (announced (length bytes.now)))))) }
{
    let high = row.largest();
    if length_fits(row.smallest(), high, bytes.len()) {
        with_value(values, block, state, at, k, row, bytes, room);
        return;
    }
    reply::misfit(state, at, room, k, high, bytes.len());
}

// A write of the entry's own length, of the bytes that begin with it.
pub fn write_own(
    values: &mut Values,
    block: &mut Block,
    state: &mut State,
    at: usize,
    k: Key,
    row: Row,
    bytes: &[u8],
    room: &mut [u8],
)
    requires { Ready at room.old × (Writable row × (k ≡ key_at row)) }
    ensures { told values.new block.new state.new room.new ≡ told_by at state.old room.old (spoken_over zero_record (conclude plain (store_of values.old block.old state.old) k (write_opened k) (judged_by plain (store_of values.old block.old state.old) k own bytes.now (sizes (largest (at_row row)) (largest (at_row row)))))) }
{
    let len = row.largest();
    if bytes.len() < len {
        reply::refused(state, at, room, k, AbortCode::TooShort.into());
        return;
    }
    with_value(values, block, state, at, k, row, &bytes[..len], room);
}

// A write in parts, its length announced.
fn open_announced(state: &mut [u8], at: usize, k: Key, row: Row, n: u32, room: &mut [u8])
    requires { Room at state.old room.old }
    ensures { laid state.new room.new ≡ replied at state.old room.old (zero_record_at row) (write_opening plain k [] (narrowed (smallest (at_row row)) (largest (at_row row)) (announced n))) }
{
    let said = n as usize;
    let high = row.largest();
    if length_fits(row.smallest(), high, said) {
        open_parts(state, at, k, row, said, room);
        return;
    }
    reply::misfit(state, at, room, k, high, said);
}

fn open_on(
    values: &mut Values,
    block: &mut Block,
    state: &mut State,
    at: usize,
    k: Key,
    row: Row,
    opening: Opening,
    m: &[u8],
    room: &mut [u8],
)
    requires { Ready at room.old × (Writable row × (find_row k.index k.sub ≡ At row)) × (length m.now ≡ 8) × (heard_of m.now ≡ Some (OpenWrite k opening)) }
    ensures { told values.new block.new state.new room.new ≡ message_told at m.now values.old block.old state.old room.old }
{
    match opening {
        Opening::Value(count) => {
            let bytes = &m[sdo::VALUE_AT..sdo::VALUE_AT + count];
            write_sized(values, block, state, at, k, row, bytes, room)
        }
        Opening::Own => {
            let bytes = &m[sdo::VALUE_AT..sdo::VALUE_AT + sdo::VALUE];
            write_own(values, block, state, at, k, row, bytes, room)
        }
        Opening::Announced(n) => open_announced(state, at, k, row, n, room),
        Opening::Unsaid => open_parts(state, at, k, row, row.largest(), room),
    }
}

pub fn open_write(
    values: &mut Values,
    block: &mut Block,
    state: &mut State,
    at: usize,
    k: Key,
    opening: Opening,
    m: &[u8],
    room: &mut [u8],
)
    requires { Ready at room.old × (length m.now ≡ 8) × (heard_of m.now ≡ Some (OpenWrite k opening)) }
    ensures { told values.new block.new state.new room.new ≡ message_told at m.now values.old block.old state.old room.old }
{
    match gate::to_write(k.index, k.sub) {
        Ok(row) => open_on(values, block, state, at, k, row, opening, m, room),
        Err(abort) => reply::refused(state, at, room, k, abort.into()),
    }
}
