// Writes by mailbox: openings, which may bring bytes behind their eight, and parts. An opening is held to another form of crate order than line's,
// and what that form asks of it is told by other definitions, so a function for both would have both contracts. Parameters are as in crate line.
#![tactic(auto)]

ghost use Rattle.std.specs.Prelude.{not, ◌++◌, ◌≡◌, ◌+◌, ◌≤◌, Option, Some, unwrap_or, length, take, is_some, eqb, ◌&&◌};
ghost use Rattle.order.specs.Talk.{part_taken, sizes};
ghost use Rattle.order.specs.Serve.{write_opening, take_part, write_part};
ghost use Rattle.table.specs.Row.{Allowed};
ghost use Rattle.table.specs.Rows.{at_row};
ghost use Rattle.table.specs.Find.{At, find_row};
ghost use Rattle.sdo.specs.declared.Message.TheVariants.{OpenWrite};
ghost use Rattle.sdo.specs.Eight.{heard_of};
ghost use Rattle.transfer.specs.Records.{zero_record_at, key_at, view};
ghost use Rattle.state.specs.State.{record_at};
ghost use Rattle.line.specs.Gauge.{plain, store_of};
ghost use Rattle.line.specs.Serving.{Room, Ready, Writable, laid, replied, told, told_by, spoken_over};
ghost use Rattle.inbox.specs.Taking.{long_told, asked_told, opening_asked};

use find::row::Row;
use gauge::commit;
use line::{reply, write};
use sdo::{Key, Opening, answer};
use state::State;
use table::code::AbortCode;
use table::{Block, Values};
use transfer::{Direction, Transfer};

// A write in parts that has the bytes behind the eight already.
fn begin(state: &mut [u8], at: usize, k: Key, row: Row, len: usize, bytes: &[u8], room: &mut [u8])
    requires { Room at state.old room.old × ((length bytes.now ≤ len) × (len ≤ 64)) }
    ensures { laid state.new room.new ≡ replied at state.old room.old (zero_record_at row) (write_opening plain k bytes.now (sizes len len)) }
{
    let mut held = [0; 64];
    wire::copy_at(&mut held, 0, bytes);
    let next = transfer::opened(Direction::Writes, row.number(), held, len, bytes.len());
    reply::going(state, at, next, room, answer::write_opened(k));
}

// The length that an opening means: announced, or else the row's own.
fn meant(announced: Option<u32>, high: usize) -> usize
    ensures { result ≡ unwrap_or announced high }
{
    announced.map_or(high, |n| n as usize)
}

// Is the opening the whole write? Without a length it never is.
fn is_whole(announced: Option<u32>, len: usize, count: usize) -> bool
    ensures { result ≡ (is_some announced && eqb len count) }
{
    announced.is_some() && len == count
}

// With bytes behind the eight: more than the length are too many; if all are there the write is done; else parts follow.
fn open_parts(
    values: &mut Values,
    block: &mut Block,
    state: &mut State,
    at: usize,
    k: Key,
    row: Row,
    announced: Option<u32>,
    bytes: &[u8],
    room: &mut [u8],
)
    requires { Ready at room.old × (Writable row × (find_row k.index k.sub ≡ At row)) }
    ensures { told values.new block.new state.new room.new ≡ asked_told at (opening_asked k announced bytes.now) values.old block.old state.old room.old }
{
    let high = row.largest();
    let len = meant(announced, high);
    if !write::length_fits(row.smallest(), high, len) {
        reply::misfit(state, at, room, k, high, len);
        return;
    }
    if len < bytes.len() {
        reply::refused(state, at, room, k, AbortCode::TooLong.into());
        return;
    }
    if is_whole(announced, len, bytes.len()) {
        write::with_value(values, block, state, at, k, row, bytes, room);
        return;
    }
    begin(state, at, k, row, len, bytes, room);
}

// On the row of its key: with the value in its eight bytes, as on the other line, or with bytes behind them.
fn open_on(
    values: &mut Values,
    block: &mut Block,
    state: &mut State,
    at: usize,
    k: Key,
    row: Row,
    opening: Opening,
    s: &[u8],
    room: &mut [u8],
)
    requires { Ready at room.old × (Writable row × (find_row k.index k.sub ≡ At row)) × (8 ≤ length s.now) × (heard_of s.now ≡ Some (OpenWrite k opening)) }
    ensures { told values.new block.new state.new room.new ≡ long_told at s.now values.old block.old state.old room.old }
{
    let behind = &s[sdo::SIZE..];
    match opening {
        Opening::Value(count) => {
            let bytes = &s[sdo::VALUE_AT..sdo::VALUE_AT + count];
            write::write_sized(values, block, state, at, k, row, bytes, room)
        }
        Opening::Own => {
            let bytes = &s[sdo::VALUE_AT..sdo::VALUE_AT + sdo::VALUE];
            write::write_own(values, block, state, at, k, row, bytes, room)
        }
        Opening::Announced(n) => {
            open_parts(values, block, state, at, k, row, Some(n), behind, room)
        }
        Opening::Unsaid => open_parts(values, block, state, at, k, row, None, behind, room),
    }
}

pub fn open_write(
    values: &mut Values,
    block: &mut Block,
    state: &mut State,
    at: usize,
    k: Key,
    opening: Opening,
    s: &[u8],
    room: &mut [u8],
)
    requires { Ready at room.old × (8 ≤ length s.now) × (heard_of s.now ≡ Some (OpenWrite k opening)) }
    ensures { told values.new block.new state.new room.new ≡ long_told at s.now values.old block.old state.old room.old }
{
    match gate::to_write(k.index, k.sub) {
        Ok(row) => open_on(values, block, state, at, k, row, opening, s, room),
        Err(abort) => reply::refused(state, at, room, k, abort.into()),
    }
}

// ---- parts: with functions of their own, though line's promise the same. One function for both lines was tried: it is no longer put into the
// one caller that it had, and a part with no transfer takes 1.56 times the independent board's instructions, of 1.5.

// A part of a write that counts.
fn take_part(
    values: &mut Values,
    block: &mut Block,
    state: &mut State,
    at: usize,
    t: Transfer,
    row: Row,
    part: &[u8],
    last: bool,
    room: &mut [u8],
)
    requires { Ready at room.old × Writable t.row × (t.row ≡ row) × Allowed (at_row t.row) t.len × (t.place ≤ t.len) × (t ≡ record_at state.old at) }
    ensures { told values.new block.new state.new room.new ≡ told_by at state.old room.old (spoken_over t (take_part plain (store_of values.old block.old state.old) (key_at t.row) t.len t.len (take t.place t.held ++ part.now) (not t.toggle) last (part_taken t.toggle))) }
{
    let len = t.len;
    let total = t.place + part.len();
    if len < total {
        let k = transfer::key_at(row);
        reply::refused(state, at, room, k, AbortCode::TooLong.into());
        return;
    }
    let eight = answer::part_taken(t.toggle);
    if !last {
        state::put_part(state, at, t, part);
        reply::tell(room, eight);
        return;
    }
    if total < len {
        let k = transfer::key_at(row);
        reply::refused(state, at, room, k, AbortCode::TooShort.into());
        return;
    }
    let next = transfer::grown(t, part);
    reply::tell(room, eight);
    let ending = commit::commit(values, block, row, &next.held[..len]);
    write::conclude(state, at, row, ending, room);
}

pub fn send_part(
    values: &mut Values,
    block: &mut Block,
    state: &mut State,
    at: usize,
    toggle: bool,
    part: &[u8],
    last: bool,
    room: &mut [u8],
)
    requires { Ready at room.old }
    ensures { told values.new block.new state.new room.new ≡ told_by at state.old room.old (spoken_over (record_at state.old at) (write_part plain (store_of values.old block.old state.old) (view (record_at state.old at)) toggle part.now last)) }
{
    let t = state::record_at(state, at);
    match transfer::writing(t) {
        Some(row) if t.toggle == toggle => {
            take_part(values, block, state, at, t, row, part, last, room)
        }
        Some(row) => reply::wrong_toggle(state, at, room, transfer::key_at(row)),
        None => reply::ended(state, at, room, answer::no_transfer()),
    }
}
