// How a message is answered: the line's next record in the state, and the answer in the room that is lent for it.
ghost use Rattle.std.specs.Prelude.{◌≡◌, ◌≤◌, length};
ghost use Rattle.wire.specs.Splice.{splice};
ghost use Rattle.order.specs.Talk.{refused, dropped};
ghost use Rattle.order.specs.Serve.{toggle_code};
ghost use Rattle.sdo.specs.Eight.{answer_of};
ghost use Rattle.transfer.specs.Records.{zero_record};
ghost use Rattle.line.specs.Serving.{Room, laid, put_down, misfit_code};

use sdo::{Key, answer};
use table::code::AbortCode;
use transfer::Transfer;

// The answer at the head of the room.
pub fn tell(room: &mut [u8], eight: [u8; 8])
    requires { 8 ≤ length room.old }
    ensures { room.new ≡ splice room.old 0 eight }
{
    wire::copy_at(room, 0, &eight);
}

// The answer ends the transfer.
pub fn ended(state: &mut [u8], at: usize, room: &mut [u8], eight: [u8; 8])
    requires { Room at state.old room.old }
    ensures { laid state.new room.new ≡ put_down at state.old room.old zero_record eight }
{
    state::clear_record(state, at);
    tell(room, eight);
}

// The transfer goes on.
pub fn going(state: &mut [u8], at: usize, next: Transfer, room: &mut [u8], eight: [u8; 8])
    requires { Room at state.old room.old }
    ensures { laid state.new room.new ≡ put_down at state.old room.old next eight }
{
    state::put_record(state, at, next);
    tell(room, eight);
}

// The abort with a code from 06020000 on.
pub fn refused(state: &mut [u8], at: usize, room: &mut [u8], k: Key, code: u32)
    requires { Room at state.old room.old }
    ensures { laid state.new room.new ≡ put_down at state.old room.old zero_record (answer_of (refused k code)) }
{
    ended(state, at, room, answer::abort(k, code));
}

// A wrong toggle drops the transfer.
pub fn wrong_toggle(state: &mut [u8], at: usize, room: &mut [u8], k: Key)
    requires { Room at state.old room.old }
    ensures { laid state.new room.new ≡ put_down at state.old room.old zero_record (answer_of (dropped k toggle_code)) }
{
    ended(state, at, room, answer::abort(k, answer::WRONG_TOGGLE));
}

// A length that no value of the entry may have.
pub fn misfit(state: &mut [u8], at: usize, room: &mut [u8], k: Key, high: usize, n: usize)
    requires { Room at state.old room.old }
    ensures { laid state.new room.new ≡ put_down at state.old room.old zero_record (answer_of (refused k (misfit_code high n))) }
{
    if high < n {
        refused(state, at, room, k, AbortCode::TooLong.into());
        return;
    }
    refused(state, at, room, k, AbortCode::TooShort.into());
}
