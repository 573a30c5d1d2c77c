// A whole write of a row: lock, limits, trip points, and what an accepted write does.
ghost use Rattle.std.specs.Prelude.{◌≡◌, length, Ok};
ghost use Rattle.table.specs.Row.{Allowed};
ghost use Rattle.table.specs.Rows.{at_row};
ghost use Rattle.gauge.specs.Memory.{memory_of};
ghost use Rattle.gauge.specs.Commands.{status_by, done, obeyed};
ghost use Rattle.gauge.specs.Endings.{left, left_by};
ghost use Rattle.gauge.specs.Checks.{asked_last, verdict_of, last_order, refused_by, code_told, code_in};
ghost use Rattle.gauge.specs.Whole.{effect, commit_row};

use crate::{crossing, masks, places, power};
use command::word::Command;
use command::{exception, word};
use find::row::Row;
use gate::lock;
use limits::Verdict;
use table::code::AbortCode;
use table::{Block, Values, kind, place};

// What an accepted write does beside its own; after a restart the lines' transfers are dropped and the trips are off.
#[derive(Clone, Copy, PartialEq, Eq)]
pub enum Accepted {
    Plainly,
    Restarting,
}

// How a whole write ends.
pub type Ending = Result<Accepted, AbortCode>;

// 0 or 2 (R8.3), which is no conversion of a bool.
fn status_by(right: bool) -> u8
    ensures { result ≡ status_by right }
{
    if right { 0 } else { 2 }
}

// A command whose word was right.
fn carry_out(values: &mut Values, block: &mut Block, command: Command) -> Accepted
    ensures { left (Ok result) values.new block.new ≡ left_by (memory_of values.old block.old) (done command (memory_of values.old block.old)) }
{
    match command {
        Command::DeviceReset => {
            power::fill(values, block);
            Accepted::Restarting
        }
        Command::ExceptionReset => {
            exception::clear_latched(values);
            word::set_status(values, Command::ExceptionReset, 0);
            Accepted::Plainly
        }
        Command::StoreParameters => {
            let code = status_by(store::store(values, block));
            word::set_status(values, Command::StoreParameters, code);
            Accepted::Plainly
        }
        Command::LoadParameters => {
            let code = status_by(power::take_block(values, block));
            word::set_status(values, Command::LoadParameters, code);
            Accepted::Plainly
        }
    }
}

// A command word is written.
fn obey(values: &mut Values, block: &mut Block, command: Command, bytes: &[u8]) -> Accepted
    ensures { left (Ok result) values.new block.new ≡ left_by (memory_of values.old block.old) (obeyed command bytes.now (memory_of values.old block.old)) }
{
    if word::is_word(command, bytes) {
        return carry_out(values, block, command);
    }
    word::set_status(values, command, 2);
    Accepted::Plainly
}

// The value against the limits.
fn judge(row: Row, bytes: &[u8]) -> Verdict
    requires { Allowed (at_row row) (length bytes.now) }
    ensures { result ≡ verdict_of (at_row row) bytes.now }
{
    if row.kind() == kind::CARD {
        return enter::judge(bytes);
    }
    limits::judge(row, bytes)
}

// The last checks: the first that refuses says why.
fn check(values: &Values, row: Row, bytes: &[u8]) -> Result<(), AbortCode>
    requires { Allowed (at_row row) (length bytes.now) }
    ensures { code_in result ≡ code_told (refused_by (asked_last row bytes.now values.now) last_order) }
{
    if lock::refuses(values, row) {
        return Err(AbortCode::LockShut);
    }
    judge(row, bytes)?;
    if crossing::leaves_crossed(values, row, bytes) {
        return Err(AbortCode::LeftCrossed);
    }
    Ok(())
}

// What an accepted write does.
fn put(values: &mut Values, block: &mut Block, row: Row, bytes: &[u8]) -> Accepted
    requires { Allowed (at_row row) (length bytes.now) }
    ensures { left (Ok result) values.new block.new ≡ left_by (memory_of values.old block.old) (effect (at_row row) bytes.now (memory_of values.old block.old)) }
{
    match row.kind() {
        kind::CARD => {
            enter::write(values, bytes);
            Accepted::Plainly
        }
        kind::COMMAND => obey(values, block, word::command_at(row), bytes),
        _ => {
            let at = entry::store_entry(values, row, bytes);
            let came = places::is_among(place::MASKS, place::MASKS_SIZE, at);
            masks::heed(values, came);
            Accepted::Plainly
        }
    }
}

// The last checks, then the write.
pub fn commit(values: &mut Values, block: &mut Block, row: Row, bytes: &[u8]) -> Ending
    requires { Allowed (at_row row) (length bytes.now) }
    ensures { left result values.new block.new ≡ left_by (memory_of values.old block.old) (commit_row row bytes.now (memory_of values.old block.old)) }
{
    check(values, row, bytes)?;
    Ok(put(values, block, row, bytes))
}
