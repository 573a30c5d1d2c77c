// The four command words.
ghost use Rattle.std.specs.Prelude.{◌≡◌, ◌+◌, ◌≤◌, replicate};
ghost use Rattle.wire.specs.Splice.{splice};
ghost use Rattle.table.specs.Row.{COMMAND};
ghost use Rattle.table.specs.Rows.{at_row};
ghost use Rattle.command.specs.Words.{command_at, word_of, read_word, status_of, with_status, same_bytes};

use find::row::Row;
use table::{Values, place, row};
use wire::Number;

#[derive(Clone, Copy, PartialEq, Eq)]
pub enum Command {
    DeviceReset,
    ExceptionReset,
    StoreParameters,
    LoadParameters,
}

// The command of a command word's row.
pub fn command_at(row: Row) -> Command
    requires { (at_row row).kind ≡ COMMAND }
    ensures { result ≡ command_at (at_row row).index }
{
    match row.number() {
        row::DEVICE_RESET => Command::DeviceReset,
        row::EXCEPTION_RESET => Command::ExceptionReset,
        row::STORE_PARAMETERS => Command::StoreParameters,
        _ => Command::LoadParameters,
    }
}

fn same(bytes: &[u8], word: &[u8]) -> bool
    ensures { result ≡ same_bytes bytes.now word.now }
{
    bytes == word
}

// Are these the bytes that the command takes?
pub fn is_word(command: Command, bytes: &[u8]) -> bool
    ensures { result ≡ same_bytes bytes.now (word_of command) }
{
    match command {
        Command::DeviceReset => same(bytes, &[0x74, 0x65, 0x73, 0x65, 0x72, 0x00]),
        Command::ExceptionReset => same(bytes, &[0x74, 0x65, 0x73, 0x65, 0x72]),
        Command::StoreParameters => same(bytes, &[0x73, 0x61, 0x76, 0x65]),
        Command::LoadParameters => same(bytes, &[0x6C, 0x6F, 0x61, 0x64]),
    }
}

// What a command word reads as, with zeros behind it, in the room of what is held (R16.5).
pub fn reading(command: Command) -> [u8; 64]
    ensures { result ≡ splice (replicate 64 0) 0 (read_word command) }
{
    let mut bytes = [0u8; 64];
    match command {
        Command::DeviceReset | Command::ExceptionReset => {}
        Command::StoreParameters | Command::LoadParameters => bytes[0] = 1,
    }
    bytes
}

fn status_of(command: Command) -> usize
    ensures { (result ≡ status_of command) × (result + 2 ≤ 1024) }
{
    match command {
        Command::DeviceReset => place::RESET_STATUS,
        Command::ExceptionReset => place::EXCEPTION_STATUS,
        Command::StoreParameters => place::STORE_STATUS,
        Command::LoadParameters => place::LOAD_STATUS,
    }
}

// Status and response byte 0.
pub fn set_status(values: &mut Values, command: Command, code: u8)
    ensures { values.new ≡ with_status command code values.old }
{
    let at = status_of(command);
    code.put(values, at);
    code.put(values, at + 1);
}
