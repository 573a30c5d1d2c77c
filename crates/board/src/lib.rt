// THE BOARD: the calls for firmware, on lent bytes; C takes them from board_c. No call has a condition: bad input is refused by number.
#![tactic(auto)]

ghost use Rattle.std.specs.Prelude.{◌≡◌, ◌+◌, ◌≤◌, Ok, length};
ghost use Rattle.order.specs.Keep.{speak};
ghost use Rattle.sdo.specs.Eight.{eight_bytes};
ghost use Rattle.mailbox.specs.Mail.{mailbox_size, mail_of, mailboxes};
ghost use Rattle.transfer.specs.Records.{transfers};
ghost use Rattle.state.specs.State.{state_size, record_size, record_place, record_at};
ghost use Rattle.line.specs.Gauge.{plain, store_of};
ghost use Rattle.board.specs.Calls.{refused_for, number_of, called, served, hears_eight, message_call, mail_call, mailbox_call, powered, power_up_call, fed, sample_call, shown, image_call};

use mailbox::{Head, Unfit};
use sdo::decode;
use state::State;
use table::{Block, Values};

// The sizes of what is lent, the lines and the form of eight bytes, as include/gauge.h names them.
pub const VALUES_SIZE: usize = 1024;

pub const BLOCK_SIZE: usize = 512;

pub const STATE_SIZE: usize = state::SIZE;

const MESSAGE_SIZE: usize = 8;

const ANSWER_SIZE: usize = 8;

const IMAGE_SIZE: usize = 10;

const LINE_TOOL: u32 = 0;

const LINE_SERVICE: u32 = 1;

pub const FORM_EIGHT: u32 = 0;

// What a call that is not refused has done: its own, or what a client's abort asks, which has no answer.
#[derive(Clone, Copy, PartialEq, Eq)]
pub enum Done {
    Plainly,
    Aborting,
}

// Why a call is refused.
#[derive(Clone, Copy, PartialEq, Eq)]
pub enum Refused {
    BadMessage,
    ShortRoom,
    BadLine,
    BadMemory,
    BadMailbox,
    NotSdo,
}

impl From<Unfit> for Refused {
    ghost from_gives = { λ unfit refused. refused ≡ refused_for unfit };

    fn from(unfit: Unfit) -> Refused {
        match unfit {
            Unfit::Misshapen => Refused::BadMailbox,
            Unfit::NotSdo => Refused::NotSdo,
        }
    }
}

// The number that a call gives back, as include/gauge.h names it.
#[tactic(auto, unfolding(crate::specs::Calls::number_of))]
fn number_of(outcome: Result<Done, Refused>) -> u32
    ensures { result ≡ number_of outcome }
{
    match outcome {
        Ok(Done::Plainly) => 0,
        Err(Refused::BadMessage) => 1,
        Err(Refused::ShortRoom) => 2,
        Err(Refused::BadLine) => 3,
        Err(Refused::BadMemory) => 4,
        Ok(Done::Aborting) => 5,
        Err(Refused::BadMailbox) => 6,
        Err(Refused::NotSdo) => 7,
    }
}

// By the line's number: with an if, a part of a write with no transfer takes 1.51 times the independent board's instructions, of 1.5.
fn place_of(line: u32) -> usize
    requires { line ≤ 1 }
    ensures { (result ≡ record_place line) × (result + record_size ≤ state_size) }
{
    state::SERVICE * line as usize
}

// Does a line speak in eight bytes?
fn hears_eight(line: u32, state: &State) -> bool
    ensures { result ≡ hears_eight line state.now }
{
    if line == LINE_TOOL {
        return !state::form_at(state);
    }
    line == LINE_SERVICE
}

// A message on a line, after the refusals.
fn serve(
    line: u32,
    message: &[u8],
    values: &mut Values,
    block: &mut Block,
    state: &mut State,
    answer: &mut [u8],
) -> Done
    requires { (line ≤ 1) × (length message.now ≡ 8) × (8 ≤ length answer.old) }
    ensures { called (number_of (Ok result)) values.new block.new state.new answer.new ≡ served line (speak plain transfers eight_bytes (store_of values.old block.old state.old) (record_at state.old (record_place line)) message.now) state.old answer.old }
{
    let at = place_of(line);
    match decode::heard_of(message) {
        None => {
            state::clear_record(state, at);
            Done::Aborting
        }
        Some(said) => {
            line::speak(values, block, state, at, said, message, answer);
            Done::Plainly
        }
    }
}

fn hear(
    line: u32,
    message: &[u8],
    values: &mut [u8],
    block: &mut [u8],
    state: &mut [u8],
    answer: &mut [u8],
) -> Result<Done, Refused>
    ensures { called (number_of result) values.new block.new state.new answer.new ≡ message_call line message.now values.old block.old state.old answer.old }
{
    let Some(values) = values.as_mut_array() else {
        return Err(Refused::BadMemory);
    };
    let Some(block) = block.as_mut_array() else {
        return Err(Refused::BadMemory);
    };
    let Some(state) = state.as_mut_array() else {
        return Err(Refused::BadMemory);
    };
    if !hears_eight(line, state) {
        return Err(Refused::BadLine);
    }
    if answer.len() < ANSWER_SIZE {
        return Err(Refused::ShortRoom);
    }
    if message.len() != MESSAGE_SIZE {
        return Err(Refused::BadMessage);
    }
    Ok(serve(line, message, values, block, state, answer))
}

pub fn gauge_message(
    line: u32,
    message: &[u8],
    values: &mut [u8],
    block: &mut [u8],
    state: &mut [u8],
    answer: &mut [u8],
) -> u32
    ensures { called result values.new block.new state.new answer.new ≡ message_call line message.now values.old block.old state.old answer.old }
{
    number_of(hear(line, message, values, block, state, answer))
}

// A mailbox with this head, after the refusals.
fn serve_mailbox(
    head: Head,
    mailbox: &[u8],
    values: &mut Values,
    block: &mut Block,
    state: &mut State,
    answer: &mut [u8],
) -> Done
    requires { (mail_of mailbox.now ≡ Ok head) × (mailbox_size ≤ length answer.old) }
    ensures { called (number_of (Ok result)) values.new block.new state.new answer.new ≡ served 0 (speak plain transfers mailboxes (store_of values.old block.old state.old) (record_at state.old (record_place 0)) mailbox.now) state.old answer.old }
{
    let sdo = mailbox::sdo_of(mailbox, head.len);
    match decode::heard_of(sdo) {
        None => {
            state::clear_record(state, state::TOOL);
            Done::Aborting
        }
        Some(said) => {
            post::deliver(values, block, state, state::TOOL, head, said, sdo, answer);
            Done::Plainly
        }
    }
}

// What is lent as a mailbox, where the mailbox is chosen.
fn open_mailbox(
    mailbox: &[u8],
    values: &mut Values,
    block: &mut Block,
    state: &mut State,
    answer: &mut [u8],
) -> Result<Done, Refused>
    ensures { called (number_of result) values.new block.new state.new answer.new ≡ mail_call mailbox.now values.old block.old state.old answer.old }
{
    let head = mailbox::mail_of(mailbox)?;
    if answer.len() < mailbox::SIZE {
        return Err(Refused::ShortRoom);
    }
    Ok(serve_mailbox(head, mailbox, values, block, state, answer))
}

fn take_mailbox(
    mailbox: &[u8],
    values: &mut [u8],
    block: &mut [u8],
    state: &mut [u8],
    answer: &mut [u8],
) -> Result<Done, Refused>
    ensures { called (number_of result) values.new block.new state.new answer.new ≡ mailbox_call mailbox.now values.old block.old state.old answer.old }
{
    let Some(values) = values.as_mut_array() else {
        return Err(Refused::BadMemory);
    };
    let Some(block) = block.as_mut_array() else {
        return Err(Refused::BadMemory);
    };
    let Some(state) = state.as_mut_array() else {
        return Err(Refused::BadMemory);
    };
    if !state::form_at(state) {
        return Err(Refused::BadLine);
    }
    open_mailbox(mailbox, values, block, state, answer)
}

pub fn gauge_mailbox(
    mailbox: &[u8],
    values: &mut [u8],
    block: &mut [u8],
    state: &mut [u8],
    answer: &mut [u8],
) -> u32
    ensures { called result values.new block.new state.new answer.new ≡ mailbox_call mailbox.now values.old block.old state.old answer.old }
{
    number_of(take_mailbox(mailbox, values, block, state, answer))
}

fn power_up(form: u32, values: &mut [u8], block: &[u8], state: &mut [u8]) -> Result<Done, Refused>
    ensures { powered (number_of result) values.new state.new ≡ power_up_call form values.old block.now state.old }
{
    let Some(values) = values.as_mut_array() else {
        return Err(Refused::BadMemory);
    };
    let Some(block) = block.as_array() else {
        return Err(Refused::BadMemory);
    };
    let Some(state) = state.as_mut_array() else {
        return Err(Refused::BadMemory);
    };
    // what every call takes is as long as the sizes above say
    prove!(values.len() == VALUES_SIZE);
    prove!(block.len() == BLOCK_SIZE);
    prove!(state.len() == STATE_SIZE);
    gauge::power::fill(values, block);
    state::drop_all(state);
    state::put_form(state, form != FORM_EIGHT);
    Ok(Done::Plainly)
}

pub fn gauge_power_up(form: u32, values: &mut [u8], block: &[u8], state: &mut [u8]) -> u32
    ensures { powered result values.new state.new ≡ power_up_call form values.old block.now state.old }
{
    number_of(power_up(form, values, block, state))
}

fn take_sample(
    pressure: f32,
    valid: u8,
    faults: u32,
    seconds: u32,
    values: &mut [u8],
    state: &mut [u8],
) -> Result<Done, Refused>
    ensures { fed (number_of result) values.new state.new ≡ sample_call pressure valid faults seconds values.old state.old }
{
    let Some(values) = values.as_mut_array() else {
        return Err(Refused::BadMemory);
    };
    let Some(state) = state.as_mut_array() else {
        return Err(Refused::BadMemory);
    };
    let on = state::trips_at(state);
    let next = sample::taken(values, on, pressure, valid, faults, seconds);
    state::put_trips(state, next);
    Ok(Done::Plainly)
}

pub fn gauge_sample(
    pressure: f32,
    valid: u8,
    faults: u32,
    seconds: u32,
    values: &mut [u8],
    state: &mut [u8],
) -> u32
    ensures { fed result values.new state.new ≡ sample_call pressure valid faults seconds values.old state.old }
{
    number_of(take_sample(pressure, valid, faults, seconds, values, state))
}

fn show_image(values: &[u8], image: &mut [u8]) -> Result<Done, Refused>
    ensures { shown (number_of result) image.new ≡ image_call values.now image.old }
{
    let Some(values) = values.as_array() else {
        return Err(Refused::BadMemory);
    };
    if image.len() < IMAGE_SIZE {
        return Err(Refused::ShortRoom);
    }
    sample::image::image(values, image);
    Ok(Done::Plainly)
}

pub fn gauge_image(values: &[u8], image: &mut [u8]) -> u32
    ensures { shown result image.new ≡ image_call values.now image.old }
{
    number_of(show_image(values, image))
}
