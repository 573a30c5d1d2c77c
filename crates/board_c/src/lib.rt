// THE CALLS FOR C FIRMWARE: each is the board's call of the same name, under C's name for it (include/gauge.h), with the same promise; a crate is a
// library or a static library, so they stand twice.
#![tactic(auto)]

ghost use Rattle.std.specs.Prelude.{◌≡◌};
ghost use Rattle.board.specs.Calls.{called, message_call, mailbox_call, powered, power_up_call, fed, sample_call, shown, image_call};

#[unsafe(no_mangle)]
pub extern "C" fn gauge_message(
    line: u32,
    message: &[u8],
    values: &mut [u8],
    block: &mut [u8],
    state: &mut [u8],
    answer: &mut [u8],
) -> u32
    ensures { called result values.new block.new state.new answer.new ≡ message_call line message.now values.old block.old state.old answer.old }
{
    board::gauge_message(line, message, values, block, state, answer)
}

#[unsafe(no_mangle)]
pub extern "C" fn gauge_mailbox(
    mailbox: &[u8],
    values: &mut [u8],
    block: &mut [u8],
    state: &mut [u8],
    answer: &mut [u8],
) -> u32
    ensures { called result values.new block.new state.new answer.new ≡ mailbox_call mailbox.now values.old block.old state.old answer.old }
{
    board::gauge_mailbox(mailbox, values, block, state, answer)
}

#[unsafe(no_mangle)]
pub extern "C" fn gauge_power_up(
    form: u32,
    values: &mut [u8],
    block: &[u8],
    state: &mut [u8],
) -> u32
    ensures { powered result values.new state.new ≡ power_up_call form values.old block.now state.old }
{
    board::gauge_power_up(form, values, block, state)
}

#[unsafe(no_mangle)]
pub extern "C" fn gauge_sample(
    pressure: f32,
    valid: u8,
    faults: u32,
    seconds: u32,
    values: &mut [u8],
    state: &mut [u8],
) -> u32
    ensures { fed result values.new state.new ≡ sample_call pressure valid faults seconds values.old state.old }
{
    board::gauge_sample(pressure, valid, faults, seconds, values, state)
}

#[unsafe(no_mangle)]
pub extern "C" fn gauge_image(values: &[u8], image: &mut [u8]) -> u32
    ensures { shown result image.new ≡ image_call values.now image.old }
{
    board::gauge_image(values, image)
}
