// Masks: the summary under them, and a block that brings one. In the values F380 is byte 354, F383:01 begins at 363 and F3A3:01 at 428.
use crate::blocks::default_block;
use crate::report::say;
use std::io;
use table::{Block, Values};

// Over temperature and filament 1 are active, 0401, under a mask with these two low bytes. The summary byte was lent, and is neither of those
// that are worked out.
fn with_faults(low: u8, high: u8) -> Values {
    let mut values = [0u8; 1024];
    values[354] = 0x55;
    values[363] = 0x01;
    values[364] = 0x04;
    values[428] = low;
    values[429] = high;
    values
}

fn shown(low: u8, high: u8) -> u8 {
    let mut values = with_faults(low, high);
    gauge::masks::heed(&mut values, true);
    values[354]
}

pub fn hidden(rt: &impl Print) -> io::Result<()> {
    say(rt, "mask: nothing is hidden", shown(0x00, 0x00) == 4)?;
    say(
        rt,
        "mask: one fault of two is hidden",
        shown(0x00, 0x04) == 4,
    )?;
    say(
        rt,
        "mask: all but a fault is hidden",
        shown(0xFF, 0xFB) == 4,
    )?;
    say(rt, "mask: both faults are hidden", shown(0x01, 0x04) == 0)
}

// F3A3:01 is 0401 in the block, from bit 950 on: bit 971, 10 in byte 121, and bit 981, 04 in byte 122.
fn masked_block() -> Block {
    let mut block = default_block();
    block[121] = 0x10;
    block[122] = 0x04;
    block
}

pub fn loaded(rt: &impl Print) -> io::Result<()> {
    let mut values = with_faults(0x00, 0x00);
    let taken = gauge::power::take_block(&mut values, &masked_block());
    let masked = (values[428] == 0x01) & (values[429] == 0x04);
    say(
        rt,
        "load: a mask of the block acts at once",
        taken & masked & (values[354] == 0),
    )?;
    let mut others = with_faults(0x00, 0x00);
    let refused = !gauge::power::take_block(&mut others, &[0u8; 512]);
    say(
        rt,
        "load: a faulty block leaves the summary",
        refused & (others[354] == 0x55),
    )
}
