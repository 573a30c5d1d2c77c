// Bytes become lines as they come: one byte, one step, so that it does not matter how the input is cut.
ghost use Rattle.std.specs.Prelude.{◌≡◌};
ghost use Rattle.dialogue.specs.Lines.{nothing_yet, after, pending_spoken, left_over};

use crate::{Spoken, read};

// The line that is coming: the first count bytes of text. Where ended is true it is whole, and the next byte begins another. A count beside the bytes, and no
// Vec: `after` and `pending_spoken` are said of these fields, and a push that can't grow would fail where this one can't.
#[derive(Clone, Copy)]
pub struct Pending {
    pub text: [u8; 20],
    pub count: usize,
    pub ended: bool,
}

impl Pending {
    #[tactic(auto, unfolding(crate::specs::Lines::nothing_yet))]
    pub fn new() -> Pending
        ensures { result ≡ nothing_yet }
    {
        Pending {
            text: [0; 20],
            count: 0,
            ended: false,
        }
    }

    // One byte more; past the twentieth it is not kept.
    #[tactic(auto, unfolding(crate::specs::Lines::after, crate::specs::Lines::extended))]
    pub fn push(&mut self, byte: u8)
        ensures { self.new ≡ after self.old byte }
    {
        if self.ended {
            self.count = 0;
        }
        self.ended = byte == b'\n';
        if !self.ended && self.count < 20 {
            self.text[self.count] = byte;
            self.count += 1;
        }
    }

    // What the line says, as it stands.
    #[tactic(auto, unfolding(crate::specs::Lines::pending_spoken))]
    pub fn said(&self) -> Option<Spoken>
        ensures { result ≡ pending_spoken self.now }
    {
        let end = self.count.min(20);
        read::line_spoken(&self.text[..end])
    }

    // At the end of the input: a last line without a newline counts where it is not empty.
    #[tactic(auto, unfolding(crate::specs::Lines::left_over))]
    pub fn is_left(&self) -> bool
        ensures { result ≡ left_over self.now }
    {
        !self.ended && 0 < self.count
    }
}
