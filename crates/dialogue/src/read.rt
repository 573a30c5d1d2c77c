// What a line of text says.
ghost use Rattle.std.specs.Prelude.{◌≡◌, ◌<◌, length};
ghost use Rattle.dialogue.specs.Text.{is_digit, digit_value, all_digits, pairs, is_message, read, spoken};

use crate::Spoken;

#[tactic(auto, unfolding(crate::specs::Text::between, crate::specs::Text::is_digit))]
fn is_a_digit(b: u8) -> bool
    ensures { result ≡ is_digit b }
{
    matches!(b, b'0'..=b'9' | b'A'..=b'F' | b'a'..=b'f')
}

#[tactic(auto, unfolding(crate::specs::Text::between, crate::specs::Text::digit_value))]
fn value_of(b: u8) -> u8
    ensures { (result ≡ digit_value b) × (result < 16) }
{
    match b {
        b'0'..=b'9' => b - b'0',
        b'A'..=b'F' => b - 55,
        b'a'..=b'f' => b - 87,
        _ => 0,
    }
}

fn are_digits(text: &[u8]) -> bool
    ensures { result ≡ all_digits text.now }
{
    for b in text {
        if !is_a_digit(*b) {
            return false;
        }
    }
    true
}

// The eight bytes of sixteen digits.
fn bytes_of(text: &[u8]) -> [u8; 8]
    requires { length text.now ≡ 16 }
    ensures { result ≡ pairs text.now }
{
    let mut eight = [0u8; 8];
    // by an index, since a byte takes two digits
    for i in 0..8 {
        let high = value_of(text[2 * i]);
        let low = value_of(text[2 * i + 1]);
        eight[i] = 16 * high + low;
    }
    eight
}

fn says_message(text: &[u8]) -> bool
    ensures { result ≡ is_message text.now }
{
    if text.len() != 18 {
        return false;
    }
    if !(b'0'..=b'1').contains(&text[0]) {
        return false;
    }
    if text[1] != b' ' {
        return false;
    }
    are_digits(&text[2..])
}

fn read_text(text: &[u8]) -> Option<Spoken>
    ensures { result ≡ read text.now }
{
    if says_message(text) {
        return Some(Spoken {
            line: text[0] - b'0',
            eight: bytes_of(&text[2..]),
        });
    }
    None
}

// What a line says, if it is a message; text is without its newline.
pub fn line_spoken(text: &[u8]) -> Option<Spoken>
    ensures { result ≡ spoken text.now }
{
    let n = text.len();
    if n == 0 {
        return read_text(text);
    }
    let shorter = n - 1;
    if text[shorter] == 13 {
        return read_text(&text[..shorter]);
    }
    read_text(text)
}
