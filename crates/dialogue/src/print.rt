// What is printed: each function puts one line, with its newline, at the start of the room and gives its length.
ghost use Rattle.std.specs.Prelude.{◌≡◌, ◌+◌, ◌*◌, ◌≤◌, ◌<◌, length};
ghost use Rattle.wire.specs.Splice.{splice};
ghost use Rattle.dialogue.specs.Text.{capital, hex_text, answer_text, none_text, unknown_text};

#[tactic(auto, unfolding(crate::specs::Text::capital))]
fn capital_of(n: u8) -> u8
    requires { n < 16 }
    ensures { result ≡ capital n }
{
    if n < 10 {
        return b'0' + n;
    }
    55 + n
}

fn put_hex(room: &mut [u8], at: usize, bytes: &[u8])
    requires { (at ≤ 19) × ((length bytes.now ≤ 8) × (at + 2 * length bytes.now ≤ length room.old)) }
    ensures { room.new ≡ splice room.old at (hex_text bytes.now) }
{
    for (i, b) in bytes.iter().enumerate() {
        room[at + 2 * i] = capital_of(b / 16);
        room[at + 2 * i + 1] = capital_of(b % 16);
    }
}

pub fn put_answer(room: &mut [u8], line: u8, eight: &[u8]) -> usize
    requires { (line < 2) × ((length eight.now ≡ 8) × (19 ≤ length room.old)) }
    ensures { (result ≡ 19) × (room.new ≡ splice room.old 0 (answer_text line eight.now)) }
{
    room[0] = b'0' + line;
    room[1] = b' ';
    put_hex(room, 2, eight);
    room[18] = b'\n';
    19
}

pub fn put_none(room: &mut [u8], line: u8) -> usize
    requires { (line < 2) × (19 ≤ length room.old) }
    ensures { (result ≡ 4) × (room.new ≡ splice room.old 0 (none_text line)) }
{
    room[0] = b'0' + line;
    room[1] = b' ';
    room[2] = b'-';
    room[3] = b'\n';
    4
}

pub fn put_unknown(room: &mut [u8]) -> usize
    requires { 19 ≤ length room.old }
    ensures { (result ≡ 2) × (room.new ≡ splice room.old 0 unknown_text) }
{
    room[0] = b'?';
    room[1] = b'\n';
    2
}
