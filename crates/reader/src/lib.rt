// A reader over a lent datagram: it keeps the datagram and its place in it, and hands out one field after another.
#![tactic(auto)]

ghost use Rattle.std.specs.Prelude.{◌≡◌, ◌+◌, ◌≤◌, ◌<◌, ◌^◌, length};
ghost use Rattle.wire.specs.Little.{number};

use wire::Number;

#[derive(Clone, Copy)]
pub struct Reader<'a> {
    pub datagram: &'a [u8],
    pub at: usize,
}

pub fn new<'a>(datagram: &'a [u8]) -> Reader<'a>
    ensures { (result.datagram ≡ datagram.entry) × (result.at ≡ 0) }
{
    Reader { datagram, at: 0 }
}

// The field at the place, a number of any width.
pub fn field<'a, N: Number>(r: Reader<'a>) -> N
    requires { r.at + N.width ≤ length r.datagram.now }
    ensures { N.value result ≡ number r.entry.datagram.now r.entry.at N.width }
{
    N::at(r.datagram, r.at)
}

// The reader n bytes further on.
pub fn past<'a>(r: Reader<'a>, n: usize) -> Reader<'a>
    requires { r.at + n < 2 ^ 64 }
    ensures { (result.datagram ≡ r.entry.datagram) × (result.at ≡ r.entry.at + n) }
{
    Reader {
        datagram: r.datagram,
        at: r.at + n,
    }
}
