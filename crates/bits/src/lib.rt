// Fields of bits on packed bytes, most significant bit first: bit k is bit 7 - k % 8 of byte k / 8.
#![tactic(auto)]

ghost use Rattle.std.specs.Prelude.{◌≡◌, ◌+◌, ◌-◌, ◌*◌, ◌/◌, ◌%◌, ◌^◌, ◌≤◌, ◌<◌, length, drop};
ghost use Rattle.wire.specs.Splice.{splice};
ghost use Rattle.bits.specs.Bits.{bits, field, msb, packed, merged};

use wire::Number;

// ---- A field: cut out of the bytes that it touches, at most five.

// The number that the bytes from first on and before last say, the highest first.
fn window(s: &[u8], first: usize, last: usize) -> u64
    requires { (first ≤ last) × (last ≤ first + 8) × (last ≤ length s.now) }
    ensures { result ≡ field (bits s.now) (8 * first) (8 * (last - first)) }
{
    let mut acc: u64 = 0;
    for byte in &s[first..last] {
        acc = acc * 256 + u64::from(*byte);
    }
    acc
}

// The number in the width bits from bit at on.
pub fn get_field(s: &[u8], at: usize, width: usize) -> u32
    requires { (at + width ≤ 8 * length s.now) × (at ≤ 4096) × (width ≤ 32) }
    ensures { result ≡ field (bits s.now) at width }
{
    let last = (at + width + 7) / 8;
    let low = 8 * last - at - width;
    let v = window(s, at / 8, last);
    ((v >> low) % (1u64 << width)) as u32
}

// The number x with v in the n bits above its e low ones.
fn merge(x: u64, n: usize, e: usize, v: u64) -> u64
    requires { (x < 2 ^ 40) × (n + e ≤ 40) × (v < 2 ^ n) }
    ensures { result ≡ merged x n e v }
{
    let top = n + e;
    ((x >> top) << top) + ((v << e) + x % (1u64 << e))
}

// The low bytes of v into the bytes from first on and before last, the highest first.
fn spread(s: &mut [u8], first: usize, last: usize, v: u64)
    requires { (first ≤ last) × (last ≤ length s.old) }
    ensures { bits s.new ≡ splice (bits s.old) (8 * first) (msb (8 * (last - first)) v) }
{
    let mut rest = v;
    // by an index: tried by iter_mut and rev, behind which nothing is known of the bytes
    for i in (first..last).rev() {
        s[i] = (rest % 256) as u8;
        rest /= 256;
    }
}

// The value into the width bits from bit at on.
pub fn put_field(s: &mut [u8], at: usize, width: usize, value: u32)
    requires { (at + width ≤ 8 * length s.old) × (at ≤ 4096) × (width ≤ 32) × (value < 2 ^ width) }
    ensures { bits s.new ≡ splice (bits s.old) at (msb width value) }
{
    let first = at / 8;
    let last = (at + width + 7) / 8;
    let low = 8 * last - at - width;
    let v = window(s, first, last);
    spread(s, first, last, merge(v, width, low, u64::from(value)));
}

// ---- A field with eight bytes of room: a window of one length has no loop left when it is compiled.

// The number in the width bits from bit at on.
pub fn cut_field(s: &[u8], at: usize, width: usize) -> u32
    requires { (at / 8 + 8 ≤ length s.now) × (1 ≤ width) × (width ≤ 32) × (at ≤ 4096) }
    ensures { result ≡ field (bits s.now) at width }
{
    let first = at / 8;
    let x = window(s, first, first + 8);
    ((x << (at % 8)) >> (64 - width)) as u32
}

// The value into the width bits from bit at on, where the eight bytes are still zero from there on.
pub fn add_field(s: &mut [u8], at: usize, width: usize, value: u32)
    requires { (at / 8 + 8 ≤ length s.old) × (1 ≤ width) × (width ≤ 32) × (at ≤ 4096) × (value < 2 ^ width) × (field (bits s.old) at (64 - at % 8) ≡ 0) }
    ensures { bits s.new ≡ splice (bits s.old) at (msb width value) }
{
    let first = at / 8;
    let x = window(s, first, first + 8);
    let shifted = u64::from(value) << (64 - at % 8 - width);
    spread(s, first, first + 8, x + shifted);
}

// ---- A field of four whole bytes: the little-endian word of them, turned.

pub fn word_at(s: &[u8], at: usize) -> u32
    requires { at + 4 ≤ length s.now }
    ensures { result ≡ field (bits s.now) (8 * at) 32 }
{
    u32::at(s, at).swap_bytes()
}

pub fn put_word(s: &mut [u8], at: usize, v: u32)
    requires { at + 4 ≤ length s.old }
    ensures { bits s.new ≡ splice (bits s.old) (8 * at) (msb 32 v) }
{
    v.swap_bytes().put(s, at);
}

// ---- Bytes at any bit: copied where that is a whole byte's first, else byte by byte.

fn put_across(s: &mut [u8], at: usize, bytes: &[u8])
    requires { (at + 8 * length bytes.now ≤ 8 * length s.old) × (at + 8 * length bytes.now ≤ 4096) }
    ensures { bits s.new ≡ splice (bits s.old) at (bits bytes.now) }
{
    for (i, byte) in bytes.iter().enumerate() {
        put_field(s, at + 8 * i, 8, u32::from(*byte));
    }
}

// Bytes as the bits from bit at on.
pub fn put_bytes(s: &mut [u8], at: usize, bytes: &[u8])
    requires { (at + 8 * length bytes.now ≤ 8 * length s.old) × (at + 8 * length bytes.now ≤ 4096) }
    ensures { bits s.new ≡ splice (bits s.old) at (bits bytes.now) }
{
    if at % 8 == 0 {
        wire::copy_at(s, at / 8, bytes);
    } else {
        put_across(s, at, bytes);
    }
}

fn get_across(dst: &mut [u8], to: usize, n: usize, s: &[u8], at: usize)
    requires { (to + n ≤ length dst.old) × (at + 8 * n ≤ 8 * length s.now) × (at + 8 * n ≤ 4096) }
    ensures { dst.new ≡ splice dst.old to (packed n (drop at (bits s.now))) }
{
    for (i, byte) in dst[to..to + n].iter_mut().enumerate() {
        *byte = get_field(s, at + 8 * i, 8) as u8;
    }
}

// The bits from bit at on, as n bytes of dst from a place on.
pub fn get_bytes(dst: &mut [u8], to: usize, n: usize, s: &[u8], at: usize)
    requires { (to + n ≤ length dst.old) × (at + 8 * n ≤ 8 * length s.now) × (at + 8 * n ≤ 4096) }
    ensures { dst.new ≡ splice dst.old to (packed n (drop at (bits s.now))) }
{
    if at % 8 == 0 {
        wire::copy_at(dst, to, &s[at / 8..at / 8 + n]);
    } else {
        get_across(dst, to, n, s, at);
    }
}
