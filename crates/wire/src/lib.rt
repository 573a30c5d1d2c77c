// Bytes on the wire: numbers, flags, REAL values and copied parts in lent bytes.
#![tactic(auto)]

ghost use Rattle.std.specs.Prelude.{false, ℕ, ◌≡◌, ◌+◌, ◌≤◌, ◌<◌, length, take, drop};
ghost use Rattle.std.specs.Float.{binary32};
ghost use Rattle.std.specs.Float.Ieee.{of_bits, to_bits, is_nan};
ghost use Rattle.wire.specs.Splice.{splice};
ghost use Rattle.wire.specs.Little.{little, number};
ghost use Rattle.wire.specs.Real.{real};
ghost use Rattle.wire.specs.Flags.{is_set, flags};

// ---- whole numbers, least byte first

// A number that has a width of its own.
pub trait Number: Copy {
    ghost width: { ℕ };

    ghost value: { Self → ℕ };

    fn at(s: &[u8], at: usize) -> Self
        requires { at + width ≤ length s.now }
        ensures { value result ≡ number s.now at width };

    fn put(self, s: &mut [u8], at: usize)
        requires { at + width ≤ length s.old }
        ensures { s.new ≡ splice s.old at (little width (value self)) };
}

impl Number for u8 {
    ghost width = { 1 };

    ghost value = { λ v. v };

    fn at(s: &[u8], at: usize) -> u8 {
        s[at]
    }

    fn put(self, s: &mut [u8], at: usize) {
        s[at] = self;
    }
}

impl Number for u16 {
    ghost width = { 2 };

    ghost value = { λ v. v };

    fn at(s: &[u8], at: usize) -> u16 {
        u16::from_le_bytes([s[at], s[at + 1]])
    }

    fn put(self, s: &mut [u8], at: usize) {
        s[at..at + 2].copy_from_slice(&self.to_le_bytes());
    }
}

impl Number for u32 {
    ghost width = { 4 };

    ghost value = { λ v. v };

    fn at(s: &[u8], at: usize) -> u32 {
        u32::from_le_bytes([s[at], s[at + 1], s[at + 2], s[at + 3]])
    }

    fn put(self, s: &mut [u8], at: usize) {
        s[at..at + 4].copy_from_slice(&self.to_le_bytes());
    }
}

// A number of any width.
pub fn put_number(s: &mut [u8], at: usize, len: usize, v: u64)
    requires { at + len ≤ length s.old }
    ensures { s.new ≡ splice s.old at (little len v) }
{
    let mut rest = v;
    for byte in &mut s[at..at + len] {
        *byte = (rest % 256) as u8;
        rest /= 256;
    }
}

// ---- flags

// Whether a byte is other than 0.
pub fn is_set(s: &[u8], at: usize) -> bool
    requires { at + 1 ≤ length s.now }
    ensures { result ≡ is_set s.now at }
{
    u8::at(s, at) != 0
}

// Four flags, a byte each.
pub fn put_flags(s: &mut [u8], at: usize, a: bool, b: bool, c: bool, d: bool)
    requires { at + 4 ≤ length s.old }
    ensures { s.new ≡ splice s.old at (flags a b c d) }
{
    let bytes = [u8::from(a), u8::from(b), u8::from(c), u8::from(d)];
    s[at..at + 4].copy_from_slice(&bytes);
}

// ---- parts

// Bytes to a place of dst. No copy_from_slice, which is compiled to memmove where the length is not known: the library needs memcpy and memset alone.
pub fn copy_at(dst: &mut [u8], at: usize, bytes: &[u8])
    requires { at + length bytes.now ≤ length dst.old }
    ensures { dst.new ≡ splice dst.old at bytes.now }
{
    for (i, byte) in bytes.iter().enumerate() {
        dst[at + i] = *byte;
    }
}

// Seven bytes, as most parts of a long value have: two words that share one. Beside copy_at, since PROMISES names it and the edit seven-shifted is its.
pub fn copy_seven(dst: &mut [u8], at: usize, src: &[u8], from: usize)
    requires { (at + 7 ≤ length dst.old) × (from + 7 ≤ length src.now) }
    ensures { dst.new ≡ splice dst.old at (take 7 (drop from src.now)) }
{
    u32::at(src, from).put(dst, at);
    u32::at(src, from + 3).put(dst, at + 3);
}

// ---- REAL values

// The REAL of a bit pattern. `f32::from_bits` is not defined at the pattern of a NaN, so a NaN is made there.
pub fn real_of(pattern: u32) -> f32
    ensures { result ≡ of_bits binary32 pattern }
{
    if 2139095040 < pattern % 2147483648 {
        return 0.0 / 0.0;
    }
    f32::from_bits(pattern)
}

pub fn real_at(s: &[u8], at: usize) -> f32
    requires { at + 4 ≤ length s.now }
    ensures { result ≡ real s.now at }
{
    real_of(u32::at(s, at))
}

// The bit pattern of a REAL that is a number; minus zero keeps its own. Beside real_of, which std has not for every pattern.
pub fn bits_of(p: f32) -> u32
    requires { is_nan p ≡ false }
    ensures { result ≡ to_bits binary32 p }
{
    f32::to_bits(p)
}
