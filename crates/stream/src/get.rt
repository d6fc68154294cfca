// A field taken out of the bytes of a buffer.

ghost use Rattle.std.specs.Prelude.{◌≡◌, ◌+◌, ◌-◌, ◌*◌, ◌/◌, ◌%◌, ◌^◌, ◌≤◌, ◌<◌, length};
ghost use Rattle.stream.specs.Bits.{value_of, bits, field};
ghost use Rattle.stream.specs.Calls.{limit};

use super::field::{digits, in_byte};

// A byte as a number, and that it is one of eight digits.
fn wide(x: u8) -> u64
    ensures { (result ≡ x) × (result < 256) }
{
    u64::from(x)
}

// Byte i.
fn byte_at(buf: &[u8], i: usize) -> u64
    requires { i < length buf.now }
    ensures { result ≡ value_of (field (bits buf.now) (8 * i) 8) }
{
    wide(buf[i])
}

// The eight bytes from byte i on.
fn word(buf: &[u8], i: usize) -> u64
    requires { i + 8 ≤ length buf.now }
    ensures { result ≡ value_of (field (bits buf.now) (8 * i) 64) }
{
    u64::from_be_bytes([
        buf[i],
        buf[i + 1],
        buf[i + 2],
        buf[i + 3],
        buf[i + 4],
        buf[i + 5],
        buf[i + 6],
        buf[i + 7],
    ])
}

// The 64 bits from bit at on, which lie in nine bytes.
pub(super) fn word_from(buf: &[u8], at: usize) -> u64
    requires { at / 8 + 9 ≤ length buf.now }
    ensures { result ≡ value_of (field (bits buf.now) at 64) }
{
    let i = at / 8;
    let k = at % 8;
    (word(buf, i) << k) + (byte_at(buf, i + 8) >> (8 - k))
}

// v with the c bits at p behind it, which lie in one byte.
fn more(buf: &[u8], p: usize, c: usize, v: u64) -> u64
    requires c_nonzero { 0 < c }
    requires c_bound { p % 8 + c ≤ 8 }
    requires c_bound_2 { p + c ≤ 8 * length buf.now }
    requires v_bound { v < 2 ^ (64 - c) }
    ensures { result ≡ v * 2 ^ c + value_of (field (bits buf.now) p c) }
{
    let i = p / 8;
    (v << c) + digits(wide(buf[i]), 8 - p % 8 - c, c)
}

// The n bits from bit at on, a byte's bits at a time. That the bits lie in the buffer is a clause of this, of `get_field` and of `put_field`: a type that
// holds it would borrow the buffer, to read in two of them and to write in the third, so it would be two types for three functions.
fn get_bytes(buf: &[u8], at: usize, n: usize) -> u64
    requires buf_len_bound { length buf.now ≤ limit }
    requires n_bound { n ≤ 64 }
    requires n_bound_2 { at + n ≤ 8 * length buf.now }
    ensures { result ≡ value_of (field (bits buf.now) at n) }
{
    let mut left = n;
    let mut p = at;
    let mut v: u64 = 0;
    // each turn takes what its byte has, from one bit to eight: no iterator of std goes by such steps
    while 0 < left {
        let c = in_byte(p, left);
        v = more(buf, p, c, v);
        left -= c;
        p += c;
    }
    v
}

// The n bits from bit at on: out of one word where nine bytes are there, byte by byte near the buffer's end. A field of no bits would ask for a
// shift by 64.
pub(super) fn get_field(buf: &[u8], at: usize, n: usize) -> u64
    requires buf_len_bound { length buf.now ≤ limit }
    requires n_bound { n ≤ 64 }
    requires n_bound_2 { at + n ≤ 8 * length buf.now }
    ensures { result ≡ value_of (field (bits buf.now) at n) }
{
    if 0 < n {
        if at / 8 + 9 <= buf.len() {
            return word_from(buf, at) >> (64 - n);
        }
    }
    get_bytes(buf, at, n)
}
