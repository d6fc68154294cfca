// A field put into the bytes of a buffer.

ghost use Rattle.std.specs.Prelude.{◌≡◌, false, ◌++◌, ◌+◌, ◌-◌, ◌*◌, ◌/◌, ◌%◌, ◌^◌, ◌≤◌, ◌<◌, min, length, take, replicate};
ghost use Rattle.stream.specs.Bits.{bits_of, bits, replaced};
ghost use Rattle.stream.specs.Calls.{limit};

use super::field::{digits, in_byte};

// The byte with c digits of chunk behind its first k bits: those k stay, what lies behind the digits becomes zero.
fn placed(old: u8, k: usize, c: usize, chunk: u64) -> u8
    requires c_bound { k + c ≤ 8 }
    requires chunk_bound { chunk < 2 ^ c }
    ensures { bits_of 8 result ≡ take k (bits_of 8 old) ++ (bits_of c chunk ++ replicate (8 - (k + c)) false) }
{
    let low = 8 - k;
    let kept = (u64::from(old) >> low) << low;
    (kept | (chunk << (low - c))) as u8
}

// c digits at bit p, within one byte.
fn put_chunk(buf: &mut [u8], p: usize, c: usize, chunk: u64)
    requires c_nonzero { 0 < c }
    requires c_bound { p % 8 + c ≤ 8 }
    requires c_bound_2 { p + c ≤ 8 * length buf.old }
    requires chunk_bound { chunk < 2 ^ c }
    ensures { bits buf.new ≡ replaced (bits buf.old) p (bits_of c chunk) }
{
    let i = p / 8;
    buf[i] = placed(buf[i], p % 8, c, chunk);
}

// As many of the left low digits of value as go into the byte of bit p, the highest first. Answers how many.
fn put_some(buf: &mut [u8], p: usize, value: u64, left: usize) -> usize
    requires left_nonzero { 0 < left }
    requires left_bound { left ≤ 64 }
    requires left_bound_2 { p + left ≤ 8 * length buf.old }
    ensures { (result ≡ min left (8 - p % 8)) × (bits buf.new ≡ replaced (bits buf.old) p (bits_of result (value / 2 ^ (left - result)))) }
{
    let c = in_byte(p, left);
    put_chunk(buf, p, c, digits(value, left - c, c));
    c
}

// The n low digits of value from bit at on, a byte's bits at a time: at most nine turns.
pub(super) fn put_field(buf: &mut [u8], at: usize, value: u64, n: usize)
    requires buf_len_bound { length buf.old ≤ limit }
    requires n_bound { n ≤ 64 }
    requires n_bound_2 { at + n ≤ 8 * length buf.old }
    ensures { bits buf.new ≡ replaced (bits buf.old) at (bits_of n value) }
{
    let mut left = n;
    let mut p = at;
    // as in get.rt, by steps that no iterator of std has
    while 0 < left {
        let c = put_some(buf, p, value, left);
        left -= c;
        p += c;
    }
}
