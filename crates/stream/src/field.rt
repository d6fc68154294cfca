// What writing and reading a field share: its width, whether it fits, and its part within one byte.

ghost use Rattle.std.specs.Prelude.{◌≡◌, ◌+◌, ◌-◌, ◌*◌, ◌/◌, ◌%◌, ◌^◌, ◌≤◌, ◌<◌, min};
ghost use Rattle.stream.specs.Bits.{bits_of};
ghost use Rattle.stream.specs.Refusals.{number_of};
ghost use Rattle.stream.specs.Calls.{width, field_fault};
ghost use Rattle.stream.specs.Fits.{fault_of};

use super::LIMIT;
use super::refusal::Refusal;

// The bits that a count asks for: a number has no more than 64. That bound is a clause of `fit_of` and of what gets and puts a field, and no type of its
// own: each of them counts with the number, and would take it out of the type first.
pub(super) fn width_of(num: u32) -> usize
    ensures { result ≡ width num }
{
    // `as`: there is no From of a u32 for a usize
    num.min(64) as usize
}

// Whether n bits at bit p fit in len bytes; short is the refusal where they run past the end.
pub(super) fn fit_of(len: usize, p: usize, n: usize, short: Refusal) -> Result<(), Refusal>
    requires { n ≤ 64 }
    ensures { fault_of result ≡ field_fault (number_of short) len p n }
{
    if LIMIT < len {
        return Err(Refusal::TooLong);
    }
    if 8 * len < p {
        return Err(Refusal::NoFit);
    }
    if 8 * len < p + n {
        return Err(short);
    }
    Ok(())
}

// How many of left bits lie in the byte of bit p: all that it has room for, so that 64 bits take at most nine turns.
pub(super) fn in_byte(p: usize, left: usize) -> usize
    requires { 0 < left }
    ensures { result ≡ min left (8 - p % 8) }
{
    left.min(8 - p % 8)
}

// The c digits of value that stand above its low ones.
pub(super) fn digits(value: u64, low: usize, c: usize) -> u64
    requires low_bound { low < 64 }
    requires c_bound { c ≤ 8 }
    ensures { (result < 2 ^ c) × (bits_of c result ≡ bits_of c (value / 2 ^ low)) }
{
    (value >> low) % (1u64 << c)
}
