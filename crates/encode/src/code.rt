// The bits of a point as numbers, before any of them is written.

ghost use Rattle.std.specs.Prelude.{◌≡◌, true, ◌++◌, ◌+◌, ◌-◌, ◌/◌, ◌^◌, ◌≤◌, ◌<◌};
ghost use Rattle.stream.specs.Bits.{bits_of};
ghost use Rattle.layout.specs.Rows.{Good, fits};
ghost use Rattle.layout.specs.Windows.{digits, digit_bits, reuses, tight, reuse_bits, open_bits, xor_bits, window_after};
ghost use Rattle.layout.specs.Writing.{in_range, in_row, dod_bits};
ghost use Rattle.encode.specs.Codes.{xor_digits};
ghost use Rattle.encode.specs.Parts.{word_of, Short, Holds};

use super::dod::{field_of, row_of};
use layout::{Row, Window};

// The len low bits of a number, the highest first. No higher bit is set: `Short` says so in the contracts. As a ghost field it was tried, and that two codes
// with the same numbers are one (`code_told`) did not close.
#[derive(Clone, Copy, PartialEq, Eq)]
pub struct Code {
    pub bits: u64,
    pub len: u32,
}

// The code of a point: what stands before the digits of its value, at most 50 bits; the digits, at most 64; and the window after them.
#[derive(Clone, Copy, PartialEq, Eq)]
pub struct PointCode {
    pub head: Code,
    pub digits: Code,
    pub window: Window,
}

impl Code {
    // The code with the n low bits of a number behind it.
    fn with(self, low: u64, n: u32) -> Code
        requires short { Short self }
        requires n_bound { self.len + n ≤ 50 }
        requires low_bound { low < 2 ^ n }
        ensures { (result.len ≡ self.len + n) × (Short result) × (word_of result ≡ word_of self ++ bits_of n low) }
    {
        let bits = (self.bits << n) + low;
        let len = self.len + n;
        Code { bits, len }
    }
}

// A dod in a row that takes it.
fn row_code(row: Row, d: i64) -> Code
    requires good { Good row }
    requires d_value { fits row d ≡ true }
    ensures { (result.len ≤ 36) × (Short result) × (word_of result ≡ in_row row d) }
{
    let prefix = Code {
        bits: row.prefix,
        len: row.prefix_len,
    };
    prefix.with(field_of(d, row.width), row.width)
}

// A dod: a single 0, or the first row that takes it.
pub(super) fn time_code(d: i64) -> Code
    requires { in_range d ≡ true }
    ensures { (result.len ≤ 36) × (Short result) × (word_of result ≡ dod_bits d) }
{
    if d == 0 {
        return Code { bits: 0, len: 1 };
    }
    row_code(row_of(d), d)
}

// The window's digits of a xor that has the window's zeros. That it has them, and that they leave a digit, is asked here and of the two functions below; a
// type for a xor in its window would be longer than these clauses.
fn digits_of(x: u64, window: Window) -> Code
    requires room { window.lead + window.trail < 64 }
    requires x_value { reuses 6 window x ≡ true }
    ensures { (result.len ≡ digits 6 window) × (Short result) × (word_of result ≡ digit_bits 6 window x) }
{
    Code {
        bits: x >> window.trail,
        len: 64 - window.lead - window.trail,
    }
}

// That a time's code has at most 36 bits is a clause of the three functions that take one: no other code has that bound, and a type around `Code` for it
// would be taken apart at each use.

// Behind a time: bits 10 and the window's digits.
fn reuse(time: Code, x: u64, window: Window) -> PointCode
    requires len_bound { (time.len ≤ 36) × Short time }
    requires room { window.lead + window.trail < 64 }
    requires x_value { reuses 6 window x ≡ true }
    ensures { Holds result (word_of time ++ reuse_bits 6 window x) (digits 6 window) window }
{
    PointCode {
        head: time.with(0b10, 2),
        digits: digits_of(x, window),
        window,
    }
}

// Behind a time: bits 11, the leading zeros, the number of digits less one, the digits.
fn open_window(time: Code, x: u64, window: Window) -> PointCode
    requires len_bound { (time.len ≤ 36) × Short time }
    requires room { window.lead + window.trail < 64 }
    requires x_value { reuses 6 window x ≡ true }
    ensures { Holds result (word_of time ++ open_bits 6 window x) (digits 6 window) window }
{
    let digits = digits_of(x, window);
    let control = time.with(0b11, 2);
    let zeros = control.with(u64::from(window.lead), 6);
    let head = zeros.with(u64::from(digits.len - 1), 6);
    PointCode {
        head,
        digits,
        window,
    }
}

// The window that just holds a xor.
fn tight_of(x: u64) -> Window
    ensures { result ≡ tight 6 x }
{
    Window {
        lead: x.leading_zeros(),
        trail: x.trailing_zeros(),
    }
}

// Whether a xor's zeros are each at least those of the window.
fn covers(window: Window, x: u64) -> bool
    ensures { result ≡ reuses 6 window x }
{
    let tight = tight_of(x);
    window.lead <= tight.lead && window.trail <= tight.trail
}

// Behind a time: a xor, in the last window opened if it covers it.
pub(super) fn value_code(time: Code, x: u64, window: Window) -> PointCode
    requires { (time.len ≤ 36) × Short time }
    ensures { Holds result (word_of time ++ xor_bits 6 window x) (xor_digits 6 window x) (window_after 6 window x) }
{
    if x == 0 {
        return PointCode {
            head: time.with(0, 1),
            digits: Code { bits: 0, len: 0 },
            window,
        };
    }
    if covers(window, x) {
        return reuse(time, x, window);
    }
    open_window(time, x, tight_of(x))
}
