// A later point's value: the Rust's `read_next_value`, a function for each of its choices. Its head is read before its digits, so that there is
// one place that reads digits.

ghost use Rattle.std.specs.Prelude.{◌≡◌, ℕ, ◌+◌, ◌<◌};
ghost use Rattle.layout.specs.declared.Window.{Window};
ghost use Rattle.layout.specs.Reading.{Reader, read_digits, read_window, read_xor, read_value};
ghost use Rattle.decode.specs.Parts.{from, then_value, Behind, then_head, Sound};

use super::field::Peeked;
use layout::Window;
use stream::Refusal;

// A value's bits, the window that gave them, and what is behind them.
#[derive(Clone, Copy)]
pub struct Value<'a> {
    pub bits: u64,
    pub window: Window,
    pub r: Peeked<'a>,
}

// What stands before a value's digits: that it has none, since it is the previous one, or its window and the reader before them.
#[derive(Clone, Copy)]
pub enum Head<'a> {
    Same(Peeked<'a>),
    Digits(Window, Peeked<'a>),
}

// Behind bits 11: a window's leading zeros and its number of digits less one. 9 before any digit is read.
fn read_window(p: Peeked) -> Result<Head, Refusal>
    ensures { ((v : ℕ) (w : Window) (f : Window → ℕ → Reader) → then_head v w result f ≡ from (read_window 6 v f) p.entry) × Sound p.entry.buf.now result }
{
    let (zeros, behind) = p.get(6)?;
    let (less, rest) = behind.get(6)?;
    let lead = zeros as u32;
    let size = less as u32 + 1;
    if 64 < lead + size {
        return Err(Refusal::BadWindow);
    }
    let trail = 64 - lead - size;
    Ok(Head::Digits(Window { lead, trail }, rest))
}

// Behind bit 1: a window is reused, or opened. That a window has a digit is a clause from here on, in found.rt too, and no type of its own: a point is kept
// as the layout's `State`, whose window an encoder has without a digit as well, so such a type would be made anew, and proved, for each point.
fn read_xor(p: Peeked, w: Window) -> Result<Head, Refusal>
    requires trail_bound { w.lead + w.trail < 64 }
    ensures { ((v : ℕ) (f : Window → ℕ → Reader) → then_head v w result f ≡ from (read_xor 6 v w f) p.entry) × Sound p.entry.buf.now result }
{
    let (zeroes_bit, rest) = p.get(1)?;
    if zeroes_bit == 0 {
        return Ok(Head::Digits(w, rest));
    }
    read_window(rest)
}

// A value's first bits: 0 for the previous value, or what stands before digits.
fn read_head(p: Peeked, w: Window) -> Result<Head, Refusal>
    requires trail_bound { w.lead + w.trail < 64 }
    ensures { ((v : ℕ) (f : Window → ℕ → Reader) → then_head v w result f ≡ from (read_value 6 v w f) p.entry) × Sound p.entry.buf.now result }
{
    let (control_bit, rest) = p.get(1)?;
    if control_bit == 0 {
        return Ok(Head::Same(rest));
    }
    read_xor(rest, w)
}

// The digits of a window, as a xor with the previous value.
fn read_digits(p: Peeked, previous: u64, w: Window) -> Result<Value, Refusal>
    requires trail_bound { w.lead + w.trail < 64 }
    ensures { ((f : Window → ℕ → Reader) → then_value result f ≡ from (read_digits 6 previous w f) p.entry) × Behind p.entry.buf.now result }
{
    let size = 64 - w.lead - w.trail;
    let (x, rest) = p.get_digits(size)?;
    let xor = x << w.trail;
    Ok(Value {
        bits: xor ^ previous,
        window: w,
        r: rest,
    })
}

// A value: the previous one, or a xor with it.
pub(super) fn read_next_value(p: Peeked, previous: u64, w: Window) -> Result<Value, Refusal>
    requires trail_bound { w.lead + w.trail < 64 }
    ensures { ((f : Window → ℕ → Reader) → then_value result f ≡ from (read_value 6 previous w f) p.entry) × Behind p.entry.buf.now result }
{
    let head = read_head(p, w)?;
    match head {
        Head::Same(rest) => Ok(Value {
            bits: previous,
            window: w,
            r: rest,
        }),
        Head::Digits(opened, digits) => read_digits(digits, previous, opened),
    }
}
