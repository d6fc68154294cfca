// A point's time: the Rust's `read_next_timestamp`, in two parts. The dod's field is read, then the new time is checked and made.

ghost use Rattle.std.specs.Prelude.{◌≡◌, ℕ, ◌≤◌, Bool, List, [], ℤ, pos, ◌+ℤ◌};
ghost use Rattle.layout.specs.Rows.{row7, longer_rows, row32, signed};
ghost use Rattle.layout.specs.Reading.{ask, item, time_field, Reader, read_row, read_dod, new_time};
ghost use Rattle.decode.specs.Parts.{comes_to, from, then_dod, InField, then_found, then_time};

use super::field::Peeked;
use super::raw_dod::RawDod;
use layout::row_at;
use stream::{BufferedReader, Refusal};

// What stands where a time would: the end, or a dod's field, with what is behind it.
#[derive(Clone, Copy)]
pub enum Dod<'a> {
    End(BufferedReader),
    Got(RawDod, Peeked<'a>),
}

// The field of a row that is not the last.
fn row_field(p: Peeked, width: u32) -> Result<Dod, Refusal>
    requires le_width { (1 ≤ width) × (width ≤ 32) }
    ensures { ((f : ℤ → Reader) → then_dod result f ≡ from (ask (item time_field 0) width (λ x. f (signed width x))) p.entry) × InField p.entry.buf.now result }
{
    let (raw, rest) = p.get(width)?;
    Ok(Dod::Got(RawDod { raw, width }, rest))
}

// The field of the last row, in which 0 is the end.
fn last_field(p: Peeked) -> Result<Dod, Refusal>
    ensures { ((f : ℤ → Reader) → then_dod result f ≡ from (read_row row32 [] f) p.entry) × InField p.entry.buf.now result }
{
    let last = row_at(3);
    let (raw, rest) = p.get(last.width)?;
    if raw == 0 {
        return Ok(Dod::End(rest.r));
    }
    let width = last.width;
    Ok(Dod::Got(RawDod { raw, width }, rest))
}

// Behind the first control bit: a 0 chooses a row, up to the last, which has none.
fn read_row(p: Peeked) -> Result<Dod, Refusal>
    ensures { ((f : ℤ → Reader) → then_dod result f ≡ from (read_row row7 longer_rows f) p.entry) × InField p.entry.buf.now result }
{
    let mut behind = p;
    for i in 0..3 {
        let (bit, rest) = behind.get(1)?;
        if bit == 0 {
            let row = row_at(i);
            return row_field(rest, row.width);
        }
        behind = rest;
    }
    last_field(behind)
}

// A dod's control bits and field. The single bit 0 is a dod of 0, which any field holds.
pub(super) fn read_dod(p: Peeked) -> Result<Dod, Refusal>
    ensures { ((f : ℤ → Reader) → then_dod result f ≡ from (read_dod f) p.entry) × InField p.entry.buf.now result }
{
    let (bit, rest) = p.get(1)?;
    if bit == 0 {
        let zero = RawDod { raw: 0, width: 7 };
        return Ok(Dod::Got(zero, rest));
    }
    read_row(rest)
}

// The delta behind a dod: 10, or 11 where already the delta passes 2^64 - 1, and so its time; then the delta by a sum that wraps as in the Rust and is by
// now the true one.
fn new_delta(delta: u64, field: RawDod) -> Result<u64, Refusal>
    ensures { (t q : ℕ) (s : List Bool) (f : ℕ → ℕ → Reader) → then_found result (λ d. comes_to (new_time t (pos d) f) q s) ≡ comes_to (new_time t (pos delta +ℤ signed field.width field.raw) f) q s }
{
    let dod = field.extend();
    let raw = field.raw;
    // bounds, and no `checked_add`: the edits move each of them by one, for which a sum has no place
    let half: u64 = 1u64 << (field.width - 1);
    let all: u64 = 1u64 << field.width;
    if half < raw {
        if delta < all - raw {
            return Err(Refusal::ReadTimeFalls);
        }
    } else {
        if u64::MAX - delta < raw {
            return Err(Refusal::ReadTimePasses);
        }
    }
    Ok(delta.wrapping_add(dod))
}

// The new time behind a dod, and the delta that leads to it: 10, then 11.
pub(super) fn new_time(time: u64, delta: u64, field: RawDod) -> Result<(u64, u64), Refusal>
    ensures { (q : ℕ) (s : List Bool) (f : ℕ → ℕ → Reader) → then_time q s result f ≡ comes_to (new_time time (pos delta +ℤ signed field.width field.raw) f) q s }
{
    let next = new_delta(delta, field)?;
    // a bound, as above
    if u64::MAX - time < next {
        return Err(Refusal::ReadTimePasses);
    }
    Ok((time + next, next))
}
