// What stands next in a stream: a point, the end, or why there is none.

ghost use Rattle.std.specs.Prelude.{◌≡◌, ◌+◌, ◌<◌};
ghost use Rattle.stream.specs.Bits.{bits};
ghost use Rattle.layout.specs.Rows.{signed};
ghost use Rattle.layout.specs.Writing.{state};
ghost use Rattle.layout.specs.Reading.{ask, done, item, value_digits, point, read_marker, read_first, read_later, read_value, first_time, after_dod};
ghost use Rattle.layout.specs.Answers.{first_step};
ghost use Rattle.decode.specs.Parts.{place, unplaced, from, found_of, Carried};

use super::field::Peeked;
use super::raw_dod::RawDod;
use super::timestamp::{Dod, new_time, read_dod};
use super::value::read_next_value;
use layout::{State, Window};
use stream::{BufferedReader, Refusal};

// A point, as what is kept of it, and what is behind it; or the end.
#[derive(Clone, Copy)]
pub enum Found<'a> {
    End(BufferedReader),
    Point(State, Peeked<'a>),
}

// The marker 1111 and 32 zeros, behind its first bit.
const MARKER_REST: u64 = 0b111_0000_0000_0000_0000_0000_0000_0000_0000;

const MARKER_REST_LEN: u32 = 35;

// ---- the first point

// Its value, whole.
fn read_first_value(p: Peeked, time: u64, delta: u64, window: Window) -> Result<Found, Refusal>
    ensures { found_of result ≡ from (ask (item value_digits 0) 64 (λ v. done (point (state time delta v window)))) p.entry }
{
    let (value, rest) = p.read(64)?;
    let kept = State {
        time,
        delta,
        value,
        window,
    };
    Ok(Found::Point(kept, rest))
}

// Its delta, which is no dod yet, then its value.
fn read_first_time(p: Peeked, start: u64, window: Window) -> Result<Found, Refusal>
    ensures { found_of result ≡ from (first_time 6 start window) p.entry }
{
    let (delta, rest) = p.read(14)?;
    // no `checked_add`: an edit moves this bound by one, for which a sum has no place
    if u64::MAX - start < delta {
        return Err(Refusal::ReadTimePasses);
    }
    read_first_value(rest, start + delta, delta, window)
}

// The marker in its place, behind the control bit.
fn read_marker(p: Peeked) -> Result<Found, Refusal>
    ensures { found_of result ≡ from read_marker p.entry }
{
    let (marker, rest) = p.read(MARKER_REST_LEN)?;
    if marker == MARKER_REST {
        return Ok(Found::End(rest.r));
    }
    Err(Refusal::BadEnd)
}

// Its control bit: a point, or the end of a series that has none.
fn read_first(p: Peeked, start: u64, window: Window) -> Result<Found, Refusal>
    ensures { found_of result ≡ from (read_first 6 start window) p.entry }
{
    let (control_bit, rest) = p.read(1)?;
    if control_bit == 0 {
        return read_first_time(rest, start, window);
    }
    read_marker(rest)
}

// The start, then the first point.
pub(super) fn read_start(p: Peeked, window: Window) -> Result<Found, Refusal>
    ensures { found_of result ≡ unplaced (first_step 6 window (place p.entry) (bits p.entry.buf.now)) }
{
    let Ok((start, rest)) = p.read(64) else {
        return Err(Refusal::NoStart);
    };
    read_first(rest, start, window)
}

// ---- a later point

// Its value, behind its time.
fn read_later_value(p: Peeked, k: State, time: u64, delta: u64) -> Result<Found, Refusal>
    requires trail_bound { k.window.lead + k.window.trail < 64 }
    ensures { (found_of result ≡ from (read_value 6 k.value k.window (λ w v. done (point (state time delta v w)))) p.entry) × Carried p.entry.buf.now result }
{
    let value = read_next_value(p, k.value, k.window)?;
    let next = State {
        time,
        delta,
        value: value.bits,
        window: value.window,
    };
    Ok(Found::Point(next, value.r))
}

// Its time, from the dod's field, then its value.
fn read_later_time(p: Peeked, k: State, field: RawDod) -> Result<Found, Refusal>
    requires trail_bound { k.window.lead + k.window.trail < 64 }
    ensures { (found_of result ≡ from (after_dod 6 k (signed field.width field.raw)) p.entry) × Carried p.entry.buf.now result }
{
    let (time, delta) = new_time(k.time, k.delta, field)?;
    read_later_value(p, k, time, delta)
}

// A point that follows another, or the end.
pub(super) fn read_later(p: Peeked, k: State) -> Result<Found, Refusal>
    requires trail_bound { k.window.lead + k.window.trail < 64 }
    ensures { (found_of result ≡ from (read_later 6 k) p.entry) × Carried p.entry.buf.now result }
{
    let dod = read_dod(p.refilled())?;
    match dod {
        Dod::End(rest) => Ok(Found::End(rest)),
        Dod::Got(field, rest) => read_later_time(rest, k, field),
    }
}
