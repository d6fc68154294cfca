// The last point, and the code of the one that follows it. No buffer is needed to tell it.

ghost use Rattle.std.specs.Prelude.{◌≡◌, true, false, ◌≤◌};
ghost use Rattle.encode.specs.States.{point_of, progress_by, progress_in};
ghost use Rattle.encode.specs.Codes.{tell_code, code_of};
ghost use Rattle.encode.specs.Parts.{Meets};

use super::code::{Code, PointCode, time_code, value_code};
use super::dod::dod_between;
use layout::State;
use point::Stored;
use stream::Refusal;

// What the code of a point depends on: what is kept of the last point; before the first point its time is the start.
#[derive(Clone, Copy, PartialEq, Eq)]
pub struct Last {
    pub kept: State,
    // no Option of a last point: before the first one a time and a window are kept too, and document 01 has a state's fields zero where it is closed
    pub first: bool,
}

// The code of a first point: 3, or its delta and its value, whole.
fn first_code(k: State, p: Stored) -> Result<PointCode, Refusal>
    requires { k.time ≤ p.time }
    ensures { Meets (progress_by true k) (point_of p) result }
{
    let delta = p.time - k.time;
    if 16_383 < delta {
        return Err(Refusal::FirstDelta);
    }
    // the control bit 0, and 14 bits
    let head = Code {
        bits: delta,
        len: 15,
    };
    let digits = Code {
        bits: p.bits,
        len: 64,
    };
    let window = k.window;
    Ok(PointCode {
        head,
        digits,
        window,
    })
}

// The code of a later point: 4, or its dod and the xor of its value.
fn later_code(k: State, p: Stored) -> Result<PointCode, Refusal>
    requires { k.time ≤ p.time }
    ensures { Meets (progress_by false k) (point_of p) result }
{
    let dod = dod_between(p.time - k.time, k.delta).ok_or(Refusal::DodRange)?;
    let time = time_code(dod);
    Ok(value_code(time, p.bits ^ k.value, k.window))
}

// The code of a point: 2, then 3 or 4.
pub(super) fn code_after(last: Last, p: Stored) -> Result<PointCode, Refusal>
    ensures { Meets (progress_in last) (point_of p) result }
{
    let k = last.kept;
    if p.time < k.time {
        return Err(Refusal::TimeFalls);
    }
    if last.first {
        return first_code(k, p);
    }
    later_code(k, p)
}

impl Last {
    // The code of a point that follows: 2, then 3 or 4. What `code_after` promises is in its parts, as the writer needs it; here it is told.
    pub fn code_of(self, point: Stored) -> Result<PointCode, Refusal>
        ensures { tell_code result ≡ code_of 6 (progress_in self) (point_of point) }
    {
        code_after(self, point)
    }
}
