// A point of a series: a time and a value. As people handle it, a float; as the codec keeps it, the float's 64 bits.

#![tactic(auto)]

ghost use Rattle.std.specs.Prelude.{◌≡◌, min, length};
ghost use Rattle.std.specs.Cmp.{partial_equiv_from_equiv};
ghost use Rattle.point.specs.Points.{new_of, same_of, time_order, to_stored, to_point};
ghost use Rattle.point.specs.Alike.{same_equiv};

use std::cmp::Ordering;
use std::num::{f64_from_bits_with_nan, f64_to_bits_with_nan};

// A time and a value, as in the Rust. Round trips are about `Stored`, since a float here keeps no payload of a NaN.
#[derive(Clone, Copy)]
pub struct DataPoint {
    time: u64,
    value: f64,
}

// A time and the bits of a value: what streams hold.
#[derive(Clone, Copy, PartialEq, Eq)]
pub struct Stored {
    pub time: u64,
    pub bits: u64,
}

impl DataPoint {
    // Create a point from a time and a value.
    pub fn new(time: u64, value: f64) -> Self
        ensures { result ≡ new_of time value }
    {
        Self { time, value }
    }

    // The point's time.
    pub fn get_time(self) -> u64
        ensures { result ≡ self.time }
    {
        self.time
    }

    // The point's value.
    pub fn get_value(self) -> f64
        ensures { result ≡ self.value }
    {
        self.value
    }

    // The Rust's order, by the times alone, as `by_time` says. No `Ord`: its law `matches_eq` asks that points that stand equal in the order are `==`.
    pub fn cmp(self, other: DataPoint) -> Ordering
        ensures { result ≡ time_order self.time other.time }
    {
        self.time.cmp(&other.time)
    }
}

// The Rust's `==`: any two NaNs are alike, and so are 0.0 and -0.0.
impl PartialEq for DataPoint {
    ghost eq = { same_of };

    ghost laws = { partial_equiv_from_equiv same_equiv };

    fn eq(&self, other: &DataPoint) -> bool {
        let same_time = self.time == other.time;
        let (x, y) = (self.value, other.value);
        same_time && (x == y || x.is_nan() && y.is_nan())
    }
}

impl Eq for DataPoint {
    ghost laws = { same_equiv };
}

// The point with its value's bits. A NaN, whatever its payload was, is written as the one pattern 0x7ff8000000000000.
impl From<DataPoint> for Stored {
    ghost from_gives = { λ p s. s ≡ to_stored p };

    fn from(point: DataPoint) -> Stored {
        let DataPoint { time, value } = point;
        let bits = f64_to_bits_with_nan(value);
        Stored { time, bits }
    }
}

// The point with the value that the bits stand for. Any pattern of a NaN gives a NaN.
impl From<Stored> for DataPoint {
    ghost from_gives = { λ s p. p ≡ to_point s };

    fn from(stored: Stored) -> DataPoint {
        let Stored { time, bits } = stored;
        let value = f64_from_bits_with_nan(bits);
        DataPoint { time, value }
    }
}

// How many points two lists have: as many as the shorter. Times and values are two lists, as C hands them in (`include/tsz.h`).
pub fn points_in(times: &[u64], values: &[u64]) -> usize
    ensures { result ≡ min (length times.now) (length values.now) }
{
    times.len().min(values.len())
}
