// A test: points of every kind of value, each with each: whether they are alike, how they are ordered, and what comes back of their bits. What
// it must print was worked out by other code (oracle/alike.py).

#![tactic(auto)]

use point::{DataPoint, Stored};
use std::cmp::Ordering;
use std::io::{self, Stdout};

// Zeros, the smallest and the largest numbers, ones, a third, infinities, NaNs with and without sign and payload.
const PATTERNS: [u64; 16] = [
    0x0000_0000_0000_0000,
    0x8000_0000_0000_0000,
    0x0000_0000_0000_0001,
    0x800f_ffff_ffff_ffff,
    0x0010_0000_0000_0000,
    0x7fef_ffff_ffff_ffff,
    0x3ff0_0000_0000_0000,
    0xbff0_0000_0000_0000,
    0x3ff0_0000_0000_0001,
    0x3fd5_5555_5555_5555,
    0x7ff0_0000_0000_0000,
    0xfff0_0000_0000_0000,
    0x7ff0_0000_0000_0001,
    0x7ff8_0000_0000_0000,
    0xfff8_0000_0000_0000,
    0xffff_ffff_ffff_ffff,
];

// A point of these bits beside another: "=" if they are alike.
fn alike(a: DataPoint, b: DataPoint) -> char {
    if a == b { '=' } else { '.' }
}

fn point_of(time: u64, bits: u64) -> DataPoint {
    DataPoint::from(Stored { time, bits })
}

// One value, what comes back of its bits, and how it stands to all of them, at the same time and at another.
fn row(out: Stdout, bits: u64) -> io::Result<()> {
    let point = point_of(7, bits);
    let Stored { time, bits: back } = Stored::from(point);
    print!(out; "{bits:016x} {back:016x} {time} ")?;
    for other in PATTERNS {
        print!(out; "{}", alike(point, point_of(7, other)))?;
    }
    println!(out; " {}", alike(point, point_of(8, bits)))
}

// The times say how they stand, and the values say the opposite.
fn order(t: u64, u: u64) -> char {
    match DataPoint::new(t, 2.0).cmp(DataPoint::new(u, 1.0)) {
        Ordering::Less => '<',
        Ordering::Equal => '=',
        Ordering::Greater => '>',
    }
}

fn main(rt: HostRuntime) -> io::Result<()> {
    let out = rt.stdout();
    for bits in PATTERNS {
        row(out, bits)?;
    }
    for (t, u) in [(1, 2), (2, 2), (3, 2), (0, u64::MAX), (u64::MAX, 0)] {
        print!(out; "{}", order(t, u))?;
    }
    println!(out)
}
