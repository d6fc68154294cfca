// Series that are encoded: M1 to M10, and others that show a trap or a point refused.

use super::calls::{Encoder, HALF, ONE, encoded};
use super::say::say_buffer;
use std::io::{self, Stdout};

// M1 to M6: times 10 apart.
pub(super) fn marked_values(out: Stdout) -> io::Result<()> {
    encoded(out, "M1", 0, &[])?;
    encoded(out, "M2", 0, &[(10, 0)])?;
    encoded(out, "M3", 0, &[(10, 0), (20, 0)])?;
    encoded(out, "M4", 0, &[(10, 0), (20, ONE)])?;
    encoded(out, "M5", 0, &[(10, 0), (20, ONE), (30, 0)])?;
    // with the last xor's zeros as the window, the last point would open another
    encoded(out, "M6", 0, &[(10, 0), (20, ONE), (30, HALF), (40, 0)])
}

// M7 to M10: one value.
pub(super) fn marked_times(out: Stdout) -> io::Result<()> {
    // dods 64, 65, -63, -64 on a delta of 100
    encoded(
        out,
        "M7",
        0,
        &[(100, 0), (264, 0), (493, 0), (659, 0), (761, 0)],
    )?;
    // dods 2048, 2049, -2048
    encoded(out, "M8", 0, &[(100, 0), (2248, 0), (6445, 0), (8594, 0)])?;
    // dods 2^31, -2^31, which is refused, -(2^31 - 1)
    encoded(
        out,
        "M9",
        0,
        &[
            (100, 0),
            (2_147_483_848, 0),
            (2_147_483_948, 0),
            (2_147_483_949, 0),
        ],
    )?;
    // first deltas 16384, which is refused, 16383
    encoded(out, "M10", 1000, &[(17_384, 0), (17_383, 0)])
}

// Times that are refused among others, the ends of other rows, and the last time there is.
pub(super) fn other_times(out: Stdout) -> io::Result<()> {
    encoded(out, "time falls", 5, &[(4, 0), (10, 0), (9, ONE), (10, 0)])?;
    // a first delta of 0, then dods 0, 10, -10: each time but the third is the one before it
    encoded(out, "one time", 7, &[(7, 0), (7, ONE), (17, ONE), (17, 0)])?;
    // dods 256, 257, -255, -256, -2047 on a delta of 3000
    encoded(
        out,
        "dod rows",
        0,
        &[
            (3000, 0),
            (6256, 0),
            (9769, 0),
            (13_027, 0),
            (16_029, 0),
            (16_984, 0),
        ],
    )?;
    // dods 2^32, which would be 0 if it were cut to 32 bits, and 2^31 + 1; a delta that no signed number holds; dod 0
    encoded(
        out,
        "dod range",
        0,
        &[
            (10, 0),
            (4_294_967_316, 0),
            (2_147_483_669, 0),
            (u64::MAX, 0),
            (20, 0),
        ],
    )?;
    encoded(
        out,
        "last time",
        u64::MAX - 20,
        &[(u64::MAX - 10, 0), (u64::MAX, 0), (0, 0)],
    )
}

// Windows of 64 digits and of one, and NaNs with a payload.
pub(super) fn other_values(out: Stdout) -> io::Result<()> {
    encoded(
        out,
        "64 digits",
        0,
        &[
            (10, 0),
            (20, 0x8000_0000_0000_0001),
            (30, 0x8000_0000_0000_0000),
        ],
    )?;
    encoded(out, "one digit", 0, &[(10, 0), (20, 1), (30, 0), (40, 2)])?;
    encoded(
        out,
        "payloads",
        0,
        &[(10, 0x7ff4_dead_beef_0001), (20, 0xffff_ffff_ffff_ffff)],
    )
}

// Points with a float: NaN, -0.0, infinity.
pub(super) fn floats(out: Stdout) -> io::Result<()> {
    let mut buf = [0xff; 48];
    let zero: f64 = 0.0;
    let one: f64 = 1.0;
    let mut e = Encoder::open(out, "floats", 0, &mut buf)?;
    e.offer_float(&mut buf, 10, zero / zero)?;
    e.offer_float(&mut buf, 20, -zero)?;
    e.offer_float(&mut buf, 30, one / zero)?;
    e.finish(&mut buf)
}

// M6 from 5 on, as floats, and two points that are refused. Around the second the next point's code and the bytes are shown: the state is as before.
pub(super) fn refused_floats(out: Stdout) -> io::Result<()> {
    let mut buf = [0xff; 48];
    let mut e = Encoder::open(out, "refused floats", 5, &mut buf)?;
    e.offer_float(&mut buf, 4, 1.0)?;
    e.offer_float(&mut buf, 15, 0.0)?;
    e.offer_float(&mut buf, 25, 1.0)?;
    e.ask(35, HALF)?;
    say_buffer(out, &buf, 21)?;
    e.offer_float(&mut buf, 24, 0.5)?;
    e.ask(35, HALF)?;
    say_buffer(out, &buf, 21)?;
    e.offer_float(&mut buf, 35, 0.5)?;
    e.offer_float(&mut buf, 45, 0.0)?;
    e.finish(&mut buf)
}
