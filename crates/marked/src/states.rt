// Calls on a state that is closed, on a buffer of another length, and on one without room; and streams cut short.

use super::calls::{Decoder, Encoder, HALF, ONE, cut, encoded_on};
use super::say::say_buffer;
use std::io::{self, Stdout};

// Refused 12 on what a refused opening returned.
pub(super) fn never_opened(out: Stdout) -> io::Result<()> {
    let mut buf = [0xff; 12];
    let mut e = Encoder::open(out, "too few bytes", 7, &mut buf)?;
    e.offer(&mut buf, 10, ONE)?;
    e.close(&mut buf)?;
    say_buffer(out, &buf, 0)
}

// Refused 12 on what was closed, also on another buffer, where 13 would follow.
pub(super) fn closed_before(out: Stdout) -> io::Result<()> {
    let mut buf = [0xff; 28];
    let mut other = [0xff; 30];
    let mut e = Encoder::open(out, "closed", 0, &mut buf)?;
    e.offer(&mut buf, 10, 0)?;
    e.close(&mut buf)?;
    e.offer(&mut buf, 20, ONE)?;
    e.close(&mut buf)?;
    e.offer(&mut other, 20, ONE)?;
    e.close(&mut other)?;
    say_buffer(out, &buf, 23)?;
    say_buffer(out, &other, 0)
}

// Refused 13, also where 2 would follow; then the series goes on.
pub(super) fn other_length(out: Stdout) -> io::Result<()> {
    let mut buf = [0xff; 28];
    let mut shorter = [0xff; 27];
    let mut longer = [0xff; 29];
    let mut e = Encoder::open(out, "another length", 5, &mut buf)?;
    e.offer(&mut shorter, 15, 0)?;
    e.offer(&mut shorter, 4, 0)?;
    e.close(&mut longer)?;
    say_buffer(out, &shorter, 0)?;
    say_buffer(out, &longer, 0)?;
    e.offer(&mut buf, 15, 0)?;
    e.finish(&mut buf)
}

// Refused 1, after which closing has its room all the same.
pub(super) fn small_buffers(out: Stdout) -> io::Result<()> {
    let mut least = [0xff; 13];
    let mut short = [0xff; 22];
    let mut one = [0xff; 23];
    let mut full = [0xff; 26];
    let mut all_but = [0xff; 27];
    // 3 comes before 1, and so do 2 and 4
    encoded_on(out, &mut least, "13 bytes", 0, &[(10, 0), (16_384, 0)])?;
    encoded_on(out, &mut short, "22 bytes", 0, &[(10, 0)])?;
    encoded_on(
        out,
        &mut one,
        "23 bytes",
        0,
        &[(10, 0), (20, ONE), (9, ONE), (4_294_967_316, ONE)],
    )?;
    // 208 bits, then two more; and M5's 217 bits, one more than there are
    encoded_on(
        out,
        &mut full,
        "26 bytes",
        0,
        &[(10, 0), (20, ONE), (30, ONE), (40, ONE), (50, ONE)],
    )?;
    encoded_on(
        out,
        &mut all_but,
        "27 bytes",
        0,
        &[(10, 0), (20, ONE), (30, 0)],
    )
}

// A decoder answers 13 on a buffer of another length, and goes on; once it has ended, it repeats its answer on any.
fn steps_on(out: Stdout, right: &[u8], shorter: &[u8], longer: &[u8]) -> io::Result<()> {
    let mut d = Decoder::open(out, right)?;
    d.step(shorter)?;
    d.step(right)?;
    d.step(longer)?;
    d.step(right)?;
    d.step(longer)?;
    Ok(())
}

pub(super) fn decoder_on_others(out: Stdout) -> io::Result<()> {
    let mut buf = [0xff; 23];
    let shorter = [0xff; 22];
    let longer = [0xff; 24];
    let mut e = Encoder::open(out, "decoded on others", 0, &mut buf)?;
    e.offer(&mut buf, 10, 0)?;
    e.close(&mut buf)?;
    steps_on(out, &buf, &shorter, &longer)
}

// 6 without the whole start; then the points that are wholly there, and 7 without the whole marker.
pub(super) fn cuts(out: Stdout) -> io::Result<()> {
    cut(out, "M1 cut", 0, &[])?;
    cut(out, "M2 cut", 0, &[(10, 0)])?;
    cut(out, "M6 cut", 0, &[(10, 0), (20, ONE), (30, HALF), (40, 0)])
}
