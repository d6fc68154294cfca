// Streams bit by bit, most of which no encoder writes. In their digits a blank parts fields, and E stands for the end's marker.

use super::calls::decoded;
use super::say::say_buffer;
use encode::StdEncoder;
use std::io::{self, Stdout};
use stream::{Bit, BufferedWriter, ByteCount};

fn with_digit(w: BufferedWriter, buf: &mut [u8], digit: u8) -> BufferedWriter {
    match digit {
        b'0' => w.write_bit(buf, Bit::Zero).writer,
        b'1' => w.write_bit(buf, Bit::One).writer,
        b'E' => {
            let (marker, len) = (StdEncoder::END_MARKER, StdEncoder::END_MARKER_LEN);
            w.write_bits(buf, marker, len).writer
        }
        _ => w,
    }
}

fn with_digits(w: BufferedWriter, buf: &mut [u8], digits: &str) -> BufferedWriter {
    digits.bytes().fold(w, |w, digit| with_digit(w, buf, digit))
}

fn with_start(out: Stdout, buf: &mut [u8], start: u64) -> io::Result<BufferedWriter> {
    print!(out; "start {start}")?;
    Ok(BufferedWriter::new().write_bits(buf, start, 64).writer)
}

// The last digits of a stream, then its bytes and what they are decoded to.
fn ended_by(out: Stdout, w: BufferedWriter, buf: &mut [u8], digits: &str) -> io::Result<()> {
    println!(out; ", then {digits}")?;
    let n = ByteCount::from(with_digits(w, buf, digits).position()).get();
    say_buffer(out, buf, n)?;
    decoded(out, buf, n)
}

fn after_start(out: Stdout, start: u64, digits: &str) -> io::Result<()> {
    let mut buf = [0xff; 48];
    let w = with_start(out, &mut buf, start)?;
    ended_by(out, w, &mut buf, digits)
}

// Behind a first point: 10 after the start, 0.0.
fn after_point(out: Stdout, start: u64, digits: &str) -> io::Result<()> {
    let mut buf = [0xff; 48];
    let w = with_start(out, &mut buf, start)?;
    print!(out; ", a point")?;
    let timed = with_digits(w, &mut buf, "0 00000000001010");
    let valued = timed.write_bits(&mut buf, 0, 64).writer;
    ended_by(out, valued, &mut buf, digits)
}

pub(super) fn windows(out: Stdout) -> io::Result<()> {
    // refused 9 before the digits, which are missing; then the widest window and the narrowest
    after_point(out, 0, "0 11 000001 111111")?;
    after_point(out, 0, "0 11 111111 000001")?;
    after_point(
        out,
        0,
        "0 11 000000 111111 1000000000000000000000000000000000000000000000000000000000000001 E",
    )?;
    after_point(out, 0, "0 11 111111 000000 1 E")?;
    // reuse before any opening
    after_point(
        out,
        0,
        "0 10 1000000000000000000000000000000000000000000000000000000000000001 E",
    )?;
    // a zero xor in digits, then a xor for which the window is loose
    after_point(out, 0, "0 11 000010 001001 0000000000 0 10 0000100000 E")
}

pub(super) fn times(out: Stdout) -> io::Result<()> {
    // down to a delta of 0; below it, refused 10 before the value, which is missing
    after_point(out, 0, "10 1110110 0 E")?;
    after_point(out, 0, "10 1110101")?;
    // up to the last time there is; past it, refused 11 before the value
    after_point(out, u64::MAX - 20, "0 0 E")?;
    after_point(out, u64::MAX - 20, "10 0000001")?;
    after_start(out, u64::MAX, "0 00000000000001")?;
    // the highest dod and the lowest
    after_point(
        out,
        0,
        "1111 10000000000000000000000000000000 0 1111 10000000000000000000000000000001 0 E",
    )?;
    // rows that are longer than needed
    after_point(
        out,
        0,
        "10 0000000 0 110 000000000 0 1110 000000000000 0 1111 00000000000000000000000000000001 0 E",
    )
}

pub(super) fn ends(out: Stdout) -> io::Result<()> {
    // all of the marker but its last bit
    after_point(out, 0, "0 0 0 0 0 0 1111 0000000000000000000000000000000")?;
    // refused 8; refused 7 where 36 bits are not there
    after_start(out, 0, "1111 00000000000000000000000000000001")?;
    after_start(out, 0, "1000 00000000000000000000000000000000")?;
    after_start(out, 0, "1111 0000000000000000000000000001")?;
    // what follows the end is of no account
    after_start(out, 0, "E 1111 11111111")
}

// Refused 7 at each kind of field. The digits fill their last byte, so that no zero stands in for a missing bit.
pub(super) fn cuts(out: Stdout) -> io::Result<()> {
    after_start(out, 0, "0 0000000")?;
    after_start(out, 0, "0 00000000001010 0")?;
    after_point(out, 0, "1")?;
    after_point(out, 0, "110 000000")?;
    after_point(out, 0, "0")?;
    after_point(out, 0, "1110 000000000001 1")?;
    // inside the leading zeros, behind them, and inside the number of digits, which would be refused 9 however it went on
    after_point(out, 0, "110 000000001 11 000")?;
    after_point(out, 0, "0 11 000010")?;
    after_point(out, 0, "1110 000000000001 11 111111 1")?;
    after_point(out, 0, "0 11 000010 001010 1111111111")
}
