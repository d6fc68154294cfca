// Bytes read two fields at a time, each pair by one reader that holds them.

use lent::held_reader::{first_bits, read_two};
use shown::{Hex, Told};
use std::io::{self, Stdout};
use stream::BitPos;

// "at PLACE, M and N bits: NUMBER, NUMBER", and the place after both.
fn shown_two(out: Stdout, bytes: &[u8], place: BitPos, m: u32, n: u32) -> io::Result<BitPos> {
    let two = read_two(bytes, place, m, n);
    let first = Told(two.first.map(Hex));
    let second = Told(two.second.map(Hex));
    println!(out; "at {}, {m} and {n} bits: {first}, {second}", place.get())?;
    Ok(two.at)
}

// Fields of these widths, two by two, one behind the other. Answers the place behind them.
fn shown_all(out: Stdout, bytes: &[u8], widths: &[(u32, u32)]) -> io::Result<BitPos> {
    let mut place = BitPos::new(0);
    for (m, n) in widths {
        place = shown_two(out, bytes, place, *m, *n)?;
    }
    Ok(place)
}

// The fields of M6 as document 01 writes them, then past them.
fn shown_m6(out: Stdout, bytes: &[u8]) -> io::Result<()> {
    // the start; the first point; a new window; the window again, twice; the marker; what is left of the last byte
    let widths = [
        (64, 1),
        (14, 64),
        (1, 2),
        (6, 6),
        (10, 1),
        (2, 10),
        (1, 2),
        (10, 4),
        (32, 2),
    ];
    let behind = shown_all(out, bytes, &widths)?;
    // a field that is not there, and a place behind 29 bytes
    shown_two(out, bytes, behind, 1, 0)?;
    shown_two(out, bytes, BitPos::new(233), 0, 1)?;
    Ok(())
}

// The bytes in use, of which there are n, and the dirty ones behind them.
pub(super) fn shown(out: Stdout, buf: &[u8], n: usize) -> io::Result<()> {
    // always so; the test shows that the slices lie in the buffer
    if n <= buf.len() && 8 <= n {
        let first = first_bits(&buf[8..n], 64);
        println!(out; "64 bits behind the start: {}", Told(first.map(Hex)))?;
        shown_m6(out, &buf[..n])?;
        shown_two(out, buf, BitPos::new(232), 8, 16)?;
    }
    Ok(())
}
