// What the program says on standard error: why there is no stream, and what to do about it. Where standard error fails too, there is no place left
// to say it.

use super::packing::Stopped;
use std::{fmt, io};
use stream::Refusal;

// "refused N (NAME)"
#[derive(Clone, Copy)]
struct Refused(Refusal);

impl fmt::Display for Refused {
    fn fmt<W: fmt::Write>(&self, f: &mut fmt::Formatter<W>) -> fmt::Result {
        write!(f, "refused {} ({})", self.0.number(), self.0)
    }
}

// For a point that can't stand behind those before it.
const SPLIT: &str =
    "pack the lines before it as one stream and those from it on as another, with a START at most 16383 below its time";

// What may be done about a point that the encoder refused.
#[derive(Clone, Copy)]
struct Advice(Refusal);

impl fmt::Display for Advice {
    fn fmt<W: fmt::Write>(&self, f: &mut fmt::Formatter<W>) -> fmt::Result {
        match self.0 {
            Refusal::NoRoom => write!(
                f,
                "there is no room in 65536 bytes for this point behind those before it; {SPLIT}"
            ),
            Refusal::TimeFalls => f.write_str(
                "a time may not be below the one before it, nor the first below START",
            ),
            Refusal::FirstDelta => f.write_str(
                "the first time may be at most 16383 above START; take a START nearer to it",
            ),
            Refusal::DodRange => write!(
                f,
                "from one step between times to the next the change may be -2147483647 to 2147483648; {SPLIT}"
            ),
            // 5 to 11 are no encoder's; 12 and 13 need another state or another buffer
            _ => f.write_str("this is a fault of the program"),
        }
    }
}

// Not all of the input was packed; number is that of the line that was read.
pub(super) fn stopped(rt: &impl Eprint, number: u64, why: Stopped) {
    let _ = match why {
        Stopped::Unread(why) => {
            failure::report(rt, "pack: standard input", why);
            eprintln!(rt; "no stream was written")
        }
        Stopped::NoPoint(fault) => eprintln!(rt;
            "line {number}: no point: {fault}\nno stream was written; a line is TIME,VALUE: decimal digits, a comma, the value's bits in 16 hex digits"
        ),
        Stopped::Refused(why) => eprintln!(rt;
            "line {number}: {}\nno stream was written; {}",
            Refused(why),
            Advice(why)
        ),
    };
}

// The encoder refused to close, which it does not if it was opened.
pub(super) fn not_closed(rt: &impl Eprint, why: Refusal) {
    let _ = eprintln!(rt;
        "close: {}\nno stream was written; this is a fault of the program",
        Refused(why)
    );
}

// A write failed.
pub(super) fn unwritten(rt: &impl Eprint, why: io::Error) {
    failure::report(rt, "pack: standard output", why);
    let _ = eprintln!(rt; "what was written of the stream is no whole stream");
}

pub(super) fn usage(rt: &impl Eprint) {
    let _ = eprintln!(rt;
        "usage: pack START < points > stream; START is a number from 0 to 18446744073709551615, a point is a line TIME,VALUE"
    );
}
