// A line of the input, byte by byte: a time in decimal digits, a comma, and the 64 bits of a value in 16 hex digits. Nothing of a line is kept but
// the numbers, so its length costs no room. The first byte that is wrong ends it.

use point::Stored;
use std::fmt;

// More than a line needs. A longer one is no point, so that one without an end is not read for ever.
const LONGEST: u32 = 1000;

// How many digits a value has.
const DIGITS: u32 = 16;

// What is wrong with a line.
#[derive(Clone, Copy)]
pub(super) enum Fault {
    Empty,
    NoDigit,
    NoTime,
    Above,
    NoComma,
    NoValue,
    Return,
    TooLong,
}

impl fmt::Display for Fault {
    fn fmt<W: fmt::Write>(&self, f: &mut fmt::Formatter<W>) -> fmt::Result {
        f.write_str(match self {
            Fault::Empty => "the line is empty",
            Fault::NoDigit => "a byte before the comma is no digit",
            Fault::NoTime => "no time before the comma",
            Fault::Above => "the time is above 18446744073709551615",
            Fault::NoComma => "no comma",
            Fault::NoValue => "the value is not 16 hex digits",
            Fault::Return => "a carriage return that no line feed follows",
            Fault::TooLong => "too long",
        })
    }
}

// What was read of a line, and no carriage return.
#[derive(Clone, Copy)]
pub(super) enum Part {
    Nothing,
    // digits of the time, as a number
    Time(u64),
    // the time, the comma, and so many digits of the value, as the point's bits
    Value { point: Stored, digits: u32 },
}

// n with b behind it, if b is a digit and the number is below 2^64.
pub(super) fn with_decimal(n: u64, b: u8) -> Result<u64, Fault> {
    let d = char::from(b).to_digit(10).ok_or(Fault::NoDigit)?;
    let tens = n.checked_mul(10).ok_or(Fault::Above)?;
    tens.checked_add(u64::from(d)).ok_or(Fault::Above)
}

// The bits with a hex digit of either case behind them.
fn with_hex(bits: u64, b: u8) -> Result<u64, Fault> {
    let d = char::from(b).to_digit(16).ok_or(Fault::NoValue)?;
    Ok((bits << 4) | u64::from(d))
}

impl Part {
    // With a byte more, which is no part of the line's end.
    fn with(self, b: u8) -> Result<Part, Fault> {
        match self {
            Part::Nothing if b == b',' => Err(Fault::NoTime),
            Part::Nothing => Ok(Part::Time(with_decimal(0, b)?)),
            Part::Time(time) if b == b',' => {
                let point = Stored { time, bits: 0 };
                Ok(Part::Value { point, digits: 0 })
            }
            Part::Time(time) => Ok(Part::Time(with_decimal(time, b)?)),
            Part::Value { digits, .. } if DIGITS <= digits => Err(Fault::NoValue),
            Part::Value { point, digits } => {
                let bits = with_hex(point.bits, b)?;
                let point = Stored { bits, ..point };
                let digits = digits + 1;
                Ok(Part::Value { point, digits })
            }
        }
    }

    // The point that it is.
    fn whole(self) -> Result<Stored, Fault> {
        match self {
            Part::Nothing => Err(Fault::Empty),
            Part::Time(_) => Err(Fault::NoComma),
            Part::Value { point, digits } if digits == DIGITS => Ok(point),
            Part::Value { .. } => Err(Fault::NoValue),
        }
    }
}

// A line up to where it was read.
#[derive(Clone, Copy)]
pub(super) enum Line {
    // so many bytes, and what they are
    Open { len: u32, part: Part },
    // behind a carriage return, which only a line feed may follow: the point before it, or what is wrong with the line
    Returned(Result<Stored, Fault>),
}

impl Line {
    // Before the first byte.
    pub(super) fn new() -> Line {
        Line::Open {
            len: 0,
            part: Part::Nothing,
        }
    }

    // The line with a byte more, which is no line feed.
    pub(super) fn with(self, b: u8) -> Result<Line, Fault> {
        match self {
            Line::Returned(_) => Err(Fault::Return),
            // perhaps a part of the line's end
            Line::Open { part, .. } if b == b'\r' => Ok(Line::Returned(part.whole())),
            Line::Open { len, .. } if LONGEST <= len => Err(Fault::TooLong),
            Line::Open { len, part } => {
                let len = len + 1;
                let part = part.with(b)?;
                Ok(Line::Open { len, part })
            }
        }
    }

    // The line at its line feed.
    pub(super) fn end(self) -> Result<Stored, Fault> {
        match self {
            Line::Open { part, .. } => part.whole(),
            Line::Returned(whole) => whole,
        }
    }

    // The line at the end of the input, where its line feed may be missing; but not behind a carriage return, where it may have been torn off.
    pub(super) fn last(self) -> Result<Stored, Fault> {
        match self {
            Line::Open { part, .. } => part.whole(),
            Line::Returned(_) => Err(Fault::Return),
        }
    }

    // Whether no byte of it was read, so that at the end of the input there is no such line.
    pub(super) fn is_blank(self) -> bool {
        matches!(
            self,
            Line::Open {
                part: Part::Nothing,
                ..
            }
        )
    }
}
