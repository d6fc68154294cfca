// Why a call is refused: document 01's table.

ghost use Rattle.std.specs.Prelude.{◌≡◌, Some};
ghost use Rattle.stream.specs.Refusals.{number_of, name_of};

use std::error::Error;
use std::fmt;

// The names of the table, in its order.
#[derive(Clone, Copy, PartialEq, Eq)]
pub enum Refusal {
    NoRoom,
    TimeFalls,
    FirstDelta,
    DodRange,
    TooLong,
    NoStart,
    CutShort,
    BadEnd,
    BadWindow,
    ReadTimeFalls,
    ReadTimePasses,
    Closed,
    NoFit,
}

impl Refusal {
    // The number that the table gives it. No discriminant: an edit that gives one refusal the number of another (stream/other_digits) has to compile.
    pub fn number(self) -> u8
        ensures { result ≡ number_of self }
    {
        match self {
            Refusal::NoRoom => 1,
            Refusal::TimeFalls => 2,
            Refusal::FirstDelta => 3,
            Refusal::DodRange => 4,
            Refusal::TooLong => 5,
            Refusal::NoStart => 6,
            Refusal::CutShort => 7,
            Refusal::BadEnd => 8,
            Refusal::BadWindow => 9,
            Refusal::ReadTimeFalls => 10,
            Refusal::ReadTimePasses => 11,
            Refusal::Closed => 12,
            Refusal::NoFit => 13,
        }
    }

    // The name that the table gives it.
    pub fn name(self) -> &'static str
        ensures { result.now ≡ name_of self }
    {
        match self {
            Refusal::NoRoom => "no room",
            Refusal::TimeFalls => "time falls",
            Refusal::FirstDelta => "first delta",
            Refusal::DodRange => "dod range",
            Refusal::TooLong => "too long",
            Refusal::NoStart => "no start",
            Refusal::CutShort => "cut short",
            Refusal::BadEnd => "bad end",
            Refusal::BadWindow => "bad window",
            Refusal::ReadTimeFalls => "read time falls",
            Refusal::ReadTimePasses => "read time passes",
            Refusal::Closed => "closed",
            Refusal::NoFit => "no fit",
        }
    }
}

// Its name. Whether a write fails is the writer's to say: std's clause is silent where `fmt` answers `Err`.
impl fmt::Display for Refusal {
    ghost output = { λ r. Some (name_of r) };

    fn fmt<W: fmt::Write>(&self, f: &mut fmt::Formatter<W>) -> fmt::Result {
        f.write_str(self.name())
    }
}

// The same, since std wants it of an error. Not derived: of what a derived one writes, no clause says anything.
impl fmt::Debug for Refusal {
    ghost debug_output = { λ r. Some (name_of r) };

    fn fmt<W: fmt::Write>(&self, f: &mut fmt::Formatter<W>) -> fmt::Result {
        fmt::Display::fmt(self, f)
    }
}

impl Error for Refusal {}
