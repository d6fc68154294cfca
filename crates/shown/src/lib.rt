// What test programs print of a refusal, an answer, a point, a decoder's step and bytes: each type says by `Display` what `{}` of it writes.

#![tactic(auto)]

ghost use Rattle.std.specs.Prelude.{Some};
ghost use Rattle.shown.specs.Texts.{refused_text, told_text, hex, point_text, step_text, bytes_text};

use decode::std_decoder::Step;
use point::Stored;
use std::fmt::{self, Display, Formatter};
use stream::Refusal;

// "refused R"
#[derive(Clone, Copy)]
pub struct Refused(pub Refusal);

impl Display for Refused {
    ghost output = { λ r. Some (refused_text r.0) };

    fn fmt<W: fmt::Write>(&self, f: &mut Formatter<W>) -> fmt::Result {
        let number = self.0.number();
        write!(f, "refused {number}")
    }
}

// What a call answered, or its refusal.
#[derive(Clone, Copy)]
pub struct Told<T>(pub Result<T, Refusal>);

impl<T: Display> Display for Told<T> {
    ghost output = { λ t. told_text T.output t.0 };

    fn fmt<W: fmt::Write>(&self, f: &mut Formatter<W>) -> fmt::Result {
        match &self.0 {
            Ok(answer) => write!(f, "{answer}"),
            Err(why) => write!(f, "{}", Refused(*why)),
        }
    }
}

// A number in hex.
#[derive(Clone, Copy)]
pub struct Hex(pub u64);

impl Display for Hex {
    ghost output = { λ n. Some (hex n.0) };

    fn fmt<W: fmt::Write>(&self, f: &mut Formatter<W>) -> fmt::Result {
        let n = self.0;
        write!(f, "{n:x}")
    }
}

// Two hex digits a byte.
#[derive(Clone, Copy)]
pub struct Bytes<'a>(pub &'a [u8]);

impl Display for Bytes<'_> {
    ghost output = { λ b. Some (bytes_text b.0.now) };

    fn fmt<W: fmt::Write>(&self, f: &mut Formatter<W>) -> fmt::Result {
        for b in self.0 {
            write!(f, "{b:02x}")?;
        }
        Ok(())
    }
}

// "T V", the value as its 64 bits in hex.
#[derive(Clone, Copy)]
pub struct Point(pub Stored);

impl Display for Point {
    ghost output = { λ p. Some (point_text p.0) };

    fn fmt<W: fmt::Write>(&self, f: &mut Formatter<W>) -> fmt::Result {
        let Stored { time, bits } = self.0;
        write!(f, "{time} {bits:016x}")
    }
}

// What a decoder's step answered, and the place behind it.
#[derive(Clone, Copy)]
pub struct Stepped(pub Step);

impl Display for Stepped {
    ghost output = { λ s. Some (step_text s.0) };

    fn fmt<W: fmt::Write>(&self, f: &mut Formatter<W>) -> fmt::Result {
        match self.0 {
            Step::Point(p, at) => write!(f, "point {} at {}", Point(p), at.get()),
            Step::End(at) => write!(f, "end at {}", at.get()),
            Step::Refused(why) => write!(f, "{}", Refused(why)),
        }
    }
}
