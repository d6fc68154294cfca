// A case, by the letter of its first word.

use super::{Page, decoding, encoding, reading, writing};
use shown::Refused;
use std::fmt::{self, Display, Formatter};
use stream::Refusal;

// Why a case's answer goes no further.
#[derive(Clone, Copy)]
pub(super) enum Fault {
    NoCase,
    Refused(Refusal),
}

impl From<Refusal> for Fault {
    fn from(why: Refusal) -> Fault {
        Fault::Refused(why)
    }
}

impl Display for Fault {
    fn fmt<W: fmt::Write>(&self, f: &mut Formatter<W>) -> fmt::Result {
        match self {
            Fault::NoCase => write!(f, "line not understood"),
            Fault::Refused(why) => write!(f, "{}", Refused(*why)),
        }
    }
}

// Puts the answer to a case. What buf holds before does not matter.
pub(super) fn put_answer(case: &[u8], buf: &mut [u8], page: &mut Page) {
    let from = page.len();
    if let Err(fault) = put_answer_to(case, buf, page) {
        // what was answered before stands only before a refusal
        if matches!(fault, Fault::NoCase) {
            page.truncate(from);
        }
        print!(page; "{fault}");
    }
}

fn put_answer_to(case: &[u8], buf: &mut [u8], page: &mut Page) -> Result<(), Fault> {
    let end = case.iter().position(|b| *b == b' ');
    let (kind, words) = case.split_at(end.unwrap_or(case.len()));
    match kind {
        b"w" => writing::put_written(words, buf, page),
        b"d" => decoding::put_decoded(words, buf, page),
        b"e" => encoding::put_encoded(words, buf, page),
        b"r" => reading::put_reads(words, buf, page),
        _ => Err(Fault::NoCase),
    }
}
