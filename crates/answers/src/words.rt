// The words of a line, each behind a blank. A word is read from its front: what is read of it comes with the rest of it. A call is made as soon as its
// word's front is read, so its refusal is told even where the word goes on.

ghost use Rattle.std.specs.Prelude.{◌≤◌};

use super::case::Fault;
use std::ops::RangeInclusive;
use std::str;

// A word that goes on behind what was read of it is none.
pub(super) fn ended(rest: &[u8]) -> Result<(), Fault> {
    if rest.is_empty() {
        Ok(())
    } else {
        Err(Fault::NoCase)
    }
}

fn is_digit(b: u8) -> bool {
    matches!(b, b'0'..=b'9' | b'a'..=b'f')
}

// The digits at a word's front, hex ones in lower case, whatever radix they are read in.
fn digits_of(word: &[u8]) -> (&[u8], &[u8]) {
    let n = word.iter().position(|b| !is_digit(*b));
    word.split_at(n.unwrap_or(word.len()))
}

// The number in the digits at a word's front, if there are so many, each is one of the radix, and it is below 2^64.
fn number_of(word: &[u8], radix: u32, lengths: RangeInclusive<usize>) -> Option<(u64, &[u8])>
    requires two_digits { 2 ≤ radix }
    requires all_letters { radix ≤ 36 }
{
    let (digits, rest) = digits_of(word);
    if !lengths.contains(&digits.len()) {
        return None;
    }
    let text = str::from_utf8(digits).ok()?;
    let n = u64::from_str_radix(text, radix).ok()?;
    Some((n, rest))
}

// Of at most 1,001 digits, as this program always took them; zeros in front count.
pub(super) fn decimal_of(word: &[u8]) -> Option<(u64, &[u8])> {
    number_of(word, 10, 1..=1001)
}

pub(super) fn hex_of(word: &[u8], lengths: RangeInclusive<usize>) -> Option<(u64, &[u8])> {
    number_of(word, 16, lengths)
}

// The bytes that a whole word stands for, two digits each or `-` for none, put at buf's start.
pub(super) fn bytes_of<'a>(word: &[u8], buf: &'a mut [u8]) -> Option<&'a [u8]> {
    if word == b"-".as_slice() {
        return Some(&[]);
    }
    // digits are in lower case
    if word.is_empty() || word.iter().any(u8::is_ascii_uppercase) {
        return None;
    }
    let bytes = buf.get_mut(..word.len() / 2)?;
    hex::decode_to_slice(word, bytes).ok()?;
    Some(bytes)
}
