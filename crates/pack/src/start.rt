// The program's only word: where the series starts.

use super::lines::with_decimal;
use std::env::FillError;
use std::rt::Env;

// The number that a text is, in decimal digits and nothing else.
fn number_of(text: &[u8]) -> Option<u64> {
    text.iter().try_fold(0, |n, b| with_decimal(n, *b)).ok()
}

// Whether the program was started with a second word. It is not read: one for which there is no room is there too. (Not one function with unpack's
// `has_word`, for the reason given there.)
fn has_second(env: &impl Env) -> bool {
    !matches!(env.arg(2, &mut []), Err(FillError::NotPresent))
}

// The number that the program was started with, if it was started with one word and that is a number.
pub(super) fn start_word(env: &impl Env) -> Option<u64> {
    let mut word = [0u8; 4096];
    if has_second(env) {
        return None;
    }
    match env.arg(1, &mut word) {
        Ok(n) if 0 < n => number_of(&word[..n]),
        // none, an empty one, or one that is longer than the buffer
        _ => None,
    }
}
