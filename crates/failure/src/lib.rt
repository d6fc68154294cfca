// What a program says of a read or a write that failed.

#![tactic(auto)]

use std::fmt::InlineText;
use std::io;

// More than any of the system's words for an error has, with the number behind them.
const LONGEST: usize = 80;

// The system's words for an error, out of what std shows of it: behind them that has the error's number.
fn words(shown: &str) -> &str {
    match shown.split_once(" (os error ") {
        Some((words, _)) => words,
        None => shown,
    }
}

// Writes a line to standard error: what failed, as the caller names it, a colon and the system's words for why. Where that fails too, there is no
// place left to say it.
pub fn report(rt: &impl Eprint, what: &str, why: io::Error) {
    let shown = InlineText::<LONGEST>::of(why);
    let words = words(shown.as_str());
    let _ = eprintln!(rt; "{what}: {words}");
}
