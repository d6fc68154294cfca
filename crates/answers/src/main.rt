// Answers cases: reads them from standard input, one to a line, and writes a line with the port's answer to each. oracle/rust/driver.rs says how both
// are written, and does the same for the Rust crate; oracle/run compares the two.
//
// A case may stand with the answer that it must have, as oracle/record.py writes the Rust's answers down: `CASE = ANSWER`. Then an answer is written only
// if it is another, and behind the last line stands how many were as recorded. A line `CASE ~ ANSWER` is the same to this program: it ends in
// refusal 9, 10 or 11, which the Rust has not.

#![tactic(auto)]

mod case;
mod decoding;
mod encoding;
mod lines;
mod reading;
mod record;
mod text;
mod words;
mod writing;

use case::Fault;
use lines::Lines;
use record::Count;
use std::io::{self, Stdin, Stdout};
use text::Text;

// More bytes than a line's output has: 6,143 bytes hold fewer than 24,600 points, of at most 38 bytes each.
const OUTPUT: usize = 983_040;

// A page for output: that of one line always fits behind 65,536 bytes.
type Page = Text<1_048_576>;

// Answers every line of the input. A loop has to end, and nothing says that an input does: it takes as many turns as no run uses up.
fn answer_all(stdin: Stdin, stdout: Stdout) -> io::Result<()> {
    let mut lines = Lines::new(stdin);
    let mut page = Page::new();
    // to lend; it starts dirty, so that a byte that a case did not write shows
    let mut buf = [0xff; 65_536];
    let mut count = Count::default();
    for _ in 0..u64::MAX {
        page.make_room(OUTPUT, stdout)?;
        match lines.next_line()? {
            None => break,
            Some(Ok(line)) => count.put_line(line, &mut buf, &mut page),
            // a line that is too long is no case
            Some(Err(_)) => println!(page; "{}", Fault::NoCase),
        }
    }
    count.put(&mut page);
    stdout.write_all(page.as_slice())
}

fn main(rt: HostRuntime) -> io::Result<()> {
    answer_all(rt.stdin(), rt.stdout())
}
