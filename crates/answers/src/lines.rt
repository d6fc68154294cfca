// Standard input, line by line. It is read in pieces and never held whole. Std's readers of lines put them on a heap, which no crate here has.

ghost use Rattle.std.specs.Prelude.{◌≤◌};

use super::text::{NoRoom, Text};
use std::io::{self, Read, Stdin};

// The input, and what was read of it and not yet taken: piece[at..end].
#[derive(Drop)]
struct Source {
    input: Stdin,
    piece: [u8; 65_536],
    at: usize,
    end: usize,
    ghost ordered: { at ≤ end },
    ghost within: { end ≤ 65536 },
}

// The lines of the input. 12,288 bytes are a stream of 6,143 bytes, or 646 points of the shortest kind.
#[derive(Drop)]
pub(super) struct Lines {
    source: Source,
    line: Text<12_288>,
}

impl Source {
    // Reads a new piece, if nothing is left of the last one.
    fn fill(&mut self) -> io::Result<()> {
        if self.at == self.end {
            let n = self.input.read(&mut self.piece)?;
            self.at = 0;
            self.end = n;
        }
        Ok(())
    }

    fn left(&self) -> &[u8] {
        let all = &self.piece[..];
        &all[self.at..self.end]
    }

    // Takes so many bytes, or all that are left.
    fn take(&mut self, n: usize) {
        self.at = self.at.saturating_add(n).min(self.end);
    }
}

impl Lines {
    // Before the first byte.
    pub(super) fn new(input: Stdin) -> Lines {
        let source = Source {
            input,
            piece: [0; 65_536],
            at: 0,
            end: 0,
        };
        Lines {
            source,
            line: Text::new(),
        }
    }

    // The next line, without its line feed, which the last one may lack. A loop has to end, and nothing says that a line does: it takes as many turns
    // as no line uses up.
    pub(super) fn next_line(&mut self) -> io::Result<Option<Result<&[u8], NoRoom>>> {
        let Lines { source, line } = self;
        line.truncate(0);
        let mut whole = Ok(());
        for _ in 0..u64::MAX {
            source.fill()?;
            let left = source.left();
            let is_over = left.is_empty();
            let feed = left.iter().position(|b| *b == b'\n');
            let part = &left[..feed.unwrap_or(left.len())];
            whole = whole.and(line.try_put(part));
            // the line feed too
            let taken = part.len() + 1;
            source.take(taken);
            if is_over && line.len() == 0 {
                return Ok(None);
            }
            if is_over || feed.is_some() {
                return Ok(Some(whole.map(|()| line.as_slice())));
            }
        }
        Err(io::Error::other("a line does not end"))
    }
}
