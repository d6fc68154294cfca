// A page of output: lines gather in it, and it goes to standard output when there is no room for one more. What is written is tested and not
// proved, so the contracts say only where a page ends. (The text of `answers` has as much in common with it as a size and a copy: a full page refuses a
// line whole, a full text takes what fits. One type for both would have public calls, and document 01 wants of those that they state the text too.)

ghost use Rattle.std.specs.Prelude.{◌≡◌, ◌≤◌, ◌<◌, ◌+◌, ◌↔◌, length, IsOk, OnOk, OnErr, IsTrue};
ghost use Rattle.unpack.specs.declared.page.TheConstants.{PAGE};

use std::{fmt, io};

// How many bytes of output are written at once.
const PAGE: usize = 65_536;

// More than any line has: 20 digits, a comma, 16 digits and the line's end.
const LINE: usize = 40;

// The bytes, of which the first `used` wait to be written.
#[derive(Drop)]
pub(super) struct Page {
    bytes: [u8; PAGE],
    used: usize,
    ghost within: { used ≤ PAGE },
}

impl Page {
    pub(super) fn new() -> Page
        ensures { result.used ≡ 0 }
    {
        Page {
            bytes: [0; PAGE],
            used: 0,
        }
    }

    // Whether a line fits behind what waits.
    fn has_room(&self) -> bool
        ensures { IsTrue result ↔ (self.now.used + LINE ≤ PAGE) }
    {
        LINE <= PAGE - self.used
    }

    // Makes room for a line. A full page is written first; only that can fail.
    pub(super) fn make_room(&mut self, rt: &impl Print) -> io::Result<()>
        ensures room { OnOk result (self.new.used + LINE ≤ PAGE) }
        ensures full { OnErr result (PAGE < self.old.used + LINE) }
        ensures same { OnErr result (self.new ≡ self.old) }
    {
        if self.has_room() {
            return Ok(());
        }
        self.write_out(rt)
    }

    // Writes what waits, so that the page is empty.
    pub(super) fn write_out(&mut self, rt: &impl Print) -> io::Result<()>
        ensures empty { OnOk result (self.new.used ≡ 0) }
        ensures same { OnErr result (self.new ≡ self.old) }
    {
        rt.write_all(&self.bytes[..self.used])?;
        self.used = 0;
        Ok(())
    }
}

impl fmt::Write for Page {
    // A text for which there is no room is refused whole.
    fn write_str(&mut self, text: &str) -> fmt::Result
        ensures fits { IsOk result ↔ (self.old.used + length text.now ≤ PAGE) }
        ensures more { OnOk result (self.new.used ≡ self.old.used + length text.now) }
        ensures same { OnErr result (self.new ≡ self.old) }
    {
        if PAGE - self.used < text.len() {
            return Err(fmt::Error);
        }
        let end = self.used + text.len();
        self.bytes[self.used..end].copy_from_slice(text.as_bytes());
        self.used = end;
        Ok(())
    }
}
