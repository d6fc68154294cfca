// Text that gathers in fixed memory, since no crate here has a heap for a `String` or a `Vec`; std's `InlineText` takes a `str` alone, and lines of the input
// are bytes that may be none. What is written is tested and not proved, so the contracts say only how much there is.

ghost use Rattle.std.specs.Prelude.{◌≤◌, ◌<◌, ◌+◌, ◌↔◌, ◌≡◌, min, length, IsTrue, IsOk, IfErr, OnOk};

use std::fmt::{self, Display, Write};
use std::io::{self, Stdout};

// Room for N bytes, of which the first few stand.
#[derive(Drop)]
pub(super) struct Text<const N: usize> {
    bytes: [u8; N],
    used: usize,
    ghost within: { used ≤ N },
}

// There was not enough room for all of what was to be put.
#[derive(Clone, Copy)]
pub(super) struct NoRoom;

impl<const N: usize> Text<N> {
    pub(super) fn new() -> Text<N>
        ensures { result.used ≡ 0 }
    {
        Text {
            bytes: [0; N],
            used: 0,
        }
    }

    pub(super) fn as_slice(&self) -> &[u8]
        ensures { length result.now ≡ self.now.used }
    {
        let all = &self.bytes[..];
        &all[..self.used]
    }

    pub(super) fn len(&self) -> usize
        ensures { result ≡ self.now.used }
    {
        self.used
    }

    // Only the first bytes stay, as many as there are of so many.
    pub(super) fn truncate(&mut self, len: usize)
        ensures { self.new.used ≡ min self.old.used len }
    {
        self.used = self.used.min(len);
    }

    // Puts bytes behind those that stand, as many of them as there is room for.
    pub(super) fn put(&mut self, more: &[u8])
        ensures { self.new.used ≡ min (self.old.used + length more.now) N }
    {
        let all = &mut self.bytes[..];
        let n = more.len().min(all.len() - self.used);
        let end = self.used + n;
        all[self.used..end].copy_from_slice(&more[..n]);
        self.used = end;
    }

    // The same, and says so if there was not enough.
    pub(super) fn try_put(&mut self, more: &[u8]) -> Result<(), NoRoom>
        ensures { IsOk result ↔ (self.old.used + length more.now ≤ N) }
    {
        let fits = self.has_room(more.len());
        self.put(more);
        if fits { Ok(()) } else { Err(NoRoom) }
    }

    // Puts two digits a byte, `-` for none, if there is room for all of them.
    pub(super) fn put_hex(&mut self, bytes: &[u8]) {
        if bytes.is_empty() {
            return self.put(b"-");
        }
        let all = &mut self.bytes[..];
        let (_, free) = all.split_at_mut(self.used);
        if let Some(digits) = free.get_mut(..2 * bytes.len()) {
            if hex::encode_to_slice(bytes, digits).is_ok() {
                self.used += 2 * bytes.len();
            }
        }
    }

    // What `print!` calls.
    pub(super) fn print<D: Display + Drop>(&mut self, text: D) {
        // `write_str` takes any text
        let _ = self.write(text);
    }

    // What `println!` calls.
    pub(super) fn println<D: Display + Drop>(&mut self, text: D) {
        let _ = self.writeln(text);
    }

    // Whether so many bytes more fit.
    pub(super) fn has_room(&self, n: usize) -> bool
        ensures { IsTrue result ↔ (self.now.used + n ≤ N) }
    {
        n <= N - self.used
    }

    // Makes room for so many bytes. Text that leaves too little of it is written first; only that can fail.
    pub(super) fn make_room(&mut self, n: usize, stdout: Stdout) -> io::Result<()>
        ensures room { n ≤ N → OnOk result (self.new.used + n ≤ N) }
        ensures full { IfErr result (λ _. N < self.old.used + n) }
    {
        if !self.has_room(n) {
            stdout.write_all(self.as_slice())?;
            self.truncate(0);
        }
        Ok(())
    }
}

impl<const N: usize> Write for Text<N> {
    fn write_str(&mut self, s: &str) -> fmt::Result {
        self.put(s.as_bytes());
        Ok(())
    }
}
