// Lines with an answer on record: `CASE = ANSWER` or `CASE ~ ANSWER`.

ghost use Rattle.std.specs.Prelude.{◌≡◌, ◌++◌};

use super::{Page, case};

// How many answers were as recorded, and how many were not.
#[derive(Clone, Copy, Default)]
pub(super) struct Count {
    kept: u64,
    other: u64,
}

// A line's case, and what is on record behind it, from the blank before the first `=` or `~` on. That is empty, if nothing is on record.
fn split(line: &[u8]) -> (&[u8], &[u8])
    ensures { result.0.now ++ result.1.now ≡ line.now }
{
    let sign = line.iter().position(|b| matches!(b, b'=' | b'~'));
    line.split_at(sign.map_or(line.len(), |i| i.saturating_sub(1)))
}

impl Count {
    // Puts the answer to a line, if it is another than is on record.
    pub(super) fn put_line(&mut self, line: &[u8], buf: &mut [u8], page: &mut Page) {
        let (case, record) = split(line);
        let from = page.len();
        case::put_answer(case, buf, page);
        if record.is_empty() {
            page.put(b"\n");
        } else if page.as_slice().get(from..) == record.get(3..) {
            page.truncate(from);
            self.kept = self.kept.saturating_add(1);
        } else {
            page.put(b" is answered, and on record is: ");
            page.put(line);
            page.put(b"\n");
            self.other = self.other.saturating_add(1);
        }
    }

    // The last lines, if any line had an answer on record.
    pub(super) fn put(self, page: &mut Page) {
        let Count { kept, other } = self;
        if kept > 0 {
            println!(page; "{kept} cases as recorded");
        }
        if other > 0 {
            println!(page; "{other} cases NOT as recorded");
        }
    }
}
