// A point's code put into a buffer in which there is room for it.

ghost use Rattle.std.specs.Prelude.{◌≡◌, ◌+◌, ◌*◌, ◌≤◌, length};
ghost use Rattle.stream.specs.Bits.{bits, replaced};
ghost use Rattle.stream.specs.Calls.{limit};
ghost use Rattle.encode.specs.Parts.{word_of, words};

use super::code::{Code, PointCode};
use stream::BufferedWriter;

// How many bits stand before the writer's place.
pub(super) fn bits_before(w: BufferedWriter) -> usize
    ensures { result ≡ w.at.0 }
{
    w.position().get()
}

// Writes a code for which there is room.
pub(super) fn put(w: BufferedWriter, buf: &mut [u8], k: Code) -> BufferedWriter
    requires buf_len_bound { length buf.old ≤ limit }
    requires len_bound { k.len ≤ 64 }
    requires len_bound_2 { w.at.0 + k.len ≤ 8 * length buf.old }
    ensures { (result.at.0 ≡ w.at.0 + k.len) × (bits buf.new ≡ replaced (bits buf.old) w.at.0 (word_of k)) }
{
    let done = w.write_bits(buf, k.bits, k.len);
    done.writer
}

// Writes a point's code for which there is room: its head, then its digits.
pub(super) fn put_point(w: BufferedWriter, buf: &mut [u8], k: PointCode) -> BufferedWriter
    requires buf_len_bound { length buf.old ≤ limit }
    requires len_bound { (k.head.len ≤ 64) × (k.digits.len ≤ 64) }
    requires len_bound_2 { w.at.0 + (k.head.len + k.digits.len) ≤ 8 * length buf.old }
    ensures { (result.at.0 ≡ w.at.0 + (k.head.len + k.digits.len)) × (bits buf.new ≡ replaced (bits buf.old) w.at.0 (words k)) }
{
    let behind = put(w, buf, k.head);
    put(behind, buf, k.digits)
}
