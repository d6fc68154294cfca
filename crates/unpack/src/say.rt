// What the program says where no stream is unpacked, or its points can't be written.

use std::io;
use stream::Refusal;

pub(super) fn usage(rt: &impl Eprint) {
    let _ = eprintln!(rt; "usage: unpack < stream > points; it takes no words");
}

// That a write failed, and why.
pub(super) fn failed(rt: &impl Eprint, why: io::Error) {
    failure::report(rt, "unpack: standard output", why);
}

// The only line for an input that is longer than the buffer.
pub(super) fn too_long(rt: &(impl Print + Eprint)) {
    let number = Refusal::TooLong.number();
    if let Err(why) = println!(rt; "refused {number}") {
        failed(rt, why);
    }
}
