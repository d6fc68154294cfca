// A test: document 01's M6 through the shapes of `lent`. It is encoded by an encoder that is lent and changed in place, its fields are read two by two
// by readers that hold their bytes, and it is decoded, whole and torn, by a decoder that is lent and changed in place. What it must print was worked out
// by other code (oracle/lending.py).

#![tactic(auto)]

mod decoding;
mod encoding;
mod reading;

use std::io;

fn main(rt: HostRuntime) -> io::Result<()> {
    let out = rt.stdout();
    // dirty, so that what is not cleared is seen
    let mut buf = [0xff; 32];
    let used = encoding::encoded(out, &mut buf)?;
    reading::shown(out, &buf, used)?;
    decoding::decoded(out, &buf, used)?;
    // its first two points lie in 21 bytes
    decoding::decoded(out, &buf, 21)
}
