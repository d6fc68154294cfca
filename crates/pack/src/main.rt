// Packs points: reads lines `time,value` from standard input and writes the closed stream, of at most 65,536 bytes, to standard output. Where a
// line is no point or its point is refused, it writes no stream and says why on standard error.

#![tactic(auto)]

mod lines;
mod packing;
mod say;
mod start;

use packing::Packing;

// As many bytes as a stream may have.
const LIMIT: usize = 65_536;

fn pack_from(rt: &HostRuntime, start: u64) {
    let mut buf = [0u8; LIMIT];
    let mut packing = Packing::open(start, &mut buf);
    if let Err(why) = packing.take_all(&mut rt.stdin()) {
        return say::stopped(rt, packing.number(), why);
    }
    match packing.close() {
        Err(why) => say::not_closed(rt, why),
        Ok(bytes) => {
            if let Err(why) = rt.write_all(bytes) {
                say::unwritten(rt, why);
            }
        }
    }
}

fn main(rt: HostRuntime) {
    match start::start_word(&rt) {
        None => say::usage(&rt),
        Some(start) => pack_from(&rt, start),
    }
}
