// A test: document 01's marked cases M1 to M10 and its others, encoded and decoded through the real calls. It prints what each call answered, and
// the bytes. What it must print was worked out by other code (oracle/marked.py). Buffers start dirty, so that what is not cleared is seen.

#![tactic(auto)]

mod calls;
mod say;
mod series;
mod states;
mod streams;

use std::io;

fn main(rt: HostRuntime) -> io::Result<()> {
    let out = rt.stdout();
    series::marked_values(out)?;
    series::marked_times(out)?;
    series::other_times(out)?;
    series::other_values(out)?;
    series::floats(out)?;
    series::refused_floats(out)?;
    states::never_opened(out)?;
    states::closed_before(out)?;
    states::other_length(out)?;
    states::small_buffers(out)?;
    states::decoder_on_others(out)?;
    states::cuts(out)?;
    streams::windows(out)?;
    streams::times(out)?;
    streams::ends(out)?;
    streams::cuts(out)
}
