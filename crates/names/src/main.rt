// A test: each refusal's number, its name, and what `{}` and `{:?}` write of it. What it must print is document 01's table.

#![tactic(auto)]

use std::io;
use stream::Refusal;

const ALL: [Refusal; 13] = [
    Refusal::NoRoom,
    Refusal::TimeFalls,
    Refusal::FirstDelta,
    Refusal::DodRange,
    Refusal::TooLong,
    Refusal::NoStart,
    Refusal::CutShort,
    Refusal::BadEnd,
    Refusal::BadWindow,
    Refusal::ReadTimeFalls,
    Refusal::ReadTimePasses,
    Refusal::Closed,
    Refusal::NoFit,
];

fn main(rt: HostRuntime) -> io::Result<()> {
    let out = rt.stdout();
    for why in ALL {
        println!(out; "{} | {} | {why} | {why:?}", why.number(), why.name())?;
    }
    Ok(())
}
