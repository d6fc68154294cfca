// The encoder: a state by value over a lent buffer, after the Rust's `encode/`. The code of a point is worked out as numbers before
// any bit of it is written, so that a refusal comes before the first write.

#![tactic(auto)]

pub mod code;
mod dod;
pub mod last;
pub mod pack;
mod put;
pub mod std_encoder;

pub use pack::pack_some;
pub use std_encoder::StdEncoder;
