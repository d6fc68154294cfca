// The decoder: a state by value over a lent buffer, after the Rust's `decode/`.

#![tactic(auto)]

mod field;
mod found;
mod raw_dod;
pub mod std_decoder;
mod timestamp;
mod value;

pub use std_decoder::StdDecoder;
pub use std_decoder::unpack::unpack_some;
