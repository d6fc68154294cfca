// Shapes that people know from the Rust, thin over the core: a reader that holds the lent bytes and its position together, and states that are lent
// and changed in place. Above each shape there is a function with plain parameters, which makes the reader, or takes the
// state by value, lends it and hands it back.

#![tactic(auto)]

pub mod decoder;
pub mod encoder;
pub mod held_reader;

pub use held_reader::HeldReader;
