// Bits in a lent buffer, highest first: after the Rust's `stream/`, with `Bit` of its lib.rs.

#![tactic(auto)]

ghost use Rattle.std.specs.Prelude.{◌≡◌};
ghost use Rattle.stream.specs.Calls.{bit_number};

pub mod buffered_read;
pub mod buffered_write;
mod field;
mod get;
pub mod position;
mod put;
pub mod refusal;

pub use buffered_read::BufferedReader;
pub use buffered_write::BufferedWriter;
pub use position::{BitPos, ByteCount};
pub use refusal::Refusal;

// The longest lent buffer, in bytes.
pub const LIMIT: usize = 16_777_216;

// A single bit.
#[derive(Clone, Copy, PartialEq, Eq)]
pub enum Bit {
    Zero,
    One,
}

impl Bit {
    // The bit as a number: `Zero` is 0 and `One` is 1. The Rust's name and form, which document 01 takes over with `Bit`; so no `From`.
    pub fn to_u64(self) -> u64
        ensures { result ≡ bit_number self }
    {
        match self {
            Bit::Zero => 0,
            Bit::One => 1,
        }
    }
}
