// A whole series in one call. Crate tsz_c hands these calls to programs in other languages; the header is include/tsz.h.

#![tactic(auto)]

mod pack;
mod said;
mod unpack;

pub use pack::tsz_pack;
pub use unpack::tsz_unpack;
