// Compression and encoding of plain values (FIPS 203, section 4.2.1).
#![tactic(auto)]

pub mod bits; // numbers as bits
mod compression;
mod encoding;

pub use compression::{compress, compress_all, decompress, decompress_all};
pub use encoding::{byte_decode, byte_decode12, byte_encode};
