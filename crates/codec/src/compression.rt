// Compress_d and Decompress_d (FIPS 203, section 4.2.1) at each depth d from 1 to 11, without division.
ghost use Rattle.std.specs.Prelude.{◌≡◌, map, ◌^◌, ◌≤◌};
ghost use Rattle.words.specs.Bounded.{Below};
ghost use Rattle.codec.specs.Compress.{compress, decompress};
ghost use Rattle.codec.specs.Lent.{DecompressInput};

use crate::bits::{high, low, shifted, wide16};
use ring::{map_coefficients, quotient};

// Compress_d, (4.7): (2 a + q) / (2 q) is (a + 1664) / q.
pub fn compress(x: u16, d: u32) -> u16
    requires { d ≤ 11 }
    ensures { result ≡ compress d x }
{
    low(quotient(shifted(x, d) + 1664), d)
}

// Decompress_d, (4.8)
pub fn decompress(y: u16, d: u32) -> u16
    requires { DecompressInput y d }
    ensures { result ≡ decompress d y }
{
    high(6658 * wide16(y) + shifted(1, d), d + 1) as u16
}

// Compress_d of every coefficient
pub fn compress_all(f: &mut [u16], d: u32)
    requires { d ≤ 11 }
    ensures { f.new ≡ map (compress d) f.old }
{
    map_coefficients(f, |x| compress(x, d));
}

// Decompress_d of every coefficient
pub fn decompress_all(f: &mut [u16], d: u32)
    requires { (d ≤ 11) × Below (2 ^ d) f.old }
    ensures { f.new ≡ map (decompress d) f.old }
{
    map_coefficients(f, |y| decompress(y, d));
}
