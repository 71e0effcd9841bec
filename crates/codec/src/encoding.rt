// ByteEncode_d and ByteDecode_d (FIPS 203, section 4.2.1) at each number of bits d from 1 to 12.
ghost use Rattle.std.specs.Prelude.{◌≡◌, map, ◌%◌, length};
ghost use Rattle.words.specs.Residue.{q};
ghost use Rattle.codec.specs.Bytes.{byte_encode, byte_decode, byte_decode12};
ghost use Rattle.codec.specs.Lent.{EncodeInput, DecodeInput};

use crate::bits::{high, low, low_byte, put_above, wide8, wide16};
use ring::{map_coefficients, remainder};

// Algorithm 5, ByteEncode_d: coefficients are loaded until their bits fill the next byte.
pub fn byte_encode(f: &[u16], d: u32, out: &mut [u8])
    requires { EncodeInput f.now d out.old }
    ensures { out.new ≡ byte_encode d f.now }
{
    let mut acc: u32 = 0;
    let mut n: u32 = 0;
    let mut i = 0;
    for byte in out.iter_mut() {
        while n < 8 {
            acc = put_above(acc, wide16(f[i]), n);
            n += d;
            i += 1;
        }
        *byte = low_byte(acc);
        acc = high(acc, 8);
        n -= 8;
    }
}

// Algorithm 6, ByteDecode_d, its numbers not yet reduced at d = 12: bytes are loaded until they hold the next number.
pub fn byte_decode(b: &[u8], d: u32, f: &mut [u16])
    requires { DecodeInput b.now d f.old }
    ensures { f.new ≡ byte_decode d b.now }
{
    let mut acc: u32 = 0;
    let mut n: u32 = 0;
    let mut i = 0;
    for x in f.iter_mut() {
        while n < d {
            acc = put_above(acc, wide8(b[i]), n);
            n += 8;
            i += 1;
        }
        *x = low(acc, d);
        acc = high(acc, d);
        n -= d;
    }
}

// Algorithm 6 at d = 12
pub fn byte_decode12(b: &[u8], f: &mut [u16])
    requires { (length b.now ≡ 384) × (length f.old ≡ 256) }
    ensures { f.new ≡ byte_decode12 b.now }
{
    byte_decode(b, 12, f);
    map_coefficients(f, |x| remainder(x));
}
