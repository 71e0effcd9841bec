// Coefficients, words and numbers of 32 bits as bytes, the lowest byte first.
ghost use Rattle.std.specs.Prelude.{◌≡◌, ◌*◌, length};
ghost use Rattle.words.specs.Numeral.{value, digits};
ghost use Rattle.words.specs.LittleEndian.{words_to_bytes};
ghost use Rattle.buffers.specs.LittleEndian.{numbers};

use fips202::bytes::{byte, load};
use slices::tabulate;

// The two bytes of a coefficient.
fn coefficient(p: &[u8]) -> u16
    requires { length p.now ≡ 2 }
    ensures { result ≡ value 256 p.now }
{
    u16::from_le_bytes([p[0], p[1]])
}

pub fn get_coefficients(b: &[u8], out: &mut [u16])
    requires { length b.now ≡ 2 * length out.old }
    ensures { out.new ≡ numbers 2 (length out.old) b.now }
{
    tabulate(out, |i| coefficient(&b[2 * i..2 * i + 2]));
}

pub fn get_words(b: &[u8], out: &mut [u64])
    requires { length b.now ≡ 8 * length out.old }
    ensures { out.new ≡ numbers 8 (length out.old) b.now }
{
    tabulate(out, |i| load(&b[8 * i..8 * i + 8]));
}

pub fn put_coefficients(f: &[u16], out: &mut [u8])
    requires { length out.old ≡ 2 * length f.now }
    ensures { out.new ≡ words_to_bytes 2 f.now }
{
    tabulate(out, |i| byte(f[i / 2] as u64, i % 2));
}

pub fn put_words(w: &[u64], out: &mut [u8])
    requires { length out.old ≡ 8 * length w.now }
    ensures { out.new ≡ words_to_bytes 8 w.now }
{
    tabulate(out, |i| byte(w[i / 8], i % 8));
}

pub fn get_number(p: &[u8]) -> u32
    requires { length p.now ≡ 4 }
    ensures { result ≡ value 256 p.now }
{
    u32::from_le_bytes([p[0], p[1], p[2], p[3]])
}

pub fn put_number(x: u32, out: &mut [u8])
    requires { length out.old ≡ 4 }
    ensures { out.new ≡ digits 256 4 x }
{
    tabulate(out, |i| byte(x as u64, i));
}
