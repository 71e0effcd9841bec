// Coefficients and words as bytes, the lowest byte first.
ghost use Rattle.std.specs.Prelude.{ℕ, ◌≡◌, ◌*◌, length};

use buffers::little_endian;

pub(crate) trait Element: Copy {
    ghost BYTES: { ℕ };

    const BYTES: usize;

    fn get(bytes: &[u8], out: &mut [Self])
        requires { length bytes.now ≡ BYTES * length out.old };

    fn put(elements: &[Self], out: &mut [u8])
        requires { length out.old ≡ BYTES * length elements.now };
}

impl Element for u16 {
    ghost BYTES = { 2 };

    const BYTES: usize = 2;

    fn get(bytes: &[u8], out: &mut [u16]) {
        little_endian::get_coefficients(bytes, out);
    }

    fn put(elements: &[u16], out: &mut [u8]) {
        little_endian::put_coefficients(elements, out);
    }
}

impl Element for u64 {
    ghost BYTES = { 8 };

    const BYTES: usize = 8;

    fn get(bytes: &[u8], out: &mut [u64]) {
        little_endian::get_words(bytes, out);
    }

    fn put(elements: &[u64], out: &mut [u8]) {
        little_endian::put_words(elements, out);
    }
}
