// A row, the five lanes of a state with one y, and what the steps do to rows.
ghost use Rattle.std.specs.Prelude.{◌≡◌};
ghost use Rattle.keccak.specs.Rows.{Offsets, xor_row, effect_row, rotl_row, chi_row};

use std::ops::BitXor;

// The lanes x = 0, 1, 2, 3, 4.
#[derive(Clone, Copy)]
pub struct Row {
    pub a: u64,
    pub b: u64,
    pub c: u64,
    pub d: u64,
    pub e: u64,
}

impl BitXor for Row {
    type Output = Row;

    ghost bitxor_gives = { λ p q r. r ≡ xor_row p q };

    fn bitxor(self, q: Row) -> Row {
        Row {
            a: self.a ^ q.a,
            b: self.b ^ q.b,
            c: self.c ^ q.c,
            d: self.d ^ q.d,
            e: self.e ^ q.e,
        }
    }
}

impl Row {
    // Algorithm 1, step 2: D, where the row is C.
    pub(crate) fn effect(self) -> Row
        ensures { result ≡ effect_row self }
    {
        Row {
            a: self.e ^ self.b.rotate_left(1),
            b: self.a ^ self.c.rotate_left(1),
            c: self.b ^ self.d.rotate_left(1),
            d: self.c ^ self.e.rotate_left(1),
            e: self.d ^ self.a.rotate_left(1),
        }
    }

    // Algorithm 2 on a row: each lane rotated by its offset.
    pub(crate) fn rotate_left(self, a: u32, b: u32, c: u32, d: u32, e: u32) -> Row
        requires { Offsets a b c d e }
        ensures { result ≡ rotl_row self a b c d e }
    {
        Row {
            a: self.a.rotate_left(a),
            b: self.b.rotate_left(b),
            c: self.c.rotate_left(c),
            d: self.d.rotate_left(d),
            e: self.e.rotate_left(e),
        }
    }

    // Algorithm 4 on a row.
    pub(crate) fn chi(self) -> Row
        ensures { result ≡ chi_row self }
    {
        Row {
            a: self.a ^ (!self.b & self.c),
            b: self.b ^ (!self.c & self.d),
            c: self.c ^ (!self.d & self.e),
            d: self.d ^ (!self.e & self.a),
            e: self.e ^ (!self.a & self.b),
        }
    }
}
