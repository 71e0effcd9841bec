// The file of masks for import and refreshing: 256 coefficients for each of the rank's polynomials, then 4 words.
ghost use Rattle.std.specs.Prelude.{◌≡◌, ◌+◌, ◌*◌, length};

use crate::desk::Desk;
use crate::inputs::read_exact;
use crate::messages::Told;
use crate::sets::Sizes;
use buffers::little_endian::{get_coefficients, get_words};
use buffers::values;

// Of a set's size, in room for the largest.
#[derive(Drop)]
pub struct Masks {
    set: Sizes,
    coeffs: [u16; 1024],
    words: [u64; 4],
}

impl Masks {
    pub fn zeros(set: Sizes) -> Self
        ensures { result.set ≡ set }
    {
        Masks {
            set,
            coeffs: [0; 1024],
            words: [0; 4],
        }
    }

    // From the file's bytes.
    pub fn unpack(&mut self, b: &[u8])
        requires { length b.now ≡ 512 * self.old.set.k + 32 }
    {
        let m = self.set.coefficients;
        get_coefficients(&b[..2 * m], &mut self.coeffs[..m]);
        get_words(&b[2 * m..], &mut self.words);
    }

    pub fn read(&mut self, desk: &impl Desk, i: usize) -> Result<(), Told> {
        // Room for the largest set's file, as there is no heap.
        let mut b = [0u8; 2080];
        let n = 2 * self.set.coefficients + 32;
        let file: &mut [u8] = &mut b[..n];
        read_exact(desk, i, file)?;
        self.unpack(file);
        Ok(())
    }

    // The coefficients modulo q. One line for masks and for a strip, over parts of different structs.
    pub fn reduce(&mut self) {
        let m = self.set.coefficients;
        values::reduce(&mut self.coeffs[..m]);
    }

    pub fn lent(&self) -> split_key::Masks<'_> {
        split_key::Masks {
            coeffs: &self.coeffs[..self.set.coefficients],
            words: &self.words,
        }
    }
}
