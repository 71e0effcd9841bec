// The file of a strip: its words, then its coefficients.
ghost use Rattle.std.specs.Prelude.{◌≡◌, ◌+◌, ◌*◌, length, take};
ghost use Rattle.cli_support.specs.StripFile.{StripUnpacked};

use crate::desk::Desk;
use crate::inputs::read_exact;
use crate::messages::Told;
use crate::sets::Sizes;
use buffers::little_endian::{get_coefficients, get_words};
use buffers::values;

// A file of the largest set, as there is no heap.
fn zeros() -> [u8; 140480]
    ensures { 140480 ≡ length result }
{
    [0; 140480]
}

// Of a set's size, in room for the largest.
#[derive(Drop)]
pub struct Strip {
    set: Sizes,
    words: [u64; 15192],
    coeffs: [u16; 9472],
}

impl Strip {
    pub fn zeros(set: Sizes) -> Self
        ensures { result.set ≡ set }
    {
        Strip {
            set,
            words: [0; 15192],
            coeffs: [0; 9472],
        }
    }

    // From the file's bytes.
    pub fn unpack(&mut self, b: &[u8])
        requires { length b.now ≡ 8 * self.old.set.words + 2 * self.old.set.coeffs }
        ensures sizes { self.new.set ≡ self.old.set }
        ensures unpacked { StripUnpacked self.old.set.words self.old.set.coeffs b.now
            (take self.old.set.words self.new.words) (take self.old.set.coeffs self.new.coeffs) }
    {
        let m = self.set.words;
        let n = self.set.coeffs;
        get_words(&b[..8 * m], &mut self.words[..m]);
        get_coefficients(&b[8 * m..], &mut self.coeffs[..n]);
    }

    pub fn read(&mut self, desk: &impl Desk, i: usize) -> Result<(), Told> {
        let mut b = zeros();
        let n = 8 * self.set.words + 2 * self.set.coeffs;
        let file: &mut [u8] = &mut b[..n];
        read_exact(desk, i, file)?;
        self.unpack(file);
        Ok(())
    }

    // The coefficients modulo q. One line for masks and for a strip, over parts of different structs.
    pub fn reduce(&mut self) {
        let n = self.set.coeffs;
        values::reduce(&mut self.coeffs[..n]);
    }

    pub fn words(&self) -> &[u64] {
        &self.words[..self.set.words]
    }

    pub fn coeffs(&self) -> &[u16] {
        &self.coeffs[..self.set.coeffs]
    }
}
