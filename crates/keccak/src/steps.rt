// The step mappings (FIPS 202, section 3.2), row by row.
ghost use Rattle.std.specs.Prelude.{◌≡◌};
ghost use Rattle.keccak.specs.KeccakP.{theta as theta_of, rho as rho_of, pi as pi_of, chi as chi_of, iota as iota_of};
ghost use Rattle.keccak.specs.Rows.{parity_row};

use crate::row::Row;
use crate::state::{Rows, State};

impl Rows {
    // Algorithm 1, step 1: C.
    fn parity(self) -> Row
        ensures { result ≡ parity_row self }
    {
        self.y0 ^ self.y1 ^ self.y2 ^ self.y3 ^ self.y4
    }
}

impl State {
    // Algorithm 1.
    pub fn theta(self) -> State
        ensures { result.lanes ≡ theta_of self.lanes }
    {
        let p = self.rows();
        let d = p.parity().effect();
        State::from_rows(p.y0 ^ d, p.y1 ^ d, p.y2 ^ d, p.y3 ^ d, p.y4 ^ d)
    }

    // Algorithm 2.
    pub fn rho(self) -> State
        ensures { result.lanes ≡ rho_of self.lanes }
    {
        let p = self.rows();
        State::from_rows(
            p.y0.rotate_left(0, 1, 62, 28, 27),
            p.y1.rotate_left(36, 44, 6, 55, 20),
            p.y2.rotate_left(3, 10, 43, 25, 39),
            p.y3.rotate_left(41, 45, 15, 21, 8),
            p.y4.rotate_left(18, 2, 61, 56, 14),
        )
    }

    // Algorithm 3.
    pub fn pi(self) -> State
        ensures { result.lanes ≡ pi_of self.lanes }
    {
        let p = self.rows();
        State {
            lanes: [
                p.y0.a, p.y1.b, p.y2.c, p.y3.d, p.y4.e, p.y0.d, p.y1.e, p.y2.a, p.y3.b, p.y4.c, p
                    .y0
                    .b, p.y1.c, p.y2.d, p.y3.e, p.y4.a, p.y0.e, p.y1.a, p.y2.b, p.y3.c, p.y4.d, p
                    .y0
                    .c, p.y1.d, p.y2.e, p.y3.a, p.y4.b,
            ],
        }
    }

    // Algorithm 4.
    pub(crate) fn chi(self) -> State
        ensures { result.lanes ≡ chi_of self.lanes }
    {
        let p = self.rows();
        State::from_rows(p.y0.chi(), p.y1.chi(), p.y2.chi(), p.y3.chi(), p.y4.chi())
    }

    // Algorithm 6, step 4, with the round's constant k.
    pub(crate) fn iota(mut self, k: u64) -> State
        ensures { result.lanes ≡ iota_of self.lanes k }
    {
        self.lanes[0] ^= k;
        self
    }
}
