// The seeds that key making expands, in which the editions differ.
ghost use Rattle.std.specs.Prelude.{◌≡◌};
ghost use Rattle.mlkem.specs.Editions.{seeds as seeds_of};
ghost use Rattle.mlkem.specs.SeedsInput.{SeedsInput};

use hash_functions::{hash_g_alone, hash_g_seed};
use parameters::{Edition, Parameters};

// rho || sigma, of the seed d (FIPS 203, algorithm 13, line 1; Kyber, algorithm 4, line 2).
pub fn seeds(e: Edition, p: Parameters, d: &[u8], g: &mut [u8])
    requires { SeedsInput p d.now g.old }
    ensures { g.new ≡ seeds_of e p d.now }
{
    match e {
        Edition::MlKem => hash_g_seed(d, p.k as u8, g),
        Edition::Kyber => hash_g_alone(d, g),
    }
}
