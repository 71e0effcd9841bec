// The parts of a split key, each made of its part of a decapsulation key (FIPS 203, algorithm 16). Coefficients are
// taken modulo q, as algorithm 6 takes them.
ghost use Rattle.std.specs.Prelude.{◌≡◌, ◌-◌, ◌*◌, ◌≤◌, get_or, length, take, drop};
ghost use Rattle.words.specs.Tab.{tab};
ghost use Rattle.words.specs.Word.{xor};
ghost use Rattle.ring.specs.Polynomial.{sub};
ghost use Rattle.worksheet.specs.SharedList.{shared_list};
ghost use Rattle.vectors.specs.Vector.{coefficients};
ghost use Rattle.fips202.specs.Sponge.{lane_of};
ghost use Rattle.split_key.specs.Sized.{SharingInput};

use fips202::bytes::load;
use ring::sub_from;
use slices::{copy_bytes, copy_coefficients, tabulate};
use vectors::decode_all;

// The shares of the coefficients that b encodes.
pub fn split_coefficients(b: &[u8], k: usize, mask_coeffs: &[u16], s0: &mut [u16], s1: &mut [u16])
    requires { SharingInput (384 * k) (256 * k) b.now mask_coeffs.now s0.old s1.old }
    ensures { shared_list s0.new s1.new
        ≡ shared_list
        mask_coeffs.now
        (sub (coefficients k b.now) mask_coeffs.now) }
{
    copy_coefficients(mask_coeffs, s0);
    decode_all(b, k, s1);
    sub_from(s1, mask_coeffs);
}

// The shares of the four words of z.
pub fn split_words(z: &[u8], mask_words: &[u64], z0: &mut [u64], z1: &mut [u64])
    requires { SharingInput 32 4 z.now mask_words.now z0.old z1.old }
    ensures { shared_list z0.new z1.new
        ≡ shared_list
        mask_words.now
        (tab 4 (λ i. xor (lane_of z.now i) (get_or mask_words.now i 0))) }
{
    tabulate(z0, |i| mask_words[i]);
    for (i, word) in z1.iter_mut().enumerate() {
        *word = load(&z[8 * i..8 * i + 8]) ^ mask_words[i];
    }
}

// The public key and h, as they stand in the key from s to e.
pub fn copy_public(dk: &[u8], s: usize, e: usize, public: &mut [u8])
    requires { (s ≤ e) × (e ≤ length dk.now) × (length public.old ≡ e - s) }
    ensures { public.new ≡ take (e - s) (drop s dk.now) }
{
    copy_bytes(&dk[s..e], public);
}
