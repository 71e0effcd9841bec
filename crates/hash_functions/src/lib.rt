// The functions made of FIPS 202's hashes (FIPS 203, section 4.1).
#![tactic(auto)]

ghost use Rattle.std.specs.Prelude.{[], ◌∷◌, ◌++◌, ◌≡◌, length};
ghost use Rattle.fips202.specs.Sponge.{sha3_256, sha3_512, shake256};
ghost use Rattle.hash_functions.specs.Functions.{J, XOF};

use slices::concat_bytes;

// H (4.4).
pub fn hash_h(s: &[u8], out: &mut [u8])
    requires { length out.old ≡ 32 }
    ensures { out.new ≡ sha3_256 s.now }
{
    fips202::sha3_256(s, out).unwrap();
}

// G (4.5) of the seed d and the rank k, as algorithm 13 calls it on line 1.
pub fn hash_g_seed(d: &[u8], k: u8, out: &mut [u8])
    requires { (length d.now ≡ 32) × (length out.old ≡ 64) }
    ensures { out.new ≡ sha3_512 (d.now ++ k ∷ []) }
{
    let mut t = [0u8; 33];
    let b = [k];
    concat_bytes(d, &b, &mut t);
    fips202::sha3_512(&t, out).unwrap();
}

// G (4.5) of the seed d alone, as Kyber's algorithm 4 calls it on line 2.
pub fn hash_g_alone(d: &[u8], out: &mut [u8])
    requires { length out.old ≡ 64 }
    ensures { out.new ≡ sha3_512 d.now }
{
    fips202::sha3_512(d, out).unwrap();
}

// G (4.5) of the message m and the hash h, as algorithm 17 calls it on line 1.
pub fn hash_g(m: &[u8], h: &[u8], out: &mut [u8])
    requires { (length m.now ≡ 32) × (length h.now ≡ 32) × (length out.old ≡ 64) }
    ensures { out.new ≡ sha3_512 (m.now ++ h.now) }
{
    let mut t = [0u8; 64];
    concat_bytes(m, h, &mut t);
    fips202::sha3_512(&t, out).unwrap();
}

// Kyber's KDF, which is J (4.4), of k and H(c), as Kyber's algorithm 8 calls it on line 5.
pub fn hash_kdf(k: &[u8], c: &[u8], out: &mut [u8])
    requires { (length k.now ≡ 32) × (length out.old ≡ 32) }
    ensures { out.new ≡ J (k.now ++ sha3_256 c.now) }
{
    let mut h = [0u8; 32];
    let mut t = [0u8; 64];
    hash_h(c, &mut h);
    concat_bytes(k, &h, &mut t);
    fips202::shake256(&t, out);
}

// PRF (4.3), for an output of 64 eta bytes.
pub fn prf(s: &[u8], n: u8, out: &mut [u8])
    requires { length s.now ≡ 32 }
    ensures { out.new ≡ shake256 (s.now ++ n ∷ []) (length out.old) }
{
    let mut t = [0u8; 33];
    let b = [n];
    concat_bytes(s, &b, &mut t);
    fips202::shake256(&t, out);
}

// XOF (section 4.1) of matrix place (i, j): the stream that algorithm 7 reads, of which document 01 lends 840 bytes.
pub fn xof(rho: &[u8], i: u8, j: u8, out: &mut [u8])
    requires { (length rho.now ≡ 32) × (length out.old ≡ 840) }
    ensures { out.new ≡ XOF rho.now i j }
{
    let mut t = [0u8; 34];
    let b = [j, i];
    concat_bytes(rho, &b, &mut t);
    fips202::shake128(&t, out);
}
