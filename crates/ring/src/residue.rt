// Numbers modulo q (FIPS 203, section 2.3), without division.
ghost use Rattle.std.specs.Prelude.{◌≡◌, ◌+◌, ◌*◌, ◌/◌, ◌%◌, ◌^◌, ◌<◌, ◌≤◌};
ghost use Rattle.words.specs.Residue.{q};
ghost use Rattle.ring.specs.Polynomial.{minus};
ghost use Rattle.ring.specs.Lent.{Factor};

// Barrett's quotient: 2^38 is 82570714 q + 38.
pub fn quotient(x: u32) -> u32
    ensures { result ≡ x / q }
{
    (((x as u64) * 82570714 + 82570714) >> 38) as u32
}

pub fn reduce(x: u32) -> u16
    ensures { result ≡ x % q }
{
    (x - quotient(x) * 3329) as u16
}

// Below 2^17 a shorter estimate is exact, in 32 bits.
pub fn reduce_short(x: u32) -> u16
    requires { x < 2 ^ 17 }
    ensures { result ≡ x % q }
{
    (x - ((x * 20159) >> 26) * 3329) as u16
}

// In steps of 16 bits, as the functions below, so that eight fit in a vector.
pub fn remainder(x: u16) -> u16
    ensures { result ≡ x % q }
{
    let high = (((x as u32) * 20159) >> 16) as u16;
    x - (high >> 10) * 3329
}

// Bit 15 of x + 2^15 - q tells whether x is q or more; there is no branch.
pub fn reduce_once(x: u16) -> u16
    requires { x < 2 * q }
    ensures { result ≡ x % q }
{
    x - ((x + 29439) >> 15) * 3329
}

pub fn reduced_sum(x: u16, y: u16) -> u16
    requires { (x < q) × (y < q) }
    ensures { result ≡ (x + y) % q }
{
    reduce_once(x + y)
}

pub fn reduced_difference(x: u16, y: u16) -> u16
    requires { (x < q) × (y < q) }
    ensures { result ≡ minus x y }
{
    reduce_once(x + 3329 - y)
}

// x - y by the low halves of both
fn low_difference(x: u32, y: u32) -> u16
    requires { (y ≤ x) × (x < y + 2 ^ 16) }
    ensures { result + y ≡ x }
{
    std::num::wrapping_sub_u16((x % 65536) as u16, (y % 65536) as u16)
}

// Shoup's quotient: what `multiple` takes beside z
pub fn shoup_quotient(z: u16) -> u16
    requires { z < q }
    ensures { result ≡ z * 2 ^ 16 / q }
{
    quotient((z as u32) * 65536) as u16
}

// z x modulo q by Shoup's way: w x / 2^16 is the quotient of z x or one less.
pub fn multiple(z: u16, w: u16, x: u16) -> u16
    requires { Factor z w }
    ensures { result ≡ z * x % q }
{
    let estimate = ((w as u32) * (x as u32)) >> 16;
    reduce_once(low_difference((z as u32) * (x as u32), estimate * 3329))
}

pub fn sum(x: u16, y: u16) -> u16
    ensures { result ≡ (x + y) % q }
{
    reduce_short((x as u32) + (y as u32))
}

pub fn difference(x: u16, y: u16) -> u16
    requires { y < q }
    ensures { result ≡ minus x y }
{
    reduce_short((x as u32) + 3329 - (y as u32))
}

pub fn product(x: u16, y: u16) -> u16
    ensures { result ≡ x * y % q }
{
    reduce((x as u32) * (y as u32))
}
