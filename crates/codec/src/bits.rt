// Numbers by their bits, for the functions of FIPS 203's section 4.2.
ghost use Rattle.std.specs.Prelude.{◌≡◌, ◌+◌, ◌*◌, ◌/◌, ◌%◌, ◌^◌, ◌≤◌};
ghost use Rattle.codec.specs.Lent.{AboveInput};

// A line over std's From, as the next: docs/shares.md names both.
pub fn wide16(x: u16) -> u32
    ensures { result ≡ x }
{
    u32::from(x)
}

pub fn wide8(x: u8) -> u32
    ensures { result ≡ x }
{
    u32::from(x)
}

// x above the n bits of acc
pub fn put_above(acc: u32, x: u32, n: u32) -> u32
    requires { AboveInput acc x n }
    ensures { result ≡ acc + x * 2 ^ n }
{
    acc + (x << n)
}

// the bits of acc above the lowest d
pub fn high(acc: u32, d: u32) -> u32
    requires { d ≤ 12 }
    ensures { result ≡ acc / 2 ^ d }
{
    acc >> d
}

// the lowest d bits of acc
pub fn low(acc: u32, d: u32) -> u16
    requires { d ≤ 12 }
    ensures { result ≡ acc % 2 ^ d }
{
    (acc & ((1 << d) - 1)) as u16
}

pub fn low_byte(acc: u32) -> u8
    ensures { result ≡ acc % 2 ^ 8 }
{
    (acc % 256) as u8
}

// x 2^d
pub fn shifted(x: u16, d: u32) -> u32
    requires { d ≤ 12 }
    ensures { result ≡ x * 2 ^ d }
{
    (x as u32) << d
}
