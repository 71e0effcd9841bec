// A lane and its eight bytes, the lowest first (appendix B.1).
ghost use Rattle.std.specs.Prelude.{◌≡◌, ◌/◌, ◌%◌, ◌^◌, ◌<◌, length};
ghost use Rattle.words.specs.Numeral.{value, digits};

pub fn load(p: &[u8]) -> u64
    requires { length p.now ≡ 8 }
    ensures { result ≡ value 256 p.now }
{
    u64::from_le_bytes([p[0], p[1], p[2], p[3], p[4], p[5], p[6], p[7]])
}

// Byte k of a lane.
pub fn byte(w: u64, k: usize) -> u8
    requires { k < 8 }
    ensures { result ≡ w / 256 ^ k % 256 }
{
    ((w >> (8 * k)) % 256) as u8
}

pub fn store(w: u64, p: &mut [u8])
    requires { length p.old ≡ 8 }
    ensures { p.new ≡ digits 256 8 w }
{
    p.copy_from_slice(&w.to_le_bytes());
}
