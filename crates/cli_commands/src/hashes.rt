// The hashes of a file, printed in hexadecimal digits.
ghost use Rattle.std.specs.Prelude.{◌≡◌, ◌≤◌, IfSome, length};
ghost use Rattle.cli_commands.specs.Hashes.{hashed};

use cli_support::desk::Desk;
use cli_support::messages::Told;
use cli_support::{arguments, inputs, messages};
use text::print_hex;

#[derive(Clone, Copy)]
pub enum Hash {
    Digest256,
    Digest512,
    Shake128,
    Shake256,
}

impl Hash {
    // How many bytes a digest has; SHAKE gives as many as are asked for.
    fn digest_bytes(self) -> Option<usize>
        ensures { IfSome result (λ n. n ≤ 64) }
    {
        match self {
            Hash::Digest256 => Some(32),
            Hash::Digest512 => Some(64),
            Hash::Shake128 | Hash::Shake256 => None,
        }
    }

    pub(crate) fn form(self) -> &'static str {
        match self {
            Hash::Digest256 => "sha3-256 FILE",
            Hash::Digest512 => "sha3-512 FILE",
            Hash::Shake128 => "shake128 FILE LENGTH",
            Hash::Shake256 => "shake256 FILE LENGTH",
        }
    }

    pub(crate) fn word_count(self) -> usize {
        match self {
            Hash::Digest256 | Hash::Digest512 => 3,
            Hash::Shake128 | Hash::Shake256 => 4,
        }
    }
}

// The most bytes that are read, and that SHAKE gives out.
const MOST: usize = 1048576;

// Room for as many, as there is no heap.
fn zeros() -> [u8; MOST]
    ensures { 1048576 ≡ length result }
{
    [0; MOST]
}

// The one place that goes by the hash: two of the four answer and two don't.
fn fill(hash: Hash, message: &[u8], out: &mut [u8])
    ensures { out.new ≡ hashed hash message.now out.old }
{
    match hash {
        Hash::Digest256 => {
            let _ = fips202::sha3_256(message, out);
        }
        Hash::Digest512 => {
            let _ = fips202::sha3_512(message, out);
        }
        Hash::Shake128 => fips202::shake128(message, out),
        Hash::Shake256 => fips202::shake256(message, out),
    }
}

// As many bytes as out has, of the file of argument 2.
fn print_hash(desk: &impl Desk, hash: Hash, out: &mut [u8]) -> Result<(), Told> {
    let mut message = zeros();
    let n = inputs::read_up_to(desk, 2, &mut message)?;
    fill(hash, &message[..n], out);
    print_hex(desk, out).map_err(|e| messages::failed(desk, b"standard output", e))
}

// A digest of n bytes.
fn print_digest(desk: &impl Desk, hash: Hash, n: usize) -> Result<(), Told>
    requires { n ≤ 64 }
{
    let mut out = [0u8; 64];
    print_hash(desk, hash, &mut out[..n])
}

// As many bytes as argument 3 says.
fn print_some(desk: &impl Desk, hash: Hash) -> Result<(), Told> {
    let n = arguments::number(desk, 3, MOST as u64)? as usize;
    let mut out = zeros();
    print_hash(desk, hash, &mut out[..n])
}

// mlkem sha3-256 FILE, mlkem sha3-512 FILE, mlkem shake128 FILE LENGTH, mlkem shake256 FILE LENGTH
#[inline(never)] // so that its rooms are on no other command's stack
pub fn run(desk: &impl Desk, hash: Hash) -> Result<(), Told> {
    match hash.digest_bytes() {
        Some(n) => print_digest(desk, hash, n),
        None => print_some(desk, hash),
    }
}
