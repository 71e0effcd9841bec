// What decapsulation and trace are lent to be read.
use split_key::SplitKey;

// A split key, a ciphertext and a strip.
#[derive(Clone, Copy)]
pub struct Input<'a> {
    pub key: SplitKey<'a>,
    pub ct: &'a [u8],
    pub words: &'a [u64],
    pub coeffs: &'a [u16],
}
