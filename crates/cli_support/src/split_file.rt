// The file of a split key, with its use limit and the count of its uses.
ghost use Rattle.std.specs.Prelude.{◌≡◌, length};
ghost use Rattle.split_key.specs.Lent.{split_key_of};
ghost use Rattle.cli_support.specs.Split.{Sized};
ghost use Rattle.cli_support.specs.State.{state_length};

use crate::desk::Desk;
use crate::inputs::read_exact;
use crate::messages::Told;
use crate::outputs::write_secret;
use crate::replacement::replace_secret;
use crate::sets::Sizes;
use crate::state_packing::{pack_state, state_bytes, unpack_state};
use split_key::KeyStateMut;

// Of a set's size, in room for the largest.
#[derive(Drop)]
pub struct SplitKey {
    pub set: Sizes,
    pub s0: [u16; 1024],
    pub s1: [u16; 1024],
    pub z0: [u64; 4],
    pub z1: [u64; 4],
    pub public: [u8; 1600],
    pub limit: u32,
    pub count: u32,
}

impl SplitKey {
    pub fn zeros(set: Sizes) -> Self
        ensures { result.set ≡ set }
    {
        SplitKey {
            set,
            s0: [0; 1024],
            s1: [0; 1024],
            z0: [0; 4],
            z1: [0; 4],
            public: [0; 1600],
            limit: 0,
            count: 0,
        }
    }

    // To be read.
    pub fn lent(&self) -> split_key::SplitKey<'_>
        ensures { Sized self.now.set.k (split_key_of result) }
    {
        split_key::SplitKey {
            s0: &self.s0[..self.set.coefficients],
            s1: &self.s1[..self.set.coefficients],
            z0: &self.z0,
            z1: &self.z1,
            public: &self.public[..self.set.public],
        }
    }

    // To the file's bytes.
    fn pack(&self, file: &mut [u8])
        requires { length file.old ≡ state_length self.now.set.k }
    {
        pack_state(self.set.k, &self.lent(), self.limit, self.count, file);
    }

    fn of_bytes(set: Sizes, file: &[u8]) -> Self
        requires { length file.now ≡ state_length set.k }
    {
        let mut key = SplitKey::zeros(set);
        // Not lent by a method: a part of an array behind `&mut self` isn't proved to be handed out.
        let mut state = KeyStateMut {
            s0: &mut key.s0[..set.coefficients],
            s1: &mut key.s1[..set.coefficients],
            z0: &mut key.z0,
            z1: &mut key.z1,
            public: &mut key.public[..set.public],
            limit: &mut key.limit,
            count: &mut key.count,
        };
        unpack_state(set.k, file, &mut state);
        key
    }

    pub fn read(desk: &impl Desk, i: usize, set: Sizes) -> Result<Self, Told> {
        // Room for the largest set's file, as there is no heap.
        let mut b = [0u8; 5768];
        let n = state_bytes(set.k);
        let file: &mut [u8] = &mut b[..n];
        read_exact(desk, i, file)?;
        Ok(SplitKey::of_bytes(set, file))
    }

    // To a file of its own.
    pub fn write(&self, desk: &impl Desk, i: usize) -> Result<(), Told> {
        // Room for the largest set's file, as there is no heap.
        let mut b = [0u8; 5768];
        let n = state_bytes(self.set.k);
        let file: &mut [u8] = &mut b[..n];
        self.pack(file);
        write_secret(desk, i, file)
    }

    // In place of the file that was read: as write, but for the call that hands the bytes on.
    pub fn replace(&self, desk: &impl Desk, i: usize) -> Result<(), Told> {
        // Room for the largest set's file, as there is no heap.
        let mut b = [0u8; 5768];
        let n = state_bytes(self.set.k);
        let file: &mut [u8] = &mut b[..n];
        self.pack(file);
        replace_secret(desk, i, file)
    }
}
