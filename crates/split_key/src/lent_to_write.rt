// What import and refreshing are lent of a split key, to be written.

// The shares of a split key, lent: those of the secret's coefficients, and those of the words of z.
#[derive(Drop)]
pub struct SharesMut<'a> {
    pub s0: &'a mut [u16],
    pub s1: &'a mut [u16],
    pub z0: &'a mut [u64],
    pub z1: &'a mut [u64],
}

// A split key with its use limit and the count of its uses, lent. The shares are fields of its own: references of
// lifetimes that differ are not proved to pass from a SharesMut into it.
#[derive(Drop)]
pub struct KeyStateMut<'a> {
    pub s0: &'a mut [u16],
    pub s1: &'a mut [u16],
    pub z0: &'a mut [u64],
    pub z1: &'a mut [u64],
    pub public: &'a mut [u8],
    pub limit: &'a mut u32,
    pub count: &'a mut u32,
}
