// Gadgets for bench/gadgets. Each hands back the entry that is `left` entries ahead, and 0 where there is none or where
// what is lent is too short or out of range. Where the last entry is asked for no work is left out.
use masked_compression::masked_compress;
use refusals::conditions::reduced;
use worksheet::{Recorder, Shares};

// The adder of depth d, on d + 13 planes.
#[unsafe(no_mangle)]
pub extern "C" fn bench_adder(
    d: usize,
    x: &[u64; 24],
    y: &[u64; 24],
    masks: &[u64],
    left: u64,
) -> u64 {
    if d > 11 {
        return 0;
    }
    if masks.len() < 3 * d + 38 {
        return 0;
    }
    let a = *x;
    let b = *y;
    let o = masked_adder::adder(Recorder { left, value: 0 }, d + 13, a, b, masks);
    o.rec.value
}

// Masked compression of 64 coefficients at depth d.
#[unsafe(no_mangle)]
pub extern "C" fn bench_compress(
    d: usize,
    x0: &[u16],
    x1: &[u16],
    masks: &[u64],
    left: u64,
) -> u64 {
    if d > 11 {
        return 0;
    }
    if x0.len() != 64 {
        return 0;
    }
    if x1.len() != 64 {
        return 0;
    }
    if masks.len() < 3 * d + 38 {
        return 0;
    }
    if !reduced(x0) {
        return 0;
    }
    if !reduced(x1) {
        return 0;
    }
    let o = masked_compress(Recorder { left, value: 0 }, d, x0, x1, masks);
    o.rec.value
}

// The sampler of width eta, on the lowest bits of a word. The compiler doesn't know the width here; stage 5, where it
// knows width 2, is measured by bench/decaps.
#[unsafe(no_mangle)]
pub extern "C" fn bench_sampler(eta: usize, b0: u64, b1: u64, masks: &[u16], left: u64) -> u64 {
    if eta < 1 {
        return 0;
    }
    if eta > 3 {
        return 0;
    }
    if masks.len() < 6 {
        return 0;
    }
    if !reduced(masks) {
        return 0;
    }
    let b = Shares { s0: b0, s1: b1 };
    let o = masked_sampler::sampler::sampler(Recorder { left, value: 0 }, eta, b, masks);
    o.rec.value
}

// The fold of all words to the equal bit.
#[unsafe(no_mangle)]
pub extern "C" fn bench_fold(w0: &[u64], w1: &[u64], masks: &[u64], left: u64) -> u64 {
    if w0.len() < 1 {
        return 0;
    }
    let n = w0.len() - 1;
    if w1.len() <= n {
        return 0;
    }
    if masks.len() < 6 {
        return 0;
    }
    if masks.len() - 6 < n {
        return 0;
    }
    let o = masked_comparison::comparison::all_zero(Recorder { left, value: 0 }, n, w0, w1, masks);
    o.rec.value
}
