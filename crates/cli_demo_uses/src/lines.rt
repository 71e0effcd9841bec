// Lines of the demonstration. What standard output doesn't take is left out.
ghost use Rattle.std.specs.Prelude.{◌≤◌, length};

use text::{print, print_hex};

pub fn print_bytes(rt: &impl Print, name: &[u8], b: &[u8]) {
    print(rt, name);
    let _ = print_hex(rt, b);
}

// Its length and its first 16 bytes.
pub fn print_start(rt: &impl Print, name: &[u8], b: &[u8])
    requires { 16 ≤ length b.now }
{
    print(rt, name);
    let _ = print!(rt; ", {} bytes, begins ", b.len());
    let _ = print_hex(rt, &b[..16]);
}

pub fn print_step(rt: &impl Print, step: u64, value: u64) {
    let _ = println!(rt; "  step {step}: {value}");
}

// How often the split key has been used, of how often it may be.
pub fn print_uses(rt: &impl Print, count: u32, limit: u32) {
    let _ = println!(rt; "uses of the split key: {count} of {limit}");
}
