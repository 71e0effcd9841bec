// Text on standard output.
#![tactic(auto)]

mod hex; // bytes as hexadecimal digits

pub use hex::print_hex;

// Where standard output doesn't take the text, what it hasn't taken is left out.
pub fn print(rt: &impl Print, text: &[u8]) {
    let _ = rt.write_all(text);
}
