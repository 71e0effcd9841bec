// Bytes as hexadecimal digits, in lower case.
ghost use Rattle.std.specs.Prelude.{◌≡◌, ◌*◌, ◌/◌, ◌%◌, ◌≤◌, ◌<◌, length};
ghost use Rattle.text.specs.Hex.{glyph as glyph_of, hex as hex_of, digit_at};

use slices::tabulate;
use std::io;

fn glyph(d: u8) -> u8
    requires { d < 16 }
    ensures { result ≡ glyph_of d }
{
    if d < 10 { 48 + d } else { 87 + d }
}

fn digit(b: &[u8], i: usize) -> u8
    requires { i < 2 * length b.now }
    ensures { result ≡ digit_at b.now i }
{
    let x = b[i / 2];
    if i % 2 == 0 {
        glyph(x / 16)
    } else {
        glyph(x % 16)
    }
}

fn spell(b: &[u8], out: &mut [u8])
    requires { length out.old ≡ 2 * length b.now }
    ensures { out.new ≡ hex_of b.now }
{
    tabulate(out, |i| digit(b, i));
}

// At most 2,048 bytes, by way of text.
fn print_some(rt: &impl Print, b: &[u8], text: &mut [u8]) -> io::Result<()>
    requires { (length b.now ≤ 2048) × (length text.old ≡ 4096) }
{
    let n = 2 * b.len();
    spell(b, &mut text[..n]);
    rt.write_all(&text[..n])
}

fn print_all(rt: &impl Print, b: &[u8], text: &mut [u8]) -> io::Result<()>
    requires { length text.old ≡ 4096 }
{
    for part in b.chunks(2048) {
        print_some(rt, part, text)?;
    }
    Ok(())
}

// All the digits, and a line end; an error where standard output doesn't take them.
pub fn print_hex(rt: &impl Print, b: &[u8]) -> io::Result<()> {
    let mut text = [0u8; 4096];
    print_all(rt, b, &mut text)?;
    rt.write_all(b"\n")
}
