// Slices, element by element.
ghost use Rattle.std.specs.Prelude.{map, ◌≡◌, ◌%◌, length, get_or};
ghost use Rattle.words.specs.Tab.{tab};
ghost use Rattle.words.specs.Word.{xor};

use slices::tabulate;

pub fn reduce(f: &mut [u16])
    ensures { f.new ≡ map (λ x. x % 3329) f.old }
{
    for x in f.iter_mut() {
        *x %= 3329;
    }
}

// Of two shares, what they stand for.
pub fn xor_words(a: &[u64], b: &[u64], out: &mut [u64])
    requires { (length a.now ≡ length out.old) × (length b.now ≡ length out.old) }
    ensures { out.new
        ≡ tab (length out.old) (λ i. xor (get_or a.now i 0) (get_or b.now i 0)) }
{
    tabulate(out, |i| a[i] ^ b[i]);
}
