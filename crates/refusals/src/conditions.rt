// The conditions of rows 2, 3, 5 and 6: coefficients below q, and equal strings.
ghost use Rattle.std.specs.Prelude.{◌&&◌, ◌≡◌, length};
ghost use Rattle.refusals.specs.Reduced.{reduced as reduced_of};
ghost use Rattle.refusals.specs.Same.{same as same_of};

// Each coefficient is below q. All are read, whatever they are, and none decides a branch.
pub fn reduced(f: &[u16]) -> bool
    ensures { result ≡ reduced_of f.now }
{
    let mut all = true;
    for x in f {
        all &= *x < 3329;
    }
    all
}

// Both are read, whatever the first holds.
pub fn both_reduced(f: &[u16], g: &[u16]) -> bool
    ensures { result ≡ (reduced_of f.now && reduced_of g.now) }
{
    let first = reduced(f);
    let second = reduced(g);
    first & second
}

// Two strings of one length are equal. By the definition, where `==` would say it in other words.
pub fn same(a: &[u8], b: &[u8]) -> bool
    requires { length a.now ≡ length b.now }
    ensures { result ≡ same_of a.now b.now }
{
    a == b
}
