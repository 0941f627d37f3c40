// Bytes put one after the other into lent memory, so far as they fit; what does not fit is counted too.
#![tactic(auto)]

ghost use Rattle.std.specs.Prelude.{◌≡◌, [], ◌∷◌, ◌+◌, ◌≤◌, ◌<◌, length};
ghost use Rattle.ink.specs.Ink.{places, stored, Put};

// The bytes of a word at n, and the place after them.
pub fn put_all(out: &mut [u8], n: usize, word: &[u8]) -> usize
    requires { n + length word.now ≤ places }
    ensures { Put out.old n word.now result out.new }
{
    let mut m = n;
    for b in word {
        m = put(out, m, *b);
    }
    m
}

// The byte b at n, if there is room; and the place after it.
pub fn put(out: &mut [u8], n: usize, b: u8) -> usize
    requires { n < places }
    ensures { (result ≡ n + 1) × (out.new ≡ stored out.old n (b ∷ [])) }
{
    if n < out.len() {
        out[n] = b;
        return n + 1;
    }
    n + 1
}
