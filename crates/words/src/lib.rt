// Words: bytes of two lent texts compared eight at a time. Document 02, wish 3: "a word of eight bytes at a time". The sum of the eight bytes, each with
// its weight and without a loop, is compiled to one load. The odd bytes are the caller's.
#![tactic(auto)]

ghost use Rattle.std.specs.Prelude.{◌≡◌, ℕ, ◌+◌, ◌*◌, ◌/◌, ◌<◌, ◌≤◌, length, drop, get_or};
ghost use Rattle.words.specs.Words.{agree, packed};

// Eight bytes as one number, the first one lowest.
// Kept: `u64::from_le_bytes` would do it; the edit word_mixes_bytes turns one of these weights.
fn word_of(a: u8, b: u8, c: u8, d: u8, e: u8, f: u8, g: u8, h: u8) -> u64
    ensures { result ≡ a + 256 * (b + 256 * (c + 256 * (d + 256 * (e + 256 * (f + 256 * (g + 256 * h)))))) }
{
    a as u64
        + b as u64 * 256
        + c as u64 * 65536
        + d as u64 * 16777216
        + e as u64 * 4294967296
        + f as u64 * 1099511627776
        + g as u64 * 281474976710656
        + h as u64 * 72057594037927936
}

// The eight bytes from `at` on.
fn word_at(s: &[u8], at: usize) -> u64
    requires { at + 8 ≤ length s.now }
    ensures { (result ≡ packed 8 (drop at s.now)) × ((k : ℕ) → get_or s.now k 0 < 256) }
{
    word_of(
        s[at],
        s[at + 1],
        s[at + 2],
        s[at + 3],
        s[at + 4],
        s[at + 5],
        s[at + 6],
        s[at + 7],
    )
}

// Whether the eight bytes of s from `at` on are those of t from `from` on.
fn same_word(s: &[u8], at: usize, t: &[u8], from: usize) -> bool
    requires { (at + 8 ≤ length s.now) × (from + 8 ≤ length t.now) }
    ensures { result ≡ agree 8 (drop at s.now) (drop from t.now) }
{
    word_at(s, at) == word_at(t, from)
}

// Whether the whole words of t, all its bytes but at most seven, stand at `at` in s. Two wrong answers that the contract rules out: true for the same
// bytes in another order; and true where the last byte of a word alone differs.
pub fn same_words(s: &[u8], at: usize, t: &[u8]) -> bool
    requires { at + length t.now ≤ length s.now }
    ensures { result ≡ agree (length t.now / 8 * 8) (drop at s.now) t.now }
{
    let whole = t.len() / 8 * 8;
    for i in (0..whole).step_by(8) {
        if !same_word(s, at + i, t, i) {
            return false;
        }
    }
    true
}
