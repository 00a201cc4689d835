// The tetrolet transform of one block by a given covering, and its inverse.
ghost use Rattle.std.specs.Prelude.{◌≡◌, List, ◌+◌, ◌*◌, ◌^◌, ◌≤◌, ◌<◌, ℤ, nat_abs};
ghost use Rattle.coverings.specs.Words.{word_of};
ghost use Rattle.coverings.specs.Rule.{Number};
ghost use Rattle.block.specs.Block.{sign_row, forward};
ghost use Rattle.tables.specs.Tables.{cell_at};
ghost use Rattle.kernel.specs.Kernel.{at, Within, four, Bands, piecewise, forward_of, inverse_of};

// The four signed sums of four numbers: the low-pass sum and the three W.
#[derive(Drop)]
pub struct Sums {
    pub low: i64,
    pub w1: i64,
    pub w2: i64,
    pub w3: i64,
}

// Applies the four sign rows to four numbers.
// Two wrong answers that the contract rules out: W1 and W2 exchanged; and a W3 whose last sign is minus.
pub fn signed_sums(a: i64, b: i64, c: i64, d: i64) -> Sums
    requires { (nat_abs a ≤ 2 ^ 40) × (nat_abs b ≤ 2 ^ 40) × (nat_abs c ≤ 2 ^ 40) × (nat_abs d ≤ 2 ^ 40) }
    ensures { Bands (λ k. sign_row k (four a b c d)) result.low result.w1 result.w2 result.w3 }
{
    let low = a + b + c + d;
    let w1 = a + b - c - d;
    let w2 = a - b + c - d;
    let w3 = a - b - c + d;
    Sums { low, w1, w2, w3 }
}

// The cell of a covering at 4 * label + i: the i-th cell of the piece with that label.
// Two wrong answers that the contract rules out: that of the covering before; and the pieces by their names.
pub fn cell_at(covering: u8, k: usize) -> usize
    requires { Number covering × (k < 16) }
    ensures { (result ≡ cell_at covering k) × (result < 16) }
{
    let n = covering as usize;
    tables::cells()[(n - 1) * 16 + k] as usize
}

// The low-pass sum and the tetrolet coefficients of the piece with a given label. The values are lent: handed over they would be copied for each piece.
fn piece(covering: u8, label: usize, v: &[i64; 16]) -> Sums
    requires { Number covering × (label < 4) × Within (2 ^ 40) v.now }
    ensures { Bands (λ b. forward (word_of covering) (at v.now) b label) result.low result.w1 result.w2 result.w3 }
{
    let a = cell_at(covering, label * 4);
    let b = cell_at(covering, label * 4 + 1);
    let c = cell_at(covering, label * 4 + 2);
    let d = cell_at(covering, label * 4 + 3);
    signed_sums(v[a], v[b], v[c], v[d])
}

// The transform of a block by a covering: the low-pass sums and the tetrolet coefficients at 4 * band + label.
// Two wrong answers that the contract rules out: the pieces in the order of their names; and the results at 4 * label + band.
pub fn forward(covering: u8, v: [i64; 16]) -> [i64; 16]
    requires { Number covering × Within (2 ^ 40) v }
    ensures { result ≡ forward_of covering v }
{
    let a = piece(covering, 0, &v);
    let b = piece(covering, 1, &v);
    let c = piece(covering, 2, &v);
    let d = piece(covering, 3, &v);
    [
        a.low, b.low, c.low, d.low, a.w1, b.w1, c.w1, d.w1, a.w2, b.w2, c.w2, d.w2, a.w3, b.w3,
        c.w3, d.w3,
    ]
}

// The four values of the piece with a given label, times four, from its low-pass sum and its tetrolet coefficients.
fn unsum(t: [i64; 16], label: usize) -> Sums
    requires { (label < 4) × Within (2 ^ 40) t }
    ensures { Bands (λ i. sign_row i (λ b. at t (b * 4 + label))) result.low result.w1 result.w2 result.w3 }
{
    signed_sums(t[label], t[4 + label], t[8 + label], t[12 + label])
}

// The values of the four pieces: at 4 * label + i that of the i-th cell.
// Two wrong answers that the contract rules out: the values at 4 * i + label; and those of one piece for all four.
pub fn by_labels(t: [i64; 16]) -> [i64; 16]
    requires { Within (2 ^ 40) t }
    ensures { result ≡ piecewise t }
{
    let a = unsum(t, 0);
    let b = unsum(t, 1);
    let c = unsum(t, 2);
    let d = unsum(t, 3);
    [
        a.low, a.w1, a.w2, a.w3, b.low, b.w1, b.w2, b.w3, c.low, c.w1, c.w2, c.w3, d.low, d.w1,
        d.w2, d.w3,
    ]
}

// The values of the four pieces in cell order.
// Two wrong answers that the contract rules out: the order of the labels; and the cells of another covering.
pub fn by_cells(covering: u8, labelled: [i64; 16]) -> [i64; 16]
    requires { Number covering }
    ensures { (t : List ℤ) → labelled ≡ piecewise t → result ≡ inverse_of covering t }
{
    let mut values = [0i64; 16];
    for (k, value) in labelled.iter().enumerate() {
        let cell = cell_at(covering, k);
        values[cell] = *value;
    }
    values
}

// The values from the results of a block by a covering, in cell order: of the results of values, four times the values.
// Two wrong answers that the contract rules out: the values in the order of the labels; and the values divided by four.
pub fn inverse(covering: u8, t: [i64; 16]) -> [i64; 16]
    requires { Number covering × Within (2 ^ 40) t }
    ensures { result ≡ inverse_of covering t }
{
    let labelled = by_labels(t);
    by_cells(covering, labelled)
}
