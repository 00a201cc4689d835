// The cells and the results of one block, read from a slice stored down columns and stored to one.
#![tactic(auto)]

ghost use Rattle.std.specs.Prelude.{◌≡◌, ℕ, ◌+◌, ◌*◌, ◌/◌, ◌<◌, ◌≤◌, length, get_or};
ghost use Rattle.slices.specs.Stores.{scatter};
ghost use Rattle.coverings.specs.Rule.{Number};
ghost use Rattle.tables.specs.Tables.{cell_at};
ghost use Rattle.kernel.specs.Kernel.{at};
ghost use Rattle.grid.specs.Grid.{cell_place, band_place, starts_of, gathered};

use std::array;

// The values of the block whose first cell is at `start`, in cell order.
pub fn cells_of(image: &[i64], height: usize, start: usize) -> [i64; 16]
    requires { start + 3 * height + 3 < length image.now }
    ensures { result ≡ gathered (cell_place height start) image.now }
{
    array::from_fn(|k| image[start + k / 4 * height + k % 4])
}

// Stores the values of a block, at 4 * label + i that of the i-th cell of the piece with that label, in the cells. So no array of the values in cell order is
// filled at places that are not known, and read again.
// Two wrong answers that the contract rules out: the values in the order of the labels; and a block beside this one.
pub fn put_pieces(out: &mut [i64], height: usize, start: usize, covering: u8, v: [i64; 16])
    requires { Number covering × (start + 3 * height + 3 < length out.old) }
    ensures { out.new ≡ scatter (λ k. cell_place height start (cell_at covering k)) (at v) 16 out.old }
{
    for (k, value) in v.iter().enumerate() {
        let cell = kernel::transform::cell_at(covering, k);
        let place = start + cell / 4 * height + cell % 4;
        out[place] = *value;
    }
}

// Where the results of a block begin in each band.
pub fn starts(height: usize, tall: usize, wide: usize, i: usize, j: usize) -> [usize; 4]
    requires { (height ≤ 512) × (tall ≤ height) × (wide ≤ 512) × (i < tall / 4) × (j < wide / 4) }
    ensures { result ≡ starts_of height tall wide i j }
{
    let low = j * 2 * height + i * 2;
    let right = wide / 2 * height;
    let down = tall / 2;
    [low, low + right, low + down, low + right + down]
}

// Stores the results of a block in the four bands.
pub fn put_results(out: &mut [i64], height: usize, begin: [usize; 4], results: [i64; 16])
    requires { (b : ℕ) → b < 4 → get_or begin b 0 + height + 1 < length out.old }
    ensures { out.new ≡ scatter (band_place height begin) (at results) 16 out.old }
{
    for (k, result) in results.iter().enumerate() {
        let place = begin[k / 4] + k % 4 / 2 * height + k % 4 % 2;
        out[place] = *result;
    }
}
