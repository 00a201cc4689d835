// The samples of a window, block by block: from the last level down, each block that touches the window is restored by value, once; the others are passed
// over. Nothing but the window's slice is lent to be stored to. What is promised is told cell by cell (specs/Shown.antt): the slice shows the picture there.
#![tactic(auto)]

ghost use Rattle.std.specs.Prelude.{◌≡◌, ℕ, ◌+◌, ◌*◌, ◌-◌, ◌/◌, ◌^◌, ◌<◌, ◌≤◌, T, pos, nat_abs, length, get_or};
ghost use Rattle.pyramid.specs.Plane.{Image, halved};
ghost use Rattle.pyramid.specs.Slices.{sample_of};
ghost use Rattle.pyramid.specs.Behind.{quad_of, block_list};
ghost use Rattle.synthesis.specs.Synthesis.{Restorable};
ghost use Rattle.blockwise.specs.Node.{Block, behind};
ghost use Rattle.windows.specs.Shown.{Inside, touching, holding, rounded, sample_at, Shown, Kept, Filled};

use blockwise::Node;

// A window: its first row and column, its height and width.
#[derive(Clone, Copy)]
pub struct View {
    pub top: usize,
    pub left: usize,
    pub tall: usize,
    pub wide: usize,
}

// The block row that a row of the picture is in, and the block column of a column; d is the level less one.
fn block_of(a: usize, d: usize) -> usize
    requires { d ≤ 8 }
    ensures { result ≡ halved d (a / 4) }
{
    (a / 4) >> d
}

// Whether a block touches the window.
// Two wrong answers that the contract rules out: no for the block of the window's last row; and yes for every block.
fn touches(v: View, d: usize, i: usize, j: usize) -> bool
    requires { (d ≤ 8) × Inside v 512 512 }
    ensures { result ≡ touching v d i j }
{
    if i < block_of(v.top, d) {
        return false;
    }
    if block_of(v.top + v.tall - 1, d) < i {
        return false;
    }
    if j < block_of(v.left, d) {
        return false;
    }
    j <= block_of(v.left + v.wide - 1, d)
}

// The sample of a numerator, stored at the place that row y, column x of the picture has in the window.
// Two wrong answers that the contract rules out: the numerator stored without rounding; and the window's rows and columns exchanged.
fn store_cell(
    numerator: i64,
    v: View,
    y: usize,
    x: usize,
    levels: usize,
    unit: u64,
    samples: &mut [u16],
)
    requires inside { Inside v 512 512 × (length samples.old ≡ v.wide * v.tall) }
    requires top_le_y { (v.top ≤ y) × (y < v.top + v.tall) × (v.left ≤ x) × (x < v.left + v.wide) }
    requires levels_bound { (levels ≤ 8) × (unit ≡ 4 ^ levels) × (nat_abs numerator ≤ 2 ^ 33) }
    ensures { (g : ℕ → ℕ → ℕ) → sample_of levels numerator ≡ g y x → Kept v g samples.old samples.new × Shown v g samples.new y x }
{
    let place = (x - v.left) * v.tall + (y - v.top);
    samples[place] = synthesis::sample(numerator, levels, unit);
}

// The samples of column x, in block row i of the first level, as far as the window has them.
// Two wrong answers that the contract rules out: the block's last row left out; and that of the next block besides.
fn store_column(
    values: &[i64; 16],
    v: View,
    i: usize,
    x: usize,
    levels: usize,
    unit: u64,
    samples: &mut [u16],
)
    requires inside { Inside v 512 512 × (length samples.old ≡ v.wide * v.tall) }
    requires levels_bound { (levels ≤ 8) × (unit ≡ 4 ^ levels) × (i ≤ 512) × (v.left ≤ x) × (x < v.left + v.wide) }
    requires by_index { (a : ℕ) → a < 16 → nat_abs (get_or values.now a (pos 0)) ≤ 2 ^ 33 }
    ensures { (A : Image) → values.now ≡ block_list A i (x / 4) → Kept v (rounded levels A) samples.old samples.new × ((y : ℕ) → y / 4 ≡ i → Shown v (rounded levels A) samples.new y x) }
{
    let begin = v.top.max(i * 4);
    let end = (v.top + v.tall).min(i * 4 + 4);
    for y in begin..end {
        store_cell(values[x % 4 * 4 + y % 4], v, y, x, levels, unit, samples);
    }
}

// The samples of a block of the first level, as far as the window has them.
fn store_part(
    values: &[i64; 16],
    v: View,
    i: usize,
    j: usize,
    levels: usize,
    unit: u64,
    samples: &mut [u16],
)
    requires inside { Inside v 512 512 × (length samples.old ≡ v.wide * v.tall) }
    requires levels_bound { (levels ≤ 8) × (unit ≡ 4 ^ levels) × (i ≤ 512) × (j ≤ 512) }
    requires by_index { (a : ℕ) → a < 16 → nat_abs (get_or values.now a (pos 0)) ≤ 2 ^ 33 }
    ensures { (A : Image) → values.now ≡ block_list A i j → Filled v (rounded levels A) 0 i j samples.old samples.new }
{
    let begin = v.left.max(j * 4);
    let end = (v.left + v.wide).min(j * 4 + 4);
    for x in begin..end {
        store_column(values, v, i, x, levels, unit, samples);
    }
}

// The samples of column x, in block row i of the first level, where the window has all four.
// Kept: `store_column` would do, but a loop whose ends the window sets is not unrolled (docs/PERFORMANCE.md, "Steps on the way").
fn store_four(
    values: &[i64; 16],
    v: View,
    i: usize,
    x: usize,
    levels: usize,
    unit: u64,
    samples: &mut [u16],
)
    requires inside { Inside v 512 512 × (length samples.old ≡ v.wide * v.tall) }
    requires levels_bound { (levels ≤ 8) × (unit ≡ 4 ^ levels) × (i ≤ 512) × (v.left ≤ x) × (x < v.left + v.wide) × (v.top ≤ i * 4) × (i * 4 + 4 ≤ v.top + v.tall) }
    requires by_index { (a : ℕ) → a < 16 → nat_abs (get_or values.now a (pos 0)) ≤ 2 ^ 33 }
    ensures { (A : Image) → values.now ≡ block_list A i (x / 4) → Kept v (rounded levels A) samples.old samples.new × ((y : ℕ) → y / 4 ≡ i → Shown v (rounded levels A) samples.new y x) }
{
    for r in 0..4 {
        store_cell(
            values[x % 4 * 4 + r],
            v,
            i * 4 + r,
            x,
            levels,
            unit,
            samples,
        );
    }
}

// The samples of a block of the first level that the window has all of, as it has most blocks where it is large: four columns of four, whatever the window.
// Kept: as `store_four`, apart from `store_part` for its speed.
fn store_whole(
    values: &[i64; 16],
    v: View,
    i: usize,
    j: usize,
    levels: usize,
    unit: u64,
    samples: &mut [u16],
)
    requires inside { Inside v 512 512 × (length samples.old ≡ v.wide * v.tall) × T (holding v i j) }
    requires levels_bound { (levels ≤ 8) × (unit ≡ 4 ^ levels) × (i ≤ 512) × (j ≤ 512) }
    requires by_index { (a : ℕ) → a < 16 → nat_abs (get_or values.now a (pos 0)) ≤ 2 ^ 33 }
    ensures { (A : Image) → values.now ≡ block_list A i j → Filled v (rounded levels A) 0 i j samples.old samples.new }
{
    for c in 0..4 {
        store_four(values, v, i, j * 4 + c, levels, unit, samples);
    }
}

// Whether the window has all of a block of the first level.
fn holds(v: View, i: usize, j: usize) -> bool
    requires { Inside v 512 512 × (i ≤ 512) × (j ≤ 512) }
    ensures { result ≡ holding v i j }
{
    let rows = (v.top <= i * 4) & (i * 4 + 4 <= v.top + v.tall);
    let columns = (v.left <= j * 4) & (j * 4 + 4 <= v.left + v.wide);
    rows & columns
}

// The samples of a block of the first level, by its values.
fn store_block(
    values: &[i64; 16],
    v: View,
    i: usize,
    j: usize,
    levels: usize,
    unit: u64,
    samples: &mut [u16],
)
    requires inside { Inside v 512 512 × (length samples.old ≡ v.wide * v.tall) }
    requires levels_bound { (levels ≤ 8) × (unit ≡ 4 ^ levels) × (i ≤ 512) × (j ≤ 512) }
    requires by_index { (a : ℕ) → a < 16 → nat_abs (get_or values.now a (pos 0)) ≤ 2 ^ 33 }
    ensures { (A : Image) → values.now ≡ block_list A i j → Filled v (rounded levels A) 0 i j samples.old samples.new }
{
    if holds(v, i, j) {
        store_whole(values, v, i, j, levels, unit, samples);
    } else {
        store_part(values, v, i, j, levels, unit, samples);
    }
}

// The samples of a block, as far as the window has them: none where it does not touch the window; those of its values at the first level; and those of its
// four blocks below at any other.
// Two wrong answers that the contract rules out: a block passed over that touches the window; and one block below left out.
fn fill(
    plane: &[i64],
    coverings: &[u8],
    v: View,
    k: Node,
    low: [i64; 4],
    unit: u64,
    samples: &mut [u16],
)
    requires restorable { Restorable k.levels k.height k.width coverings.now plane.now × Block k × (unit ≡ 4 ^ k.levels) }
    requires low_value { low ≡ quad_of (behind k k.level coverings.now plane.now) k.i k.j }
    requires inside { Inside v 512 512 × (length samples.old ≡ v.wide * v.tall) }
    ensures { Filled v (sample_at k.levels k.height k.width coverings.now plane.now) (k.level - 1) k.i k.j samples.old samples.new }
{
    if !touches(v, k.level - 1, k.i, k.j) {
        return;
    }
    let results = blockwise::results(plane, k, low);
    let pieces = kernel::transform::by_labels(results);
    let values = blockwise::values(coverings, k, pieces);
    if k.level == 1 {
        store_block(&values, v, k.i, k.j, k.levels, unit, samples);
        return;
    }
    for q in 0..4 {
        let below = blockwise::child(k, q);
        let quad = blockwise::quarter(values, q);
        fill(plane, coverings, v, below, quad, unit, samples);
    }
}

// The samples of the blocks of block column j of the last level, as far as the window has them.
fn fill_column(
    height: usize,
    width: usize,
    levels: usize,
    plane: &[i64],
    coverings: &[u8],
    v: View,
    j: usize,
    unit: u64,
    samples: &mut [u16],
)
    requires restorable { Restorable levels height width coverings.now plane.now × Inside v height width × (length samples.old ≡ v.wide * v.tall) }
    requires j_bound { (j < halved (levels - 1) width / 4) × (unit ≡ 4 ^ levels) }
    ensures { Kept v (sample_at levels height width coverings.now plane.now) samples.old samples.new × ((y x : ℕ) → halved (levels - 1) (x / 4) ≡ j → Shown v (sample_at levels height width coverings.now plane.now) samples.new y x) }
{
    let first = block_of(v.top, levels - 1);
    let last = block_of(v.top + v.tall - 1, levels - 1);
    for i in first..last + 1 {
        let k = blockwise::first_node(levels, height, width, coverings.len(), i, j);
        let low = blockwise::last(plane, height, i, j);
        fill(plane, coverings, v, k, low, unit, samples);
    }
}

// The samples of a window. Two wrong answers that the contract rules out: its last block column left out; and the window stored along rows.
pub fn fill_window(
    height: usize,
    width: usize,
    levels: usize,
    plane: &[i64],
    coverings: &[u8],
    v: View,
    samples: &mut [u16],
)
    requires restorable { Restorable levels height width coverings.now plane.now }
    requires inside { Inside v height width × (length samples.old ≡ v.wide * v.tall) }
    ensures { (length samples.new ≡ v.wide * v.tall) × ((y x : ℕ) → Shown v (sample_at levels height width coverings.now plane.now) samples.new y x) }
{
    let unit = synthesis::power(levels);
    let first = block_of(v.left, levels - 1);
    let last = block_of(v.left + v.wide - 1, levels - 1);
    for j in first..last + 1 {
        fill_column(height, width, levels, plane, coverings, v, j, unit, samples);
    }
}
