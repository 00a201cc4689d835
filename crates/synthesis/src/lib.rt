// Restoring: the levels merged from the last to the first into the numerators, and the numerators rounded to samples.
#![tactic(auto)]

ghost use Rattle.std.specs.Prelude.{◌≡◌, map, ℕ, ◌+◌, ◌*◌, ◌/◌, ◌^◌, ◌<◌, ◌≤◌, pos, nat_abs, length, get_or, replicate};
ghost use Rattle.slices.specs.Stores.{rectangles};
ghost use Rattle.kernel.specs.Kernel.{Within};
ghost use Rattle.pyramid.specs.Plane.{after, listed};
ghost use Rattle.pyramid.specs.Slices.{numerators_of, samples_of, nearest, held, sample_of};
ghost use Rattle.grid.specs.Grid.{band_place};
ghost use Rattle.synthesis.specs.Synthesis.{counted, weighted, merged_block, put_block, put_column, put_columns, Level, Mergeable, Restorable};

// A low-pass result once, a tetrolet coefficient `weight` times.
// Two wrong answers that the contract rules out: a low-pass result `weight` times; and each once.
pub fn count(k: usize, z: i64, weight: u64) -> i64
    requires { (weight ≤ 2 ^ 20) × (nat_abs (counted weight k z) ≤ 2 ^ 40) }
    ensures { result ≡ counted weight k z }
{
    if k < 4 { z } else { weight as i64 * z }
}

// The results of a block, those of bands 1 to 3 counted `weight` times.
fn results_of(image: &[i64], height: usize, begin: [usize; 4], weight: u64) -> [i64; 16]
    requires by_index { (b : ℕ) → b < 4 → get_or begin b 0 + height + 1 < length image.now }
    requires weight_bound { (weight ≤ 2 ^ 20) × Within (2 ^ 40) (weighted weight (band_place height begin) image.now) }
    ensures { result ≡ weighted weight (band_place height begin) image.now }
{
    let mut v = [0i64; 16];
    for k in 0..16 {
        let place = begin[k / 4] + k % 4 / 2 * height + k % 4 % 2;
        v[k] = count(k, image[place], weight);
    }
    v
}

// The values of the block in block row i, block column j, stored in its cells.
// Two wrong answers that the contract rules out: the covering of the block beside it; and the block turned.
fn merge_block(
    image: &[i64],
    height: usize,
    tall: usize,
    wide: usize,
    weight: u64,
    first: usize,
    coverings: &[u8],
    i: usize,
    j: usize,
    out: &mut [i64],
)
    requires level { Level height tall wide weight first coverings.now image.now }
    requires height_in_bounds { (wide * height ≤ length out.old) × (i < tall / 4) × (j < wide / 4) }
    ensures { out.new ≡ put_block height (merged_block height tall wide weight (after first (listed coverings.now)) image.now) i j out.old }
{
    let begin = grid::starts(height, tall, wide, i, j);
    let results = results_of(image, height, begin, weight);
    let values = kernel::transform::by_labels(results);
    grid::put_pieces(
        out,
        height,
        j * 4 * height + i * 4,
        coverings[first + (j * (tall / 4) + i)],
        values,
    );
}

// The blocks of block column j.
fn merge_column(
    image: &[i64],
    height: usize,
    tall: usize,
    wide: usize,
    weight: u64,
    first: usize,
    coverings: &[u8],
    j: usize,
    out: &mut [i64],
)
    requires level { Level height tall wide weight first coverings.now image.now }
    requires height_in_bounds { (wide * height ≤ length out.old) × (j < wide / 4) }
    ensures { out.new ≡ put_column height (merged_block height tall wide weight (after first (listed coverings.now)) image.now) j (tall / 4) out.old }
{
    for i in 0..tall / 4 {
        merge_block(
            image, height, tall, wide, weight, first, coverings, i, j, out,
        );
    }
}

// The blocks of a level, from the bands in `image` to the rectangle of `tall` rows and `wide` columns in `out`.
// Two wrong answers that the contract rules out: the last block column left out; and the blocks' coverings taken along rows.
fn merge_level(
    image: &[i64],
    height: usize,
    tall: usize,
    wide: usize,
    weight: u64,
    first: usize,
    coverings: &[u8],
    out: &mut [i64],
)
    requires level { Level height tall wide weight first coverings.now image.now }
    requires height_in_bounds { wide * height ≤ length out.old }
    ensures { out.new ≡ put_columns height (merged_block height tall wide weight (after first (listed coverings.now)) image.now) (tall / 4) (wide / 4) out.old }
{
    for j in 0..wide / 4 {
        merge_column(image, height, tall, wide, weight, first, coverings, j, out);
    }
}

// One level up: its bands, merged to the scratch, and the rectangle of `tall` rows and `wide` columns copied back.
// Two wrong answers that the contract rules out: the rectangle left in the scratch; and the entries outside the rectangle changed.
fn rise(
    height: usize,
    tall: usize,
    wide: usize,
    weight: u64,
    first: usize,
    coverings: &[u8],
    numerators: &mut [i64],
    scratch: &mut [i64],
)
    requires level { Level height tall wide weight first coverings.now numerators.old }
    requires scratch_len { length scratch.old ≡ length numerators.old }
    ensures scratch_after { scratch.new ≡ put_columns height (merged_block height tall wide weight (after first (listed coverings.now)) numerators.old) (tall / 4) (wide / 4) scratch.old }
    ensures numerators_after { numerators.new ≡ rectangles height tall wide (put_columns height (merged_block height tall wide weight (after first (listed coverings.now)) numerators.old) (tall / 4) (wide / 4) scratch.old) numerators.old }
{
    merge_level(
        numerators, height, tall, wide, weight, first, coverings, scratch,
    );
    slices::copy_rectangle(scratch, numerators, height, tall, wide);
}

// A plane becomes its numerators, in place: each level's bands merged, the last level first. The first level, most of the work, is called for apart, so that
// `rise` has two callers and stays a function of its own in the machine code. The scratch is left empty.
// Two wrong answers that the contract rules out: each level's W counted once; and the first level merged first.
pub fn synthesise(
    height: usize,
    width: usize,
    levels: usize,
    coverings: &[u8],
    numerators: &mut [i64],
    scratch: &mut [i64],
)
    requires mergeable { Mergeable levels height width (2 ^ 33) coverings.now numerators.old }
    requires scratch_len { length scratch.old ≡ width * height }
    ensures numerators_after { numerators.new ≡ numerators_of levels height width coverings.now numerators.old }
    ensures scratch_after { scratch.new ≡ replicate (width * height) (pos 0) }
{
    let mut first = coverings.len();
    let mut weight: u64 = 1;
    for left in (1..levels).rev() {
        let tall = height >> left;
        let wide = width >> left;
        first -= wide / 4 * (tall / 4);
        rise(
            height, tall, wide, weight, first, coverings, numerators, scratch,
        );
        weight *= 4;
    }
    rise(
        height, height, width, weight, 0, coverings, numerators, scratch,
    );
    slices::clear(scratch);
}

// 4 to the power `levels`. Two wrong answers that the contract rules out: 2 to that power; and 4 to one power less.
// Kept: `places` has it of a u32; each is one call of the library's `pow`.
pub fn power(levels: usize) -> u64
    requires { levels ≤ 8 }
    ensures { result ≡ 4 ^ levels }
{
    4u64.pow(levels as u32)
}

// A numerator over 4 to the power `levels`, rounded to nearest, halves upward: the shift rounds down, below zero too.
// Two wrong answers that the contract rules out: rounding toward zero; and halves downward.
fn nearest_to(y: i64, levels: usize, unit: u64) -> i64
    requires { (nat_abs y ≤ 2 ^ 33) × (levels ≤ 8) × (unit ≡ 4 ^ levels) }
    ensures { result ≡ nearest levels y }
{
    (2 * y + unit as i64) >> (2 * levels + 1)
}

// A rounded value held to 0 and 4,095.
fn hold(n: i64) -> u16
    ensures { result ≡ held n }
{
    n.clamp(0, 4095) as u16
}

// The sample of a numerator. `unit` is 4 to the power `levels`.
// Two wrong answers that the contract rules out: the numerator held before it is rounded; and no half added.
pub fn sample(y: i64, levels: usize, unit: u64) -> u16
    requires { (nat_abs y ≤ 2 ^ 33) × (levels ≤ 8) × (unit ≡ 4 ^ levels) }
    ensures { result ≡ sample_of levels y }
{
    hold(nearest_to(y, levels, unit))
}

// The samples of numerators. Two wrong answers that the contract rules out: no half added; and the last sample left as it was.
fn round(numerators: &[i64], levels: usize, samples: &mut [u16])
    requires levels_bound { (levels ≤ 8) × (length samples.old ≡ length numerators.now) }
    requires by_index { (k : ℕ) → k < length numerators.now → nat_abs (get_or numerators.now k (pos 0)) ≤ 2 ^ 33 }
    ensures { samples.new ≡ map (sample_of levels) numerators.now }
{
    let unit = power(levels);
    for (i, y) in numerators.iter().enumerate() {
        samples[i] = sample(*y, levels, unit);
    }
}

// The numerators and the samples of a plane. The scratch is left empty.
// Two wrong answers that the contract rules out: the samples of the plane itself; and the scratch left as the levels used it.
pub fn restore_all(
    height: usize,
    width: usize,
    levels: usize,
    plane: &[i64],
    coverings: &[u8],
    numerators: &mut [i64],
    samples: &mut [u16],
    scratch: &mut [i64],
)
    requires restorable { Restorable levels height width coverings.now plane.now }
    requires numerators_len { (length numerators.old ≡ width * height) × (length samples.old ≡ width * height) × (length scratch.old ≡ width * height) }
    ensures numerators_after { numerators.new ≡ numerators_of levels height width coverings.now plane.now }
    ensures samples_after { samples.new ≡ samples_of levels height width coverings.now plane.now }
    ensures scratch_after { scratch.new ≡ replicate (width * height) (pos 0) }
{
    slices::copy(plane, numerators);
    synthesise(height, width, levels, coverings, numerators, scratch);
    round(numerators, levels, samples);
}
