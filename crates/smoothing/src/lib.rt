// One smoothing step: the entry smooth. Its checks are those of restoring, with one for the step. The work is done in two slices: the numerators in the
// result, their gradient in the scratch, which is decomposed by the picture's coverings; then the one plane whose numerators the result is. That this is 16 Y
// less p times G is the law `mixed` of the crate `variation`, which has the definitions. What the entry answers and leaves is in specs/Entry.antt.
#![tactic(auto)]

ghost use Rattle.std.specs.Prelude.{◌≡◌, true, cond, List, ℕ, ◌+◌, ◌*◌, ◌-◌, ◌^◌, ◌<◌, ◌≤◌, ltb, ℤ, pos, nat_abs, ◌-ℤ◌, length, get_or, replicate};
ghost use Rattle.refusals.specs.Refusal.{answer_of};
ghost use Rattle.integers.specs.Lists.{half};
ghost use Rattle.pyramid.specs.Plane.{halved};
ghost use Rattle.pyramid.specs.Slices.{image_of};
ghost use Rattle.strips.specs.Strip.{strip_of};
ghost use Rattle.synthesis.specs.Synthesis.{Restorable};
ghost use Rattle.variation.specs.Smooth.{sign_of, against, gradient, smoothed_of};
ghost use Rattle.smoothing.specs.Mixed.{gradient_of, mixed_entry, Mixes, mixed_of};
ghost use Rattle.smoothing.specs.Entry.{smooth_refusal, Smoothed};
ghost use Rattle.smoothing.specs.Claims.{SmoothingLaws};

use refusals::Refusal;

// How many times the result counts a numerator. Its contract has the laws of the entry, which are so a part of what the check proves.
pub fn weight() -> u64
    ensures { (result ≡ 16) × SmoothingLaws }
{
    16
}

// The sign of a difference, which is not formed. Two wrong answers that the contract rules out: 1 for equal numbers; and the sign the other way round.
// Kept: two comparisons; a match on `cmp` has three arms and is no plainer.
fn sign(here: i64, there: i64) -> i64
    ensures { result ≡ sign_of (here -ℤ there) }
{
    if here < there {
        return -1;
    }
    if there < here {
        return 1;
    }
    0
}

// The sign of an entry less the one `back` places before it, where that is inside the picture: only there is its place worked out.
fn against_before(values: &[i64], inside: bool, here: usize, back: usize) -> i64
    requires { (here < length values.now) × (inside ≡ true → back ≤ here) }
    ensures { result ≡ against inside (get_or values.now here (pos 0)) (get_or values.now (here - back) (pos 0)) }
{
    if inside {
        return sign(values[here], values[here - back]);
    }
    0
}

// The sign of an entry less another, where that is inside the picture.
fn against(values: &[i64], inside: bool, here: usize, there: usize) -> i64
    requires { (here < length values.now) × (inside ≡ true → there < length values.now) }
    ensures { result ≡ against inside (get_or values.now here (pos 0)) (get_or values.now there (pos 0)) }
{
    if inside {
        return sign(values[here], values[there]);
    }
    0
}

// The gradient at a cell. Two wrong answers that the contract rules out: the last row against the next column's first; and the sum of the signs once.
fn slope(values: &[i64], height: usize, width: usize, row: usize, col: usize) -> i64
    requires { (row < height) × (col < width) × (height ≤ 512) × (width ≤ 512) × (length values.now ≡ width * height) }
    ensures { result ≡ gradient height width (image_of height values.now) row col }
{
    let k = col * height + row;
    let above = against_before(values, 0 < row, k, 1);
    let below = against(values, row + 1 < height, k, k + 1);
    let left = against_before(values, 0 < col, k, height);
    let right = against(values, col + 1 < width, k, k + height);
    2 * (above + below + left + right)
}

// The gradient in a column, of which the columns before are there. It stays a function of its own in the machine code.
#[inline(never)]
fn slope_column(values: &[i64], height: usize, width: usize, col: usize, out: &mut [i64])
    requires { (col < width) × (height ≤ 512) × (width ≤ 512) × (length values.now ≡ width * height) × (length out.old ≡ width * height) }
    ensures { (old : List ℤ) → length old ≡ width * height → out.old ≡ half (gradient_of height width values.now) old (col * height) → out.new ≡ half (gradient_of height width values.now) old (col * height + height) }
{
    let first = col * height;
    for row in 0..height {
        out[first + row] = slope(values, height, width, row, col);
    }
}

// The gradient of all cells.
// Two wrong answers that the contract rules out: the last column left as it was; and the gradient along rows.
fn slopes(values: &[i64], height: usize, width: usize, out: &mut [i64])
    requires { (height ≤ 512) × (width ≤ 512) × (length values.now ≡ width * height) × (length out.old ≡ width * height) }
    ensures { out.new ≡ gradient_of height width values.now }
{
    for col in 0..width {
        slope_column(values, height, width, col, out);
    }
}

// A number, or 0 in its place.
fn unless(spared: bool, d: i64) -> i64
    ensures { result ≡ cond spared (pos 0) d }
{
    if spared {
        return 0;
    }
    d
}

// One entry of the plane that is restored. Two wrong answers that the contract rules out: a kept entry moved; and 8 times the entry.
fn mixed_entry(z: i64, d: i64, low: bool, step: u64) -> i64
    requires { (nat_abs z ≤ 2 ^ 40) × (nat_abs d ≤ 2 ^ 40) × (step ≤ 255) }
    ensures { result ≡ mixed_entry step low z d }
{
    let moved = unless(low | !integers::is_zero(z), d);
    16 * z - step as i64 * moved
}

// A run of the plane that is restored, all of it in band 0 or none, of which the entries before are there.
fn mix_run(
    plane: &[i64],
    decomposed: &[i64],
    first: usize,
    count: usize,
    low: bool,
    step: u64,
    out: &mut [i64],
)
    requires count_in_bounds { (first + count ≤ length out.old) × (length out.old ≤ 262144) × (length plane.now ≡ length out.old) × (length decomposed.now ≡ length out.old) × (step ≤ 255) }
    requires by_index { ((k : ℕ) → k < length out.old → nat_abs (get_or plane.now k (pos 0)) ≤ 2 ^ 40) × ((k : ℕ) → k < length out.old → nat_abs (get_or decomposed.now k (pos 0)) ≤ 2 ^ 40) }
    ensures { (new old : List ℤ) → Mixes step low plane.now decomposed.now first count new → length new ≡ length old → length old ≡ length out.old → out.old ≡ half new old first → out.new ≡ half new old (first + count) }
{
    for i in 0..count {
        let k = first + i;
        out[k] = mixed_entry(plane[k], decomposed[k], low, step);
    }
}

// How many rows of a column are in band 0.
fn low_rows(tall: usize, wide: usize, col: usize) -> usize
    ensures { result ≡ cond (ltb col wide) tall 0 }
{
    if col < wide {
        return tall;
    }
    0
}

// A column of the plane that is restored, of which the columns before are there: its rows in band 0, then the others.
fn mix_column(
    plane: &[i64],
    decomposed: &[i64],
    height: usize,
    width: usize,
    levels: usize,
    tall: usize,
    wide: usize,
    step: u64,
    col: usize,
    out: &mut [i64],
)
    requires col_lt_width { (col < width) × (height ≤ 512) × (width ≤ 512) × (tall ≡ halved levels height) × (wide ≡ halved levels width) × (step ≤ 255) }
    requires plane_len { (length plane.now ≡ width * height) × (length decomposed.now ≡ width * height) × (length out.old ≡ width * height) }
    requires by_index { ((k : ℕ) → k < width * height → nat_abs (get_or plane.now k (pos 0)) ≤ 2 ^ 40) × ((k : ℕ) → k < width * height → nat_abs (get_or decomposed.now k (pos 0)) ≤ 2 ^ 40) }
    ensures { (old : List ℤ) → length old ≡ width * height → out.old ≡ half (mixed_of levels height width step plane.now decomposed.now) old (col * height) → out.new ≡ half (mixed_of levels height width step plane.now decomposed.now) old (col * height + height) }
{
    let first = col * height;
    let low = low_rows(tall, wide, col);
    mix_run(plane, decomposed, first, low, true, step, out);
    mix_run(
        plane,
        decomposed,
        first + low,
        height - low,
        false,
        step,
        out,
    );
}

// The plane that is restored: 16 times the kept plane, less the step times the gradient where that is neither of band 0 nor kept.
// Two wrong answers that the contract rules out: band 0 moved; and the entries moved where the gradient is 0 and not the plane.
fn mix(
    plane: &[i64],
    decomposed: &[i64],
    height: usize,
    width: usize,
    levels: usize,
    step: u64,
    out: &mut [i64],
)
    requires levels_bound { (levels ≤ 8) × (height ≤ 512) × (width ≤ 512) × (step ≤ 255) }
    requires plane_len { (length plane.now ≡ width * height) × (length decomposed.now ≡ width * height) × (length out.old ≡ width * height) }
    requires by_index { ((k : ℕ) → k < width * height → nat_abs (get_or plane.now k (pos 0)) ≤ 2 ^ 40) × ((k : ℕ) → k < width * height → nat_abs (get_or decomposed.now k (pos 0)) ≤ 2 ^ 40) }
    ensures { out.new ≡ mixed_of levels height width step plane.now decomposed.now }
{
    let tall = height >> levels;
    let wide = width >> levels;
    for col in 0..width {
        mix_column(
            plane, decomposed, height, width, levels, tall, wide, step, col, out,
        );
    }
}

// The step itself: numerators, gradient, its decomposition, the mixed plane, its numerators. The scratch is left empty.
// Two wrong answers that the contract rules out: p times G added; and the scratch left with the gradient.
fn smooth_all(
    height: usize,
    width: usize,
    levels: usize,
    plane: &[i64],
    coverings: &[u8],
    step: u64,
    res: &mut [i64],
    scratch: &mut [i64],
)
    requires restorable { Restorable levels height width coverings.now plane.now × (1 ≤ width) × (step ≤ 255) }
    requires res_len { (length res.old ≡ width * height) × (length scratch.old ≡ width * height) }
    ensures res_after { res.new ≡ smoothed_of levels height width coverings.now step plane.now }
    ensures scratch_after { scratch.new ≡ replicate (width * height) (pos 0) }
{
    slices::copy(plane, res);
    synthesis::synthesise(height, width, levels, coverings, res, scratch);
    slopes(res, height, width, scratch);
    given::decompose_by(height, width, levels, coverings, scratch, res);
    mix(plane, scratch, height, width, levels, step, res);
    synthesis::synthesise(height, width, levels, coverings, res, scratch);
}

// The checks of smooth. Document 02, wish 11: "Checks are 1, 2, 3, 5, 6; 19 when p is over 255, after 6."
fn smooth_checks(
    height: usize,
    width: usize,
    levels: usize,
    plane: &[i64],
    coverings: &[u8],
    step: u64,
    res: &[i64],
    scratch: &[i64],
) -> Result<(), Refusal>
    ensures { answer_of result ≡ smooth_refusal (strip_of height width levels plane.now coverings.now) step res.now scratch.now }
{
    places::checks::size_checks(height, width, levels)?;
    let area = width * height;
    let framed = coder::is_framed(height, width, levels, plane, coverings)
        & ((res.len() == area) & (scratch.len() == area));
    if !framed {
        return Err(Refusal::Frame);
    }
    if !places::checks::all_numbers(coverings) {
        return Err(Refusal::Covering);
    }
    if !ranges::in_range(plane, height as u32, width as u32, levels as u32) {
        return Err(Refusal::Coefficient);
    }
    if variation::largest_step() < step {
        return Err(Refusal::Step);
    }
    Ok(())
}

// One smoothing step of a kept plane: 16 times its numerators, less the step times the total variation's gradient, where that moves neither band 0 nor a kept
// entry. The scratch is left empty.
// Two wrong answers that the contract rules out: 19 for the step 255; and what smoothing by coverings chosen anew gives.
pub fn smooth(
    height: usize,
    width: usize,
    levels: usize,
    plane: &[i64],
    coverings: &[u8],
    step: u64,
    res: &mut [i64],
    scratch: &mut [i64],
) -> Result<(), Refusal>
    ensures { Smoothed (strip_of height width levels plane.now coverings.now) step res.old res.new scratch.old scratch.new (answer_of result) }
{
    smooth_checks(height, width, levels, plane, coverings, step, res, scratch)?;
    smooth_all(height, width, levels, plane, coverings, step, res, scratch);
    Ok(())
}
