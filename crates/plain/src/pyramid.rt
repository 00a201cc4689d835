// Decomposing and restoring a picture, level by level.
use crate::block::{Corner, best_labels, label, piece_result, signs};
use crate::choice::{Rule, choose_by, every_covering};
use crate::tiles::piece_at;
use plain_frame::frame::{Extent, Frame, Spot, is_list, power};
use plain_frame::refusal::Refusal;
use plain_frame::safe::{add, at, over, plus, put, put_sample, size, times};

// Copies the upper left part that a level is about, the whole plane for level 1.
pub fn copy_image(from: &[i64], to: &mut [i64], extent: Extent, level: usize) {
    let part = extent.band(level.saturating_sub(1));
    for col in 0..part.width {
        for row in 0..part.height {
            let cell = extent.cell(row, col);
            put(to, cell, at(from, cell, 0));
        }
    }
}

// The places in the plane of the four results of a block's piece with this label: the low-pass, and right of it, below it and both the tetrolet coefficients.
fn result_places(extent: Extent, p: Spot, label: u32) -> [usize; 4] {
    let half = extent.band(p.level);
    let row = plus(times(2, p.row), (label % 2) as usize);
    let col = plus(times(2, p.col), (label / 2) as usize);
    let below = plus(row, half.height);
    let right = plus(col, half.width);
    [
        extent.cell(row, col),
        extent.cell(row, right),
        extent.cell(below, col),
        extent.cell(below, right),
    ]
}

// Decomposes a block by its covering.
fn split_block(
    words: &[u8],
    covering: u8,
    image: &[i64],
    plane: &mut [i64],
    extent: Extent,
    p: Spot,
) {
    let labels = best_labels(words, covering);
    for piece in 0u8..4 {
        let results = piece_result(words, covering, piece, image, Corner::of(extent, p));
        let places = result_places(extent, p, label(labels, piece));
        for (place, result) in places.iter().zip(results) {
            put(plane, *place, result);
        }
    }
}

// Chooses the covering of each block of a level, which stands in the image.
fn choose_level(
    words: &[u8],
    list: &[u8],
    rule: Rule,
    image: &[i64],
    coverings: &mut [u8],
    extent: Extent,
    level: usize,
) {
    let first = extent.blocks_before(level);
    for n in 0..extent.level_blocks(level) {
        let now = plus(first, n);
        let corner = Corner::of(extent, extent.level_block(level, n));
        let before = coverings.get(..now).unwrap_or(b"");
        let covering = choose_by(words, list, rule, image, corner, before, level);
        put(coverings, now, covering);
    }
}

// Works on each block of a level by its covering: what the level is about is copied, and from the copy each block is put into the plane anew.
fn each_block<F: Fn(u8, &[i64], &mut [i64], Spot)>(
    coverings: &[u8],
    plane: &mut [i64],
    scratch: &mut [i64],
    extent: Extent,
    level: usize,
    work: F,
)
    requires { F.IsAlwaysCallable work }
{
    copy_image(plane, scratch, extent, level);
    let first = extent.blocks_before(level);
    for n in 0..extent.level_blocks(level) {
        let covering = at(coverings, plus(first, n), 0);
        work(covering, scratch, plane, extent.level_block(level, n));
    }
}

// Decomposes a level by its coverings.
fn split_level(
    words: &[u8],
    coverings: &[u8],
    plane: &mut [i64],
    scratch: &mut [i64],
    extent: Extent,
    level: usize,
) {
    each_block(
        coverings,
        plane,
        scratch,
        extent,
        level,
        |covering, image, plane, p| split_block(words, covering, image, plane, extent, p),
    );
}

// Decomposes what stands in the plane by given coverings.
pub fn split_by(
    words: &[u8],
    coverings: &[u8],
    plane: &mut [i64],
    scratch: &mut [i64],
    frame: Frame,
) {
    for level in 1..plus(frame.levels, 1) {
        split_level(words, coverings, plane, scratch, frame.extent, level);
    }
    scratch.fill(0);
}

// Checks 1 to 4; the last three are the lengths of their slices.
fn check_picture(
    frame: Frame,
    samples: &[u16],
    plane: usize,
    coverings: usize,
    scratch: usize,
) -> Result<(), Refusal> {
    frame.check_lengths(plane, coverings)?;
    Refusal::Length.unless(samples.len() == plane && scratch == plane)?;
    Refusal::Sample.unless(samples.iter().all(|sample| *sample <= 4095))
}

// Decomposes a picture by the coverings of a list, if the slices are long enough and there is a rule: of each level the coverings are chosen first.
fn decompose_by<F: FnOnce() -> Result<Rule, Refusal>>(
    words: &[u8],
    list: &[u8],
    rule: F,
    frame: Frame,
    samples: &[u16],
    plane: &mut [i64],
    coverings: &mut [u8],
    scratch: &mut [i64],
) -> Result<(), Refusal>
    requires { F.IsAlwaysCallable rule }
{
    check_picture(frame, samples, plane.len(), coverings.len(), scratch.len())?;
    let rule = rule()?;
    for (value, sample) in plane.iter_mut().zip(samples) {
        *value = i64::from(*sample);
    }
    for level in 1..plus(frame.levels, 1) {
        choose_level(words, list, rule, plane, coverings, frame.extent, level);
        split_level(words, coverings, plane, scratch, frame.extent, level);
    }
    scratch.fill(0);
    Ok(())
}

// Decomposes a picture without a tolerance. `words` are those of `list_words`.
pub fn decompose(
    words: &[u8],
    height: usize,
    width: usize,
    levels: usize,
    samples: &[u16],
    plane: &mut [i64],
    coverings: &mut [u8],
    scratch: &mut [i64],
) -> Result<(), Refusal> {
    let frame = Frame::new(height, width, levels);
    let list = every_covering();
    let rule = || Ok(Rule::Least);
    decompose_by(
        words, &list, rule, frame, samples, plane, coverings, scratch,
    )
}

// Decomposes a picture with a tolerance. `words` are those of `list_words`.
pub fn decompose_within(
    words: &[u8],
    height: usize,
    width: usize,
    levels: usize,
    tolerance: u64,
    samples: &[u16],
    plane: &mut [i64],
    coverings: &mut [u8],
    scratch: &mut [i64],
) -> Result<(), Refusal> {
    let list = every_covering();
    decompose_listed(
        words, height, width, levels, tolerance, samples, &list, plane, coverings, scratch,
    )
}

// Decomposes a picture by the coverings of a list, with a tolerance. `words` are those of `list_words`.
pub fn decompose_listed(
    words: &[u8],
    height: usize,
    width: usize,
    levels: usize,
    tolerance: u64,
    samples: &[u16],
    list: &[u8],
    plane: &mut [i64],
    coverings: &mut [u8],
    scratch: &mut [i64],
) -> Result<(), Refusal> {
    let frame = Frame::new(height, width, levels);
    let rule = || {
        Refusal::Tolerance.unless(tolerance <= 4095)?;
        Refusal::List.unless(is_list(list))?;
        Ok(Rule::Within(tolerance as usize))
    };
    decompose_by(words, list, rule, frame, samples, plane, coverings, scratch)
}

// v times 4^n.
pub fn weighted(v: i64, n: usize) -> i64 {
    let mut sum = v;
    for _ in 0..n {
        let double = add(sum, sum);
        sum = add(double, double);
    }
    sum
}

// How many cells before this one belong to its piece.
fn earlier(words: &[u8], covering: u8, cell: usize) -> usize {
    let piece = piece_at(words, covering, cell);
    (0..cell)
        .filter(|other| piece_at(words, covering, *other) == piece)
        .count()
}

// Restores a block by its covering.
fn join_block(words: &[u8], covering: u8, image: &[i64], plane: &mut [i64], frame: Frame, p: Spot) {
    let labels = best_labels(words, covering);
    let corner = Corner::of(frame.extent, p);
    let left = frame.levels.saturating_sub(p.level);
    for cell in 0usize..16 {
        let label = label(labels, piece_at(words, covering, cell));
        let [low, b, c, d] = result_places(frame.extent, p, label).map(|place| at(image, place, 0));
        let values = signs([low, weighted(b, left), weighted(c, left), weighted(d, left)]);
        let number = earlier(words, covering, cell).min(3);
        put(plane, corner.cell(cell), at(&values, number, 0));
    }
}

// The numerators of a plane: the levels are joined from the deepest on.
pub fn put_numerators(
    words: &[u8],
    frame: Frame,
    plane: &[i64],
    coverings: &[u8],
    scratch: &mut [i64],
    numerators: &mut [i64],
) {
    copy_image(plane, numerators, frame.extent, 1);
    for level in (1..plus(frame.levels, 1)).rev() {
        each_block(
            coverings,
            numerators,
            scratch,
            frame.extent,
            level,
            |covering, image, plane, p| join_block(words, covering, image, plane, frame, p),
        );
    }
    scratch.fill(0);
}

// The numerator over 4^levels, to the nearest, halves upward, held to 0 and 4095. A numerator below 0 gives 0.
fn rounded(numerator: i64, levels: usize) -> usize {
    let whole = power(times(2, levels));
    let up = size(numerator.max(0));
    over(plus(up, whole / 2), whole).min(4095)
}

// Checks 1 to 3; the last five are the lengths of their slices.
pub fn check_restored(
    frame: Frame,
    plane: usize,
    coverings: usize,
    scratch: usize,
    numerators: usize,
    samples: usize,
) -> Result<(), Refusal> {
    frame.check_lengths(plane, coverings)?;
    Refusal::Length.unless([scratch, numerators, samples] == [plane; 3])
}

// The numerators and the samples of a plane, if the slices are long enough and what they hold is accepted.
fn restore_checked<F: FnOnce() -> Result<(), Refusal>>(
    words: &[u8],
    frame: Frame,
    plane: &[i64],
    coverings: &[u8],
    scratch: &mut [i64],
    numerators: &mut [i64],
    samples: &mut [u16],
    check: F,
) -> Result<(), Refusal>
    requires { F.IsAlwaysCallable check }
{
    check_restored(
        frame,
        plane.len(),
        coverings.len(),
        scratch.len(),
        numerators.len(),
        samples.len(),
    )?;
    check()?;
    put_numerators(words, frame, plane, coverings, scratch, numerators);
    for (i, numerator) in numerators.iter().enumerate() {
        put_sample(samples, i, rounded(*numerator, frame.levels));
    }
    Ok(())
}

// Restores a picture from its plane. `words` are those of `list_words`.
pub fn restore(
    words: &[u8],
    height: usize,
    width: usize,
    levels: usize,
    plane: &[i64],
    coverings: &[u8],
    scratch: &mut [i64],
    numerators: &mut [i64],
    samples: &mut [u16],
) -> Result<(), Refusal> {
    let frame = Frame::new(height, width, levels);
    restore_checked(
        words,
        frame,
        plane,
        coverings,
        scratch,
        numerators,
        samples,
        || { frame.check_contents(plane, coverings) },
    )
}

// Restores a picture from its plane, with a list in which each covering stands. `words` are those of `list_words`.
pub fn restore_listed(
    words: &[u8],
    height: usize,
    width: usize,
    levels: usize,
    plane: &[i64],
    coverings: &[u8],
    list: &[u8],
    scratch: &mut [i64],
    numerators: &mut [i64],
    samples: &mut [u16],
) -> Result<(), Refusal> {
    let frame = Frame::new(height, width, levels);
    restore_checked(
        words,
        frame,
        plane,
        coverings,
        scratch,
        numerators,
        samples,
        || { frame.check_listed(plane, coverings, list) },
    )
}
