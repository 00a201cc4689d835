// One smoothing step, as document 02 words it: the numerators of the plane, their gradient, the gradient decomposed and masked, the numerators of that, each in
// a slice of its own; then 16 times the first less p times the last, entry by entry.
use crate::pyramid::{copy_image, put_numerators, split_by, weighted};
use crate::windows::front;
use plain_frame::frame::{Extent, Frame};
use plain_frame::refusal::Refusal;
use plain_frame::safe::{add, at, opposite, over, plus, put, rest, signed, size, times};
use std::cmp::Ordering;

fn sign(here: i64, there: i64) -> i64 {
    match here.cmp(&there) {
        Ordering::Less => -1,
        Ordering::Equal => 0,
        Ordering::Greater => 1,
    }
}

// The next row or column, or the same where it is the last of `end`.
fn next(n: usize, end: usize) -> usize {
    if plus(n, 1) < end { plus(n, 1) } else { n }
}

// The gradient at a cell. In place of a neighbour outside the picture the cell itself is taken, against which the sign is 0.
fn slope(numerators: &[i64], extent: Extent, row: usize, col: usize) -> i64 {
    let here = at(numerators, extent.cell(row, col), 0);
    let neighbours = [
        extent.cell(row.saturating_sub(1), col),
        extent.cell(next(row, extent.height), col),
        extent.cell(row, col.saturating_sub(1)),
        extent.cell(row, next(col, extent.width)),
    ];
    let mut sum: i64 = 0;
    for neighbour in neighbours {
        sum = add(sum, sign(here, at(numerators, neighbour, 0)));
    }
    add(sum, sum)
}

fn put_gradient(numerators: &[i64], extent: Extent, gradient: &mut [i64]) {
    for (i, value) in gradient.iter_mut().enumerate() {
        *value = slope(
            numerators,
            extent,
            rest(i, extent.height),
            over(i, extent.height),
        );
    }
}

// Puts 0 at each place of the plane that is spared: it is of band 0, or its entry was kept.
fn mask(frame: Frame, plane: &[i64], decomposed: &mut [i64]) {
    for n in 0..frame.area() {
        let p = frame.place(n);
        let i = frame.extent.index_of(p);
        if p.band == 0 || at(plane, i, 0) != 0 {
            put(decomposed, i, 0);
        }
    }
}

fn product(v: i64, step: usize) -> i64 {
    let w = signed(times(size(v), step));
    if v < 0 { opposite(w) } else { w }
}

// 16 times a numerator, that is 4^2 times, less the step times the projected gradient there.
fn moved(numerator: i64, gradient: i64, step: usize) -> i64 {
    add(weighted(numerator, 2), opposite(product(gradient, step)))
}

// Checks 1, 2, 3, 5, 6 and 19; the last two are the lengths of their slices.
fn check(
    frame: Frame,
    plane: &[i64],
    coverings: &[u8],
    step: u64,
    res: usize,
    scratch: usize,
) -> Result<(), Refusal> {
    frame.check_lengths(plane.len(), coverings.len())?;
    Refusal::Length.unless(res == plane.len() && scratch == plane.len())?;
    frame.check_contents(plane, coverings)?;
    Refusal::Step.unless(step <= 255)
}

// One smoothing step of a plane. `words` are those of `list_words`. The last three slices are room: of each the front part, as long as the picture, is used.
// Where one is shorter than that the answer is 3, after all checks.
pub fn smooth(
    words: &[u8],
    height: usize,
    width: usize,
    levels: usize,
    plane: &[i64],
    coverings: &[u8],
    step: u64,
    res: &mut [i64],
    scratch: &mut [i64],
    gradient: &mut [i64],
    decomposed: &mut [i64],
    projected: &mut [i64],
) -> Result<(), Refusal> {
    let frame = Frame::new(height, width, levels);
    check(frame, plane, coverings, step, res.len(), scratch.len())?;
    let n = frame.area();
    let gradient = front(gradient, n)?;
    let decomposed = front(decomposed, n)?;
    let projected = front(projected, n)?;
    put_numerators(words, frame, plane, coverings, scratch, res);
    put_gradient(res, frame.extent, gradient);
    // The gradient, decomposed by the picture's coverings and masked, and the numerators of that: the projected gradient.
    copy_image(gradient, decomposed, frame.extent, 1);
    split_by(words, coverings, decomposed, scratch, frame);
    mask(frame, plane, decomposed);
    put_numerators(words, frame, decomposed, coverings, scratch, projected);
    for (value, gradient) in res.iter_mut().zip(projected.iter()) {
        *value = moved(*value, *gradient, step as usize);
    }
    Ok(())
}
