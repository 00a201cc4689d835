// Keep and cut.
use plain_frame::frame::{Frame, power};
use plain_frame::refusal::Refusal;
use plain_frame::safe::{at, put, size, times};

// Checks 1, 2, 3 and 6.
fn check(frame: Frame, plane: &[i64]) -> Result<(), Refusal> {
    frame.check()?;
    Refusal::Length.unless(plane.len() == frame.area())?;
    Refusal::Value.unless(frame.is_in_range(plane))
}

// Tetrolet entries that are not zero.
fn count(frame: Frame, plane: &[i64]) -> usize {
    (0..frame.area())
        .filter(|n| {
            let p = frame.place(*n);
            0 < p.band && at(plane, frame.extent.index_of(p), 0) != 0
        })
        .count()
}

fn rank(value: i64, level: usize, levels: usize) -> usize {
    times(size(value), power(levels.saturating_sub(level)))
}

// Puts 0 for the entry of the lowest rank; of several, for the last in plane order.
fn drop_weakest(frame: Frame, plane: &mut [i64]) {
    let mut weakest: Option<(usize, usize)> = None;
    for n in 0..frame.area() {
        let p = frame.place(n);
        let index = frame.extent.index_of(p);
        let value = at(plane, index, 0);
        if 0 < p.band && value != 0 {
            let here = rank(value, p.level, frame.levels);
            match weakest {
                Some((lowest, _)) if lowest < here => {}
                _ => weakest = Some((here, index)),
            }
        }
    }
    if let Some((_, index)) = weakest {
        put(plane, index, 0);
    }
}

// The number of tetrolet entries: the largest quota.
pub fn most_entries(frame: Frame) -> usize {
    let low = frame.extent.band(frame.levels).area();
    frame.area().saturating_sub(low)
}

// Keeps the `quota` entries of highest rank; gives the number left.
pub fn keep(
    height: usize,
    width: usize,
    levels: usize,
    plane: &mut [i64],
    quota: u64,
) -> Result<usize, Refusal> {
    let frame = Frame::new(height, width, levels);
    let quota = quota as usize;
    check(frame, plane)?;
    Refusal::Quota.unless(quota <= most_entries(frame))?;
    let found = count(frame, plane);
    for _ in quota..found {
        drop_weakest(frame, plane);
    }
    Ok(found.min(quota))
}

// Cuts the entries below the threshold; gives the number left.
pub fn cut(
    height: usize,
    width: usize,
    levels: usize,
    plane: &mut [i64],
    threshold: u64,
) -> Result<usize, Refusal> {
    let frame = Frame::new(height, width, levels);
    let threshold = threshold as usize;
    check(frame, plane)?;
    Refusal::Threshold.unless(threshold <= 1000000)?;
    for n in 0..frame.area() {
        let p = frame.place(n);
        let index = frame.extent.index_of(p);
        if 0 < p.band && size(at(plane, index, 0)) < times(threshold, power(p.level)) {
            put(plane, index, 0);
        }
    }
    Ok(count(frame, plane))
}
