// Restoring as a master, as document 02 words it: the numerators go into an array of its own, each is divided by 4^levels, and only where all of them are whole
// samples are the lent slices filled.
use crate::pyramid::{check_restored, copy_image, put_numerators, weighted};
use plain_frame::frame::Frame;
use plain_frame::refusal::Refusal;
use plain_frame::safe::{at, over, put_sample, rest, size};

// Whether a numerator is `unit` times a whole number from 0 to 4,095.
fn is_whole(numerator: i64, unit: usize) -> bool {
    let up = size(numerator);
    0 <= numerator && rest(up, unit) == 0 && over(up, unit) <= 4095
}

// Restores a picture from its plane as a master. `words` are those of `list_words`. The array that the numerators go into has 1,024 places: for a larger picture
// the answer is 3, after checks 1, 2, 3, 5 and 6.
pub fn restore_master(
    words: &[u8],
    height: usize,
    width: usize,
    levels: usize,
    plane: &[i64],
    coverings: &[u8],
    scratch: &mut [i64],
    numerators: &mut [i64],
    samples: &mut [u16],
) -> Result<(), Refusal> {
    let frame = Frame::new(height, width, levels);
    check_restored(
        frame,
        plane.len(),
        coverings.len(),
        scratch.len(),
        numerators.len(),
        samples.len(),
    )?;
    frame.check_contents(plane, coverings)?;
    Refusal::Length.unless(frame.area() <= 1024)?;
    let mut room = [0i64; 1024];
    let mut found = [0i64; 1024];
    put_numerators(words, frame, plane, coverings, &mut room, &mut found);
    let unit = size(weighted(1, levels));
    let are_whole = found
        .iter()
        .take(frame.area())
        .all(|numerator| is_whole(*numerator, unit));
    Refusal::Fraction.unless(are_whole)?;
    copy_image(&found, numerators, frame.extent, 1);
    for i in 0..samples.len() {
        put_sample(samples, i, over(size(at(&found, i, 0)), unit));
    }
    scratch.fill(0);
    Ok(())
}
