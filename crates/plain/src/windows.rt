// The samples of a window: the whole picture is restored, and the window is copied out of it.
use crate::pyramid::restore;
use plain_frame::frame::{Extent, Frame};
use plain_frame::refusal::Refusal;
use plain_frame::safe::{at, over, plus, rest};
use plain_frame::windows::Window;

// The front part of so many places. A slice that is shorter is refused.
pub fn front<T>(s: &mut [T], n: usize) -> Result<&mut [T], Refusal> {
    s.get_mut(..n).ok_or(Refusal::Length)
}

// Restores a window of the picture that a plane restores to. `words` are those of `list_words`. The last three slices are room: of each the front part, as long
// as the picture, is used. Where one is shorter than that the answer is 3, after all checks.
pub fn window(
    words: &[u8],
    height: usize,
    width: usize,
    levels: usize,
    plane: &[i64],
    coverings: &[u8],
    top: usize,
    left: usize,
    tall: usize,
    wide: usize,
    samples: &mut [u16],
    numerators: &mut [i64],
    picture: &mut [u16],
    scratch: &mut [i64],
) -> Result<(), Refusal> {
    let frame = Frame::new(height, width, levels);
    let extent = Extent {
        height: tall,
        width: wide,
    };
    let view = Window { top, left, extent };
    view.check(frame, plane, coverings, samples.len())?;
    let n = frame.area();
    let picture = front(picture, n)?;
    restore(
        words,
        height,
        width,
        levels,
        plane,
        coverings,
        front(scratch, n)?,
        front(numerators, n)?,
        picture,
    )?;
    for (n, sample) in samples.iter_mut().enumerate() {
        let row = plus(top, rest(n, tall));
        let col = plus(left, over(n, tall));
        *sample = at(picture, frame.extent.cell(row, col), 0);
    }
    Ok(())
}
