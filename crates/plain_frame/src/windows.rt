// A window of a picture, and the checks of it.
use crate::frame::{Extent, Frame};
use crate::refusal::Refusal;

// A window: its first row and its first column in the picture, and its height and width.
#[derive(Clone, Copy)]
pub struct Window {
    pub top: usize,
    pub left: usize,
    pub extent: Extent,
}

// Whether `count` rows or columns from `first` on are one or more, and all among the `side` that the picture has: as many as are left from `first` on, and none
// where `first` is past the last. No sum is asked for.
fn are_among(side: usize, first: usize, count: usize) -> bool {
    count != 0 && count <= side.saturating_sub(first)
}

impl Window {
    // Check 17.
    fn is_inside(self, picture: Extent) -> bool {
        are_among(picture.height, self.top, self.extent.height)
            && are_among(picture.width, self.left, self.extent.width)
    }

    // Checks 1, 2, 17, 3, 5 and 6, in a picture of this frame; the last is the length of the window's samples.
    pub fn check(
        self,
        frame: Frame,
        plane: &[i64],
        coverings: &[u8],
        samples: usize,
    ) -> Result<(), Refusal> {
        frame.check()?;
        Refusal::Window.unless(self.is_inside(frame.extent))?;
        let is_lent = frame.fits(plane.len(), coverings.len()) && samples == self.extent.area();
        Refusal::Length.unless(is_lent)?;
        frame.check_contents(plane, coverings)
    }
}
