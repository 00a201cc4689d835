// Two strips that are to be joined, and the checks of them.
use crate::frame::{Frame, all_coverings};
use crate::refusal::Refusal;
use crate::safe::times;

// A strip that is lent.
#[derive(Clone, Copy)]
pub struct Strip<'a> {
    pub frame: Frame,
    pub plane: &'a [i64],
    pub coverings: &'a [u8],
}

impl Strip<'_> {
    // Check 3.
    fn fits(self) -> bool {
        self.frame.fits(self.plane.len(), self.coverings.len())
    }
}

// The frame that two strips of this one make.
pub fn joined(one: Frame) -> Frame {
    Frame::new(one.extent.height, times(2, one.extent.width), one.levels)
}

// Checks 1 and 2, each of the left strip, then of the right, then 15 and 16.
fn check_shapes(left: Frame, right: Frame) -> Result<(), Refusal> {
    Refusal::Side.unless(left.extent.has_sides() && right.extent.has_sides())?;
    Refusal::Depth.unless(left.has_depth() && right.has_depth())?;
    Refusal::Unlike.unless(left == right)?;
    Refusal::Wide.unless(joined(left).extent.width <= 512)
}

// Checks 1, 2, 15, 16, 3, 5 and 6; the last two are the lengths of the joined plane and coverings.
pub fn check_join(
    left: Strip,
    right: Strip,
    plane: usize,
    coverings: usize,
) -> Result<(), Refusal> {
    check_shapes(left.frame, right.frame)?;
    let is_lent = left.fits() && right.fits() && joined(left.frame).fits(plane, coverings);
    Refusal::Length.unless(is_lent)?;
    let are_known = all_coverings(left.coverings) && all_coverings(right.coverings);
    Refusal::Covering.unless(are_known)?;
    let are_small = left.frame.is_in_range(left.plane) && right.frame.is_in_range(right.plane);
    Refusal::Value.unless(are_small)
}
