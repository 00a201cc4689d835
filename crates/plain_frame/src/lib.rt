// The ground of the plain second implementation: guarded sums and places, the refusals, the frame of a picture, which is heights, widths,
// depths, plane order, covering order, ranges and the checks of them, the checks of two strips that are to be joined, and those of a window. It shares no
// code, table or definition with the coder, and is proved to be safe and to end, and nothing more.
#![tactic(auto)]

pub mod frame;
pub mod refusal;
pub mod safe;
pub mod strips;
pub mod windows;
