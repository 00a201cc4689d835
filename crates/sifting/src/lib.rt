// Sifting a plane: the ranks of the tetrolet entries, the rank at which keep begins to drop entries, and the one pass in plane order that drops them, with a
// tally that goes by value from entry to entry. The entries keep and threshold stand above, in `keeping`.
#![tactic(auto)]

pub mod ranks;
pub mod sift;
pub mod tally;
