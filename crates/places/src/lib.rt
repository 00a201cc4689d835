// Places: a walk along the entries of a plane in plane order, or along the blocks in covering order, as a struct that goes by value from place to place;
// and the checks of sides, levels, coverings and one entry's range that the entries share.
#![tactic(auto)]

pub mod checks;
pub mod walk;
