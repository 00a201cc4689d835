// The passes over the text of a sheet that is read: where its parts stand (check), the lines of its entries (scan), which go from place to place along the
// plane (front), and those of its blocks (tiles). Refusals are the business of the crate sheet above.
#![tactic(auto)]

pub mod check;
pub mod front;
pub mod scan;
pub mod tiles;
