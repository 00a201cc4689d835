// The cutter's input as a text: the header, its first two lines, and the rows of samples under them. specs/Forms.antt has the lines of names,
// specs/Picture.antt the picture that rows make. What becomes of a header and a picture is in `cutting`.
#![tactic(auto)]

pub mod header;
pub mod samples;
