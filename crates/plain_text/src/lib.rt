// The texts of the plain second implementation: sheets and usage lists, written and read. It reads a text once for each thing that it looks for. It
// shares no code, table or definition with the coder, and is proved to be safe and to end, and nothing more.
//
// The entries: `writing::write`, `writing::usage` and `reading::read`. Each is refused by a `Refusal` of `plain_frame`, or gives a length, or the frame
// of the picture.
#![tactic(auto)]

pub mod lines;
pub mod reading;
pub mod writing;
