// What the programs `vectors`, `vectors_master`, `vectors_smooth` and `vectors_text` share: the generated inputs, how two answers to a case are compared, and how a group is counted and
// told. It is proved to be safe and to end, and nothing more.
#![tactic(auto)]

pub mod answers;
pub mod inputs;
pub mod lists;
pub mod masters;
pub mod safe;
pub mod smoothings;
pub mod strips;
pub mod tally;
pub mod windows;
