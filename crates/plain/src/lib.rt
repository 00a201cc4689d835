// A plain second implementation of the picture coder, written straight from its requirements and kept apart from the coder: it shares no code,
// table or definition with it, so that the two can be compared on the same work. It finds the coverings by search, tries every labelling and drops the
// weakest entry again and again. It is proved to be safe and to end, and nothing more: what it gives is checked by running it beside the coder. Sums
// and places go through the guarded helpers of `plain_frame`. Its time grows with the square of the picture's area, so it is meant for areas up to
// 1,024; every height and width is taken, but by `masters::restore_master`, which has no room for a larger area.
//
// The entries: `tiles::list_words` and, lent its words, `tiles::pieces`, `pyramid::decompose`, `pyramid::decompose_within`, `pyramid::decompose_listed`,
// `pyramid::restore`, `pyramid::restore_listed`, `masters::restore_master`, `windows::window` and `smoothing::smooth`; `cut::keep` and `cut::cut`; `strips::join`;
// `generated::test_image`. Each is refused by a `Refusal` of `plain_frame`; those of `cut` give a count. Texts are in
// `plain_text`, the cutter in `plain_cutter`.
#![tactic(auto)]

mod block;
mod choice;
pub mod cut;
pub mod generated;
pub mod masters;
pub mod pyramid;
pub mod smoothing;
pub mod strips;
pub mod tiles;
pub mod windows;
