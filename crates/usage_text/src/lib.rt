// The usage list as a text: definitions and laws. specs/Usage.antt has its lines, their order and their text; what the lines must be, and that no other
// list is that, is `UsageLaws` of specs/Laws.antt, proved in proofs/. Nothing here runs: `usage_list` counts, measures and writes, and
// `usage_list::put_counts` carries the laws in its contract.
#![tactic(auto)]
