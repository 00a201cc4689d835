// The tetrolet sheet as a text: definitions and laws. specs/Forms.antt has its lines of names, specs/Rows.antt what is written of coverings and of a
// plane and what lines say, specs/Sheet.antt the text, what a text says, and what the entries write and read refuse. Both laws, that what is written is
// read back and that what is read is written again byte for byte, are `SheetLaws` of specs/Claims.antt, proved in proofs/Laws.antt. Nothing here runs:
// the crates above have the passes, and `sheet_scan::check::find_parts` carries the laws in its contract.
#![tactic(auto)]
