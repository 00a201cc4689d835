// The terms of a choice: a tolerance, within which a covering may cost more than the least, and a list of the coverings that may be chosen. This crate has
// definitions and laws only; the code is in `choosing`. The definitions are in specs/Terms.antt, and their laws, `TermsLaws` of specs/Laws.antt, are proved
// in proofs/All.antt.
#![tactic(auto)]

ghost use Rattle.std.specs.Prelude.{◌≡◌};
ghost use Rattle.terms.specs.Laws.{TermsLaws};
ghost use Rattle.terms.specs.Reckoned.{choices, reckoned};

// The largest tolerance. Its contract has the laws of a choice on terms and the reckoned choices, which are so a part of what the check proves.
pub fn largest_tolerance() -> u64
    ensures { (result ≡ 4095) × TermsLaws × (choices ≡ reckoned) }
{
    4095
}
