// The whole-number kit. Its definitions (sums, squares, tabulated lists) are in specs/; in proofs/ stand the ring laws of the whole numbers with a
// solver by reflection, order and bounds by absolute values, what signed machine arithmetic asks and gives, laws of sums, and flat indices. Every
// other crate stands above this one. Its two functions are the absolute value and the test for 0.
#![tactic(auto)]

ghost use Rattle.std.specs.Prelude.{◌≡◌, nat_abs};
ghost use Rattle.integers.specs.Zero.{is_zero};

// The absolute value. Two wrong answers that the contract rules out: 0 for the least i64, and v itself where v is below zero.
pub fn magnitude(v: i64) -> u64
    ensures { result ≡ nat_abs v }
{
    v.unsigned_abs()
}

// Whether a number is 0. Two wrong answers that the contract rules out: yes for 2^32, whose low bits are 0; and no for 0.
pub fn is_zero(v: i64) -> bool
    ensures { result ≡ is_zero v }
{
    v == 0
}
