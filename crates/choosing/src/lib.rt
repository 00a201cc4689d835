// The choice of a covering for one block in code: the covering of least cost, the choice with a tolerance, and the choice out of a list, by the costs of
// `costing`. The definitions that it meets are those of `block` and `terms`; specs/ has what the inner functions compute.
#![tactic(auto)]

pub mod least;
pub mod listed;
pub mod near;

ghost use Rattle.std.specs.Prelude.{◌≡◌, List, ℕ, ◌≤◌, ◌^◌, T};
ghost use Rattle.coverings.specs.Rule.{Number};
ghost use Rattle.terms.specs.Terms.{all_numbers, among, is_list, pick_terms};
ghost use Rattle.kernel.specs.Kernel.{at, Within};
ghost use Rattle.counts.specs.Counts.{counts_of};
ghost use Rattle.costing.specs.Costs.{Needed};

use counts::Usage;
use std::array;

// All coverings, 1 to 117: what a caller without a list lends.
// Two wrong answers that the contract rules out: a list that starts with 0; and one that leaves out 117.
pub fn every_covering() -> [u8; 117]
    ensures { result ≡ all_numbers }
{
    array::from_fn(|k| k as u8 + 1)
}

// The covering of a block out of a list, with a tolerance; `needed` has the placements of the list. Where all are listed, it is found by the loops that are
// made for that.
// Two wrong answers that the contract rules out: one of these loops for a list of 116; and the one without a tolerance for a tolerance of 1.
pub fn choose(v: [i64; 16], usage: Usage, slack: u64, list: &[u8], needed: &[u8; 89]) -> u8
    requires { Within (2 ^ 40) v × (slack ≤ 2 ^ 40) × T (is_list list.now) × Needed list.now needed.now }
    ensures { Number result × ((earlier : List ℕ) → usage.counts ≡ counts_of earlier → result ≡ pick_terms (among slack list.now) earlier (at v)) }
{
    if list.len() < 117 {
        return listed::choose_listed(v, usage, slack, list, needed);
    }
    if slack == 0 {
        return least::choose_least(v, usage);
    }
    near::choose_near(v, usage, slack)
}
