// A covering out of a list: the rule with a list of coverings, and with a tolerance or none. The costs are kept by the places of the list, and the first place
// of the most frequent is looked for among those near the least.
ghost use Rattle.std.specs.Prelude.{◌≡◌, List, ℕ, suc, ◌-◌, ◌<◌, ◌≤◌, ◌^◌, T, length, get_or};
ghost use Rattle.coverings.specs.Rule.{Number};
ghost use Rattle.terms.specs.Terms.{among, is_list, pick_terms};
ghost use Rattle.kernel.specs.Kernel.{at, Within};
ghost use Rattle.counts.specs.Counts.{counts_of};
ghost use Rattle.costing.specs.Costs.{Needed, cost_from, Low};
ghost use Rattle.choosing.specs.Leading.{InRow, Priced, CountedIn, Cheapest, stands_at, First};

use crate::near;
use crate::near::Leader;
use counts::Usage;

// The place, counted from 1, of the first of the most frequent among the coverings of the list that cost at most `most`, if there is one.
fn most_listed(all: &[u64; 117], counts: &[u32; 117], list: &[u8], most: u64) -> u8
    requires { T (is_list list.now) }
    ensures { (count cost : ℕ → ℕ) → Priced (length list.now) cost all.now → CountedIn list.now count counts.now → (n : ℕ) → InRow (length list.now) n → cost n ≤ most → First (length list.now) count cost most result }
{
    let mut leader = Leader {
        covering: 0,
        standing: 0,
    };
    for k in 0..list.len() {
        let n = list[k] as usize - 1;
        leader = near::preferred(leader, near::placed(k, all[k], most, counts[n]));
    }
    leader.covering
}

// The covering of a block out of a list, after the earlier choices that are counted in `usage`: of those in the list that cost at most `slack` more than the
// cheapest in it the most often chosen, then the lowest number.
// Two wrong answers that the contract rules out: a covering that is not in the list; and one near the cheapest of all that is not near the cheapest listed.
pub fn choose_listed(v: [i64; 16], usage: Usage, slack: u64, list: &[u8], needed: &[u8; 89]) -> u8
    requires { Within (2 ^ 40) v × (slack ≤ 2 ^ 40) × T (is_list list.now) × Needed list.now needed.now }
    ensures { Number result × ((earlier : List ℕ) → usage.counts ≡ counts_of earlier → result ≡ pick_terms (among slack list.now) earlier (at v)) }
{
    let costs = costing::needed_costs(needed, &v);
    let counts = usage.counts;
    let mut all = [0u64; 117];
    let least = near::put_costs(&mut all, list.len(), |k| {
        costing::covering_cost(&costs, list[k])
    });
    let place = most_listed(&all, &counts, list, least + slack);
    list[place as usize - 1]
}
