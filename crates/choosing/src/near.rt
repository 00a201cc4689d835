// A covering near the least: the rule with a tolerance. The costs of all coverings are kept, and the most frequent is looked for among those near the least.
ghost use Rattle.std.specs.Prelude.{◌≡◌, cond, List, ℕ, suc, ◌<◌, ◌≤◌, ◌^◌, ltb, length, get_or};
ghost use Rattle.coverings.specs.Rule.{Number};
ghost use Rattle.terms.specs.Terms.{within, pick_terms};
ghost use Rattle.kernel.specs.Kernel.{at, Within};
ghost use Rattle.counts.specs.Counts.{counts_of};
ghost use Rattle.costing.specs.Costs.{cost_from, Low};
ghost use Rattle.choosing.specs.Leading.{Priced, Counted, Cheapest, stands_at, First};

use counts::Usage;

// The covering that leads, 0 where none does yet, and how it stands.
// Kept: as none stands at 0, a turn of the loops is one comparison, and with an Option it would be two.
#[derive(Clone, Copy)]
pub struct Leader {
    pub covering: u8,
    pub standing: u64,
}

// Puts the cost that `cost_at` gives for each place of a row of `count` there, and gives the least of them.
pub(crate) fn put_costs<F: Fn(usize) -> u64>(all: &mut [u64; 117], count: usize, cost_at: F) -> u64
    requires size { (length all.old ≡ 117) × (0 < count) × (count ≤ 117) }
    requires callable { (k : ℕ) → k < count → F.pre cost_at k }
    ensures put { (k : ℕ) → k < count → F.post cost_at k (get_or all.new k 0) }
    ensures least { (cost : ℕ → ℕ) → Priced count cost all.new → Cheapest count cost result }
{
    let mut least = cost_at(0);
    all[0] = least;
    for k in 1..count {
        let cost = cost_at(k);
        all[k] = cost;
        least = cost.min(least);
    }
    least
}

// How a covering stands: 0 where it costs more than `most`, and else one more than how often it was chosen.
pub fn standing(cost: u64, most: u64, count: u32) -> u64
    ensures { result ≡ stands_at most cost count }
{
    let chosen = count as u64 + 1;
    if most < cost {
        return 0;
    }
    chosen
}

// Which of two leads: the new one where it stands higher.
pub fn preferred(old: Leader, new: Leader) -> Leader
    ensures { result ≡ cond (ltb old.standing new.standing) new old }
{
    if old.standing < new.standing {
        return new;
    }
    old
}

// The covering at the place k, of a cost and chosen `count` times, as it stands.
pub(crate) fn placed(k: usize, cost: u64, most: u64, count: u32) -> Leader
    requires { k < 117 }
    ensures { (result.covering ≡ suc k) × (result.standing ≡ stands_at most cost count) }
{
    Leader {
        covering: k as u8 + 1,
        standing: standing(cost, most, count),
    }
}

// The first of the most frequent among the coverings that cost at most `most`, if there is one. The coverings up to 59 and those above are gone through side by side, so that
// the one leader need not wait for the other.
fn most_frequent(all: &[u64; 117], counts: &[u32; 117], most: u64) -> u8
    ensures { (count cost : ℕ → ℕ) → Priced 117 cost all.now → Counted count counts.now → (n : ℕ) → Number n → cost n ≤ most → First 117 count cost most result }
{
    let none = Leader {
        covering: 0,
        standing: 0,
    };
    let mut low = none;
    let mut high = none;
    for k in 0..58 {
        low = preferred(low, placed(k, all[k], most, counts[k]));
        let above = k + 59;
        high = preferred(high, placed(above, all[above], most, counts[above]));
    }
    low = preferred(low, placed(58, all[58], most, counts[58]));
    preferred(low, high).covering
}

// The covering of a block, after the earlier choices that are counted in `usage`: of those that cost at most `slack` more than the cheapest the most often
// chosen, then the lowest number. The slack is the tolerance in the numbers of the level.
// Two wrong answers that the contract rules out: the cheapest of those chosen most often; and the last of them.
pub fn choose_near(v: [i64; 16], usage: Usage, slack: u64) -> u8
    requires { Within (2 ^ 40) v × (slack ≤ 2 ^ 40) }
    ensures { Number result × ((earlier : List ℕ) → usage.counts ≡ counts_of earlier → result ≡ pick_terms (within slack) earlier (at v)) }
{
    let costs = costing::placement_costs(&v);
    let counts = usage.counts;
    let mut all = [0u64; 117];
    let least = put_costs(&mut all, 117, |k| {
        costing::covering_cost(&costs, k as u8 + 1)
    });
    most_frequent(&all, &counts, least + slack)
}
