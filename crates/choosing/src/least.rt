// The covering of least cost: the rule without a tolerance.
ghost use Rattle.std.specs.Prelude.{◌≡◌, cond, List, ℕ, ◌-◌, ◌^◌, get_or};
ghost use Rattle.coverings.specs.Rule.{Number};
ghost use Rattle.block.specs.Block.{pick};
ghost use Rattle.kernel.specs.Kernel.{at, Within};
ghost use Rattle.counts.specs.Counts.{counts_of};
ghost use Rattle.costing.specs.Costs.{cost_from, Low};
ghost use Rattle.choosing.specs.Order.{precedes};

use counts::Usage;

// A covering, its cost, and how often it was chosen earlier.
#[derive(Drop)]
pub struct Candidate {
    pub covering: u8,
    pub cost: u64,
    pub count: u32,
}

// A covering with its cost and its count.
fn rated(costs: &[u64; 89], counts: &[u32; 117], covering: u8) -> Candidate
    requires { Number covering × Low costs.now }
    ensures { (result.covering ≡ covering) × (result.cost ≡ cost_from costs.now covering) × (result.count ≡ get_or counts.now (covering - 1) 0) }
{
    let k = covering as usize - 1;
    Candidate {
        covering,
        cost: costing::covering_cost(costs, covering),
        count: counts[k],
    }
}

// The better of two coverings: of lesser cost, or at equal cost chosen more often; the old one where neither precedes.
fn better(old: Candidate, new: Candidate) -> Candidate
    ensures { result ≡ cond (precedes new.cost new.count old.cost old.count) new old }
{
    if new.cost < old.cost || new.cost == old.cost && old.count < new.count {
        return new;
    }
    old
}

// The covering of a block, after the earlier choices that are counted in `usage`: least cost, then the most often chosen, then the lowest number.
// Two wrong answers that the contract rules out: the first of the coverings of least cost, whatever the counts; and the last of those chosen most often.
pub fn choose_least(v: [i64; 16], usage: Usage) -> u8
    requires { Within (2 ^ 40) v }
    ensures { Number result × ((earlier : List ℕ) → usage.counts ≡ counts_of earlier → result ≡ pick earlier (at v)) }
{
    let costs = costing::placement_costs(&v);
    let counts = usage.counts;
    let mut best = rated(&costs, &counts, 1);
    for n in 2..118 {
        best = better(best, rated(&costs, &counts, n));
    }
    best.covering
}
