// Costing: what the coverings cost in one block, in code. A covering's cost is the sum over its four pieces of the absolute tetrolet coefficients, and only 89
// placements of a piece occur: their costs are taken once, and each covering's is the sum of four of them. Of a list only those are taken that its coverings
// have. The costs that it meets are those of `terms`; specs/Costs.antt has what the inner functions compute.
#![tactic(auto)]

ghost use Rattle.std.specs.Prelude.{◌≡◌, cond, List, ◌+◌, ◌*◌, ◌<◌, ◌≤◌, ◌^◌, T, eqb, ℤ, nat_abs, get_or};
ghost use Rattle.coverings.specs.Rule.{Number};
ghost use Rattle.terms.specs.Terms.{is_list, cost_at};
ghost use Rattle.tables.specs.Tables.{placement_table};
ghost use Rattle.kernel.specs.Kernel.{at, Within, four};
ghost use Rattle.costing.specs.Costs.{spread, placed, spreads, placement_of, Needed, needed_spreads, cost_from, Low};

use std::array;

// The sum of the three absolute tetrolet coefficients of four values.
fn spread_of(a: i64, b: i64, c: i64, d: i64) -> u64
    requires { (nat_abs a ≤ 2 ^ 40) × (nat_abs b ≤ 2 ^ 40) × (nat_abs c ≤ 2 ^ 40) × (nat_abs d ≤ 2 ^ 40) }
    ensures { result ≡ spread (four a b c d) }
{
    let s = kernel::transform::signed_sums(a, b, c, d);
    integers::magnitude(s.w1) + integers::magnitude(s.w2) + integers::magnitude(s.w3)
}

// The cell at a place of the table of placements.
fn placed_cell(k: usize) -> usize
    requires { k < 356 }
    ensures { (result ≡ get_or placement_table k 0) × (result < 16) }
{
    tables::placements()[k] as usize
}

// The sum of the three absolute tetrolet coefficients of a placement.
fn placement_cost(k: usize, v: &[i64; 16]) -> u64
    requires { (k < 89) × Within (2 ^ 40) v.now }
    ensures { result ≡ spread (placed v.now k) }
{
    let a = placed_cell(k * 4);
    let b = placed_cell(k * 4 + 1);
    let c = placed_cell(k * 4 + 2);
    let d = placed_cell(k * 4 + 3);
    spread_of(v[a], v[b], v[c], v[d])
}

// The same for every placement.
// Two wrong answers that the contract rules out: the cost of a placement left at 0; and the absolute values without their signed sums.
pub fn placement_costs(v: &[i64; 16]) -> [u64; 89]
    requires { Within (2 ^ 40) v.now }
    ensures { result ≡ spreads v.now }
{
    array::from_fn(|k| placement_cost(k, v))
}

// The cost of a placement if it is needed, and else 0.
fn needed_cost(needed: &[u8; 89], k: usize, v: &[i64; 16]) -> u64
    requires { (k < 89) × Within (2 ^ 40) v.now }
    ensures { result ≡ cond (eqb (get_or needed.now k 0) 0) 0 (spread (placed v.now k)) }
{
    if needed[k] == 0 {
        return 0;
    }
    placement_cost(k, v)
}

// The same for every placement that is needed.
// Two wrong answers that the contract rules out: the cost of a needed placement left at 0; and that of the placement before it.
pub fn needed_costs(needed: &[u8; 89], v: &[i64; 16]) -> [u64; 89]
    requires { Within (2 ^ 40) v.now }
    ensures { result ≡ needed_spreads needed.now v.now }
{
    array::from_fn(|k| needed_cost(needed, k, v))
}

// The placement of one piece of a covering.
fn placement_of(covering: u8, piece: usize) -> usize
    requires { Number covering × (piece < 4) }
    ensures { (result ≡ placement_of covering piece) × (result < 89) }
{
    let n = covering as usize;
    tables::fours()[(n - 1) * 4 + piece] as usize
}

// The placements that the coverings of a list have: 1 at each of them.
// Two wrong answers that the contract rules out: 0 at a placement of the last covering; and the placements of the numbers 1 to the list's length.
// Kept: numbers and no bool, since the definition Needed of specs/Costs.antt says 1.
pub fn needed_by(list: &[u8]) -> [u8; 89]
    requires { T (is_list list.now) }
    ensures { Needed list.now result }
{
    let mut needed = [0u8; 89];
    for covering in list {
        for piece in 0..4 {
            let k = placement_of(*covering, piece);
            needed[k] = 1;
        }
    }
    needed
}

// The cost of one piece of a covering.
fn piece_cost(costs: &[u64; 89], covering: u8, piece: usize) -> u64
    requires { Number covering × (piece < 4) }
    ensures { result ≡ get_or costs.now (placement_of covering piece) 0 }
{
    let k = placement_of(covering, piece);
    costs[k]
}

// The cost of a covering: the sum over its four pieces. Of a block's placements it is the covering's cost in that block.
// Two wrong answers that the contract rules out: the cost of another covering; and that of three of its pieces.
pub fn covering_cost(costs: &[u64; 89], covering: u8) -> u64
    requires { Number covering × Low costs.now }
    ensures { (result ≡ cost_from costs.now covering) × ((v : List ℤ) → costs.now ≡ spreads v → result ≡ cost_at (at v) covering) }
{
    let a = piece_cost(costs, covering, 0);
    let b = piece_cost(costs, covering, 1);
    let c = piece_cost(costs, covering, 2);
    let d = piece_cost(costs, covering, 3);
    a + b + c + d
}
