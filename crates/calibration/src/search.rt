// The search for the steps of a card: the first choice of steps by pieces 0 to 3, lower steps first, whose block has the covering as its only one of cost 0.
ghost use Rattle.std.specs.Prelude.{◌≡◌, ◌||◌, List, ◌^◌, eqb, ltb, ℤ};
ghost use Rattle.coverings.specs.Rule.{Number};
ghost use Rattle.terms.specs.Terms.{cost_at};
ghost use Rattle.kernel.specs.Kernel.{at, Within};
ghost use Rattle.costing.specs.Costs.{spreads, Low};
ghost use Rattle.calibration.specs.Card.{only_zero, shows, chosen_steps};
ghost use Rattle.calibration.specs.Found.{steps_of};

use crate::card;

// Covering m is the covering itself, or costs something in the block that the costs are of.
fn no_tie(costs: &[u64; 89], covering: u8, m: u8) -> bool
    requires { Number m × Low costs.now }
    ensures { (v : List ℤ) → costs.now ≡ spreads v → result ≡ (eqb m covering || ltb 0 (cost_at (at v) m)) }
{
    m == covering || 0 < costing::covering_cost(costs, m)
}

// The covering is the only one of cost 0 on a block.
// Two wrong answers that the contract rules out: true where the covering is chosen for its number among several of cost 0; and where it costs least but not 0.
fn only(covering: u8, v: &[i64; 16]) -> bool
    requires { Number covering × Within (2 ^ 40) v.now }
    ensures { result ≡ only_zero covering (at v.now) }
{
    let costs = costing::placement_costs(v);
    let own = costing::covering_cost(&costs, covering);
    if own != 0 {
        return false;
    }
    for m in 1..=117 {
        if !no_tie(&costs, covering, m) {
            return false;
        }
    }
    true
}

// The steps of pieces 0 to 3 show the covering.
fn shows(covering: u8, choice: &[u16; 4]) -> bool
    requires { Number covering }
    ensures { result ≡ shows covering choice.now }
{
    let v = card::card(covering, *choice);
    only(covering, &v)
}

// The first choice of steps for pieces 0 to 3 that shows the covering: the step of piece 0 in the outermost loop, that of piece 3 in the innermost.
// Two wrong answers that the contract rules out: the last choice that does; and the step of piece 3 in the outermost loop.
pub fn first_choice(covering: u8, steps: &[u16]) -> Option<[u16; 4]>
    requires { Number covering }
    ensures { steps_of result ≡ chosen_steps covering steps.now }
{
    'search: {
        for zeroth in steps {
            for first in steps {
                for second in steps {
                    for third in steps {
                        let choice = [*zeroth, *first, *second, *third];
                        if shows(covering, &choice) {
                            break 'search Some(choice);
                        }
                    }
                }
            }
        }
        None
    }
}
