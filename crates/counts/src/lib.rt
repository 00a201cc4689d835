// How often each covering stands in a list: the struct `Usage` of 117 counts, which the choice of coverings hands by value from block to block and from
// which the usage list is written. specs/Counts.antt has the one definition of the counts, proofs/Counts.antt its laws.
#![tactic(auto)]

ghost use Rattle.std.specs.Prelude.{◌≡◌, List, [], ◌∷◌, ◌++◌, ℕ, ◌-◌, ◌+◌, ◌<◌, ◌^◌, get_or};
ghost use Rattle.coverings.specs.Rule.{Number};
ghost use Rattle.counts.specs.Counts.{counts_of};

#[derive(Clone, Copy)]
pub struct Usage {
    pub counts: [u32; 117],
}

impl Usage {
    // Before the first block: no covering was chosen yet.
    // Two wrong answers that the contract rules out: a count of 1 for covering 1; and 116 counts.
    pub fn new() -> Self
        ensures { result.counts ≡ counts_of [] }
    {
        Usage {
            counts: [0u32; 117],
        }
    }

    // After one more block, for which a covering was chosen.
    // Two wrong answers that the contract rules out: the count of another covering raised; and a count that goes back to 0.
    pub fn chosen(mut self, covering: u8) -> Usage
        requires { Number covering × (get_or self.counts (covering - 1) 0 + 1 < 2 ^ 32) }
        ensures { (earlier : List ℕ) → self.counts ≡ counts_of earlier → result.counts ≡ counts_of (earlier ++ (covering ∷ [])) }
    {
        let k = covering as usize - 1;
        self.counts[k] += 1;
        self
    }
}
