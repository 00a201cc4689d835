// The tally of a pass along the tetrolet entries: it goes by value from entry to entry.
ghost use Rattle.std.specs.Prelude.{◌≡◌, true, false, ◌+◌, ◌<◌};
ghost use Rattle.sifting.specs.Tallies.{Tallied};

#[derive(Clone, Copy)]
pub struct Tally {
    // The rank at which entries begin to go, and how many entries of this rank may still stay.
    pub limit: u64,
    pub left: u64,
    // How many entries have stayed, and whether the last one did.
    pub count: usize,
    pub stays: bool,
}

impl Tally {
    // The tally after an entry that is kept.
    fn kept(self, left: u64) -> Tally
        requires { self.count < 1000000 }
        ensures { result ≡ record { limit = self.limit; left = left; count = self.count + 1; stays = true } }
    {
        Tally {
            left,
            count: self.count + 1,
            stays: true,
            ..self
        }
    }

    // The tally after an entry that is dropped.
    fn dropped(self, left: u64) -> Tally
        ensures { result ≡ record { limit = self.limit; left = left; count = self.count; stays = false } }
    {
        Tally {
            left,
            stays: false,
            ..self
        }
    }

    // The tally after an entry of this rank, which is kept or dropped.
    // Two wrong answers that the contract rules out: an entry of rank 0 counted; an entry of the limiting rank kept where none may stay.
    pub fn entry(self, rank: u64) -> Tally
        requires { self.count < 1000000 }
        ensures { Tallied self rank result }
    {
        if self.limit < rank {
            return self.kept(self.left);
        }
        if rank < self.limit {
            return self.dropped(self.left);
        }
        if self.left == 0 {
            return self.dropped(0);
        }
        if rank == 0 {
            return self.dropped(self.left - 1);
        }
        self.kept(self.left - 1)
    }
}
