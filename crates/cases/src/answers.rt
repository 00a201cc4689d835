// The answers of the coder and of the plain second implementation in one form, and what comes of one call to both.
use crate::tally::Verdict;
use plain_frame::refusal::Refusal;

// An answer in which a refusal is told by its number, in which the two implementations are to agree; each has an enum of its own.
pub type Answer<T> = Result<T, u32>;

// An answer of the coder.
pub fn of_coder<T: Drop>(a: Result<T, refusals::Refusal>) -> Answer<T> {
    a.map_err(u32::from)
}

// An answer of the second implementation.
pub fn of_plain<T: Drop>(a: Result<T, Refusal>) -> Answer<T> {
    a.map_err(u32::from)
}

// Both answers to a call; whether the slices hold the same after both; and whether they hold after the first what they held before.
#[derive(Clone, Copy)]
pub struct Pair<T> {
    pub coder: Answer<T>,
    pub plain: Answer<T>,
    pub same: bool,
    pub kept: bool,
}

// The call to both, each with slices that hold this before.
pub fn compare<
    R: Copy + PartialEq,
    T: Copy,
    F: FnOnce(&mut R) -> Answer<T>,
    G: FnOnce(&mut R) -> Answer<T>,
>(before: R, coder: F, plain: G) -> Pair<T>
    requires coder { F.IsAlwaysCallable coder }
    requires plain { G.IsAlwaysCallable plain }
{
    let mut x = before;
    let mut y = before;
    let coder = coder(&mut x);
    let plain = plain(&mut y);
    Pair {
        coder,
        plain,
        same: x == y,
        kept: x == before,
    }
}

impl<T: Copy + PartialEq> Pair<T> {
    // The same, but that a refused call which did not leave the slices as they were counts as a difference.
    pub fn strict(self) -> Pair<T> {
        Pair {
            same: self.same && (self.kept || self.coder.is_ok()),
            ..self
        }
    }

    // The same answer, and the same in the slices?
    pub fn verdict(self) -> Verdict {
        if self.coder != self.plain || !self.same {
            Verdict::Differs
        } else if self.coder.is_ok() {
            Verdict::Accepted
        } else {
            Verdict::Refused
        }
    }
}
