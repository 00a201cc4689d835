// Refusals: the numbers of document 01's table "Turned-back work". A call is answered with a Result: what it gives, as a count or nothing at all, or
// one refusal. specs/Refusal.antt says which number each has, and what a refused call leaves in the slices it was lent: what they held.
#![tactic(auto)]

ghost use Rattle.std.specs.Prelude.{◌≡◌};
ghost use Rattle.refusals.specs.Refusal.{number_of, answer_of, flag_of};

// Why a call is refused. Beside each: the table's number and word.
#[derive(Clone, Copy, Debug, PartialEq, Eq)]
pub enum Refusal {
    Side, // 1, side
    Depth, // 2, depth
    Frame, // 3, frame
    Sample, // 4, sample
    Covering, // 5, tile
    Coefficient, // 6, coefficient
    Quota, // 7, quota
    Threshold, // 8, threshold
    Text, // 9, text
    Buffer, // 10, tray
    Sequence, // 11, sequence
    Bench, // 12, bench
    Tolerance, // 13, tolerance
    Listing, // 14, list
    Mismatch, // 15, mismatch
    JoinedWidth, // 16, joined width
    Window, // 17, window
    Unlisted, // 18, unlisted
    Step, // 19, step
    Master, // 20, master
    Steps, // 21, steps
}

// The table's number. Two wrong answers that the contract rules out: 0, which means accepted; and the number of another word.
impl From<Refusal> for u32 {
    ghost from_gives = { λ r n. n ≡ number_of r };

    fn from(r: Refusal) -> u32 {
        match r {
            Refusal::Side => 1,
            Refusal::Depth => 2,
            Refusal::Frame => 3,
            Refusal::Sample => 4,
            Refusal::Covering => 5,
            Refusal::Coefficient => 6,
            Refusal::Quota => 7,
            Refusal::Threshold => 8,
            Refusal::Text => 9,
            Refusal::Buffer => 10,
            Refusal::Sequence => 11,
            Refusal::Bench => 12,
            Refusal::Tolerance => 13,
            Refusal::Listing => 14,
            Refusal::Mismatch => 15,
            Refusal::JoinedWidth => 16,
            Refusal::Window => 17,
            Refusal::Unlisted => 18,
            Refusal::Step => 19,
            Refusal::Master => 20,
            Refusal::Steps => 21,
        }
    }
}

// The number of an answer: 0 where the call is accepted, whatever it gives.
// Two wrong answers that the contract rules out: 0 for a refusal; and the number of another refusal.
pub fn code<T: Drop>(a: Result<T, Refusal>) -> u32
    ensures { result ≡ answer_of a }
{
    match a {
        Ok(_) => 0,
        Err(r) => u32::from(r),
    }
}

// Whether an answer shows a block, as 1 or 0; 0 where the call is refused.
// Two wrong answers that the contract rules out: 1 for a refusal; and 0 where the slice holds a block.
pub fn shown_flag(s: Result<bool, Refusal>) -> u8
    ensures { result ≡ flag_of s }
{
    match s {
        Ok(true) => 1,
        _ => 0,
    }
}
