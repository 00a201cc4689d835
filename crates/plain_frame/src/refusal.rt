// Why a call is refused. A refusal has a number, by which callers in C and the printed answers name it; 0 is the number of an accepted call.

#[derive(Clone, Copy, PartialEq, Eq, Debug)]
pub enum Refusal {
    Side = 1,
    Depth = 2,
    Length = 3,
    Sample = 4,
    Covering = 5,
    Value = 6,
    Quota = 7,
    Threshold = 8,
    Text = 9,
    Room = 10,
    Order = 11,
    Large = 12,
    Tolerance = 13,
    List = 14,
    Unlike = 15,
    Wide = 16,
    Window = 17,
    Unlisted = 18,
    Step = 19,
    Fraction = 20,
    Steps = 21,
}

impl Refusal {
    // Refuses by this, unless what is asked for holds.
    pub fn unless(self, holds: bool) -> Result<(), Refusal> {
        if holds { Ok(()) } else { Err(self) }
    }
}

impl From<Refusal> for u32 {
    fn from(refusal: Refusal) -> u32 {
        refusal as u32
    }
}

// The number of an answer: that of its refusal, or 0.
pub fn code<T: Copy>(answer: Result<T, Refusal>) -> u32 {
    match answer {
        Ok(_) => 0,
        Err(refusal) => u32::from(refusal),
    }
}
