// The slices that a call on a small picture fills.

// The plane, the numerators or the result; samples, coverings and scratch. Room for 8 by 8 and 2 levels, and one place more.
#[derive(Clone, Copy, PartialEq)]
pub struct Room {
    pub values: [i64; 65],
    pub samples: [u16; 65],
    pub coverings: [u8; 6],
    pub scratch: [i64; 65],
}

impl Room {
    // Other values than a call leaves.
    pub fn new() -> Room {
        Room {
            values: [7; 65],
            samples: [9; 65],
            coverings: [9; 6],
            scratch: [-3; 65],
        }
    }
}
