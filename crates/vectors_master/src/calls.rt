// A call that restores a master, by the coder and by the plain second implementation: what it answers and leaves in slices that hold other values before.
use cases::answers::{Answer, Pair, compare, of_coder, of_plain};
use cases::masters::Master;
use cases::safe::{first, first_mut};

// The slices that restoring fills. Room for the largest picture of a group, and one place more.
#[derive(Clone, Copy, PartialEq)]
pub struct Room {
    pub numerators: [i64; 1025],
    pub samples: [u16; 1025],
    pub scratch: [i64; 1025],
}

impl Room {
    // What they hold before.
    pub fn new() -> Room {
        Room {
            numerators: [7; 1025],
            samples: [9; 1025],
            scratch: [-3; 1025],
        }
    }
}

pub fn restore(m: Master, plane: &[i64], coverings: &[u8], room: &mut Room) -> Answer<()> {
    let k = m.picture;
    of_coder(mastering::restore_master(
        k.height,
        k.width,
        k.levels,
        first(plane, k.n),
        first(coverings, k.b),
        first_mut(&mut room.numerators, m.numerators),
        first_mut(&mut room.samples, m.samples),
        first_mut(&mut room.scratch, m.scratch),
    ))
}

fn restore_plain(
    words: &[u8],
    m: Master,
    plane: &[i64],
    coverings: &[u8],
    room: &mut Room,
) -> Answer<()> {
    let k = m.picture;
    of_plain(plain::masters::restore_master(
        words,
        k.height,
        k.width,
        k.levels,
        first(plane, k.n),
        first(coverings, k.b),
        first_mut(&mut room.scratch, m.scratch),
        first_mut(&mut room.numerators, m.numerators),
        first_mut(&mut room.samples, m.samples),
    ))
}

// Both. A refused call leaves all slices as they were before.
pub fn both(words: &[u8], m: Master, plane: &[i64], coverings: &[u8]) -> Pair<()> {
    compare(
        Room::new(),
        |room| restore(m, plane, coverings, room),
        |room| restore_plain(words, m, plane, coverings, room),
    )
    .strict()
}
