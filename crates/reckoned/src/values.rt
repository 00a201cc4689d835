// The limits of what the slices hold, and of quotas, thresholds and buffers, each with what lies past it.
use crate::frames::tell_sheet;
use pairs::answers::{put, tell_one};
use pairs::planes;
use pairs::planes::{Plane, zeros};
use plain_frame::safe::add;
use std::io;

fn covering(rt: &impl Print, words: &[u8], covering: u8) -> io::Result<()> {
    put(rt, b"covering ", covering)?;
    let k = Plane {
        covering,
        ..zeros(4, 4, 1, 16, 1)
    };
    tell_sheet(rt, words, k)
}

pub fn coverings(rt: &impl Print, words: &[u8]) -> io::Result<()> {
    covering(rt, words, 0)?;
    covering(rt, words, 1)?;
    covering(rt, words, 117)?;
    covering(rt, words, 118)?;
    covering(rt, words, 255)
}

// A plane that holds the value at this place, among zeros.
fn coefficient(
    rt: &impl Print,
    words: &[u8],
    band: &[u8],
    frame: Plane,
    at: usize,
    value: i64,
) -> io::Result<()> {
    put(rt, band, value)?;
    let k = Plane { at, value, ..frame };
    tell_sheet(rt, words, k)
}

// The ends of a range, and one past each.
fn range(
    rt: &impl Print,
    words: &[u8],
    band: &[u8],
    frame: Plane,
    at: usize,
    least: i64,
    most: i64,
) -> io::Result<()> {
    coefficient(rt, words, band, frame, at, add(least, -1))?;
    coefficient(rt, words, band, frame, at, least)?;
    coefficient(rt, words, band, frame, at, most)?;
    coefficient(rt, words, band, frame, at, add(most, 1))
}

// 4 by 4 and 1 level: low-pass 0 to 4,095 times 4, W within 2 times 4,095. Planes are stored down columns, so the first entry of a band with row y and
// column x in the plane stands at height times x plus y.
pub fn shallow(rt: &impl Print, words: &[u8]) -> io::Result<()> {
    let k = zeros(4, 4, 1, 16, 1);
    range(rt, words, b"4 by 4 low-pass ", k, 0, 0, 16380)?;
    range(rt, words, b"4 by 4 level 1 band 1 ", k, 8, -8190, 8190)
}

// 8 by 8 and 2 levels: low-pass 0 to 4,095 times 16, W of level 2 within 8 times 4,095, of level 1 within 2 times 4,095.
pub fn deep(rt: &impl Print, words: &[u8]) -> io::Result<()> {
    let k = zeros(8, 8, 2, 64, 5);
    range(rt, words, b"8 by 8 low-pass ", k, 0, 0, 65520)?;
    range(rt, words, b"8 by 8 level 2 band 1 ", k, 16, -32760, 32760)?;
    range(rt, words, b"8 by 8 level 2 band 2 ", k, 2, -32760, 32760)?;
    range(rt, words, b"8 by 8 level 2 band 3 ", k, 18, -32760, 32760)?;
    range(rt, words, b"8 by 8 level 1 band 1 ", k, 32, -8190, 8190)?;
    range(rt, words, b"8 by 8 level 1 band 2 ", k, 4, -8190, 8190)?;
    range(rt, words, b"8 by 8 level 1 band 3 ", k, 36, -8190, 8190)
}

// Strips: the places that are in other bands when height and width are exchanged.
pub fn strips(rt: &impl Print, words: &[u8]) -> io::Result<()> {
    let k = zeros(4, 8, 1, 32, 2);
    range(rt, words, b"4 by 8 low-pass ", k, 12, 0, 16380)?;
    range(rt, words, b"4 by 8 level 1 band 1 ", k, 16, -8190, 8190)?;
    range(rt, words, b"4 by 8 level 1 band 2 ", k, 2, -8190, 8190)?;
    let q = zeros(8, 4, 1, 32, 2);
    range(rt, words, b"8 by 4 low-pass ", q, 2, 0, 16380)?;
    range(rt, words, b"8 by 4 level 1 band 2 ", q, 12, -8190, 8190)?;
    range(rt, words, b"8 by 4 level 1 band 3 ", q, 20, -8190, 8190)
}

pub fn quota(
    rt: &impl Print,
    height: usize,
    width: usize,
    levels: usize,
    plane: usize,
    quota: u64,
) -> io::Result<()> {
    put(rt, b"height ", height)?;
    put(rt, b"width ", width)?;
    put(rt, b"levels ", levels)?;
    put(rt, b"quota ", quota)?;
    tell_one(
        rt,
        b"keep",
        planes::keep(zeros(height, width, levels, plane, 0), quota),
    )
}

// The number of tetrolet entries, and one more: 16 - 4, 64 - 16 and 64 - 4.
pub fn quotas(rt: &impl Print) -> io::Result<()> {
    quota(rt, 4, 4, 1, 16, 12)?;
    quota(rt, 4, 4, 1, 16, 13)?;
    quota(rt, 8, 8, 1, 64, 48)?;
    quota(rt, 8, 8, 1, 64, 49)?;
    quota(rt, 8, 8, 2, 64, 60)?;
    quota(rt, 8, 8, 2, 64, 61)?;
    quota(rt, 4, 4, 1, 16, 4294967296)?;
    quota(rt, 4, 4, 1, 16, u64::MAX)
}

// The same for strips: 32 - 8, and 64 - 16.
pub fn strip_quotas(rt: &impl Print) -> io::Result<()> {
    quota(rt, 4, 8, 1, 32, 24)?;
    quota(rt, 4, 8, 1, 32, 25)?;
    quota(rt, 8, 4, 1, 32, 24)?;
    quota(rt, 8, 4, 1, 32, 25)?;
    quota(rt, 16, 4, 1, 64, 48)?;
    quota(rt, 16, 4, 1, 64, 49)
}

fn limit(rt: &impl Print, limit: u64) -> io::Result<()> {
    put(rt, b"limit ", limit)?;
    tell_one(
        rt,
        b"threshold",
        planes::threshold(zeros(4, 4, 1, 16, 1), limit),
    )
}

pub fn limits(rt: &impl Print) -> io::Result<()> {
    limit(rt, 0)?;
    limit(rt, 1000000)?;
    limit(rt, 1000001)?;
    limit(rt, 4294967296)?;
    limit(rt, u64::MAX)
}

// The sheet of this plane, whose first entry is the value.
fn room(rt: &impl Print, frame: Plane, value: i64, room: usize) -> io::Result<()> {
    put(rt, b"height ", frame.height)?;
    put(rt, b"width ", frame.width)?;
    put(rt, b"value ", value)?;
    put(rt, b"room ", room)?;
    let k = Plane { value, ..frame };
    tell_one(rt, b"write", planes::write(k, room))
}

// The sheet of a plane of zeros has 79 bytes: 20 and 6, 20 and 8, 25. The line `1 0 0 0 28` has 11.
pub fn rooms(rt: &impl Print) -> io::Result<()> {
    let k = zeros(4, 4, 1, 16, 1);
    room(rt, k, 0, 78)?;
    room(rt, k, 0, 79)?;
    room(rt, k, 0, 80)?;
    room(rt, k, 28, 89)?;
    room(rt, k, 28, 90)
}

// Strips of 4 by 8 and of 16 by 4 have two and four blocks: 20 and 6, 20 and 16, 25; 20 and 7, 20 and 32, 25.
pub fn strip_rooms(rt: &impl Print) -> io::Result<()> {
    let k = zeros(4, 8, 1, 32, 2);
    room(rt, k, 0, 86)?;
    room(rt, k, 0, 87)?;
    let q = zeros(16, 4, 1, 64, 4);
    room(rt, q, 0, 103)?;
    room(rt, q, 0, 104)
}
