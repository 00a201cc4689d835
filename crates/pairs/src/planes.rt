// Restoring, keeping, cutting, writing and reading a plane, by the coder and by the plain second implementation.
use crate::rooms::Room;
use cases::answers::{Answer, Pair, compare, of_coder, of_plain};
use cases::safe::{first, first_mut, store};
use plain_frame::frame::Frame;
use refusals::Refusal;
use sheet::Sheet;

// A call: height, width and levels, the lengths of plane and coverings, and what they hold: one value among zeros, and one covering everywhere.
#[derive(Clone, Copy)]
pub struct Plane {
    pub height: usize,
    pub width: usize,
    pub levels: usize,
    pub plane: usize,
    pub coverings: usize,
    pub at: usize,
    pub value: i64,
    pub covering: u8,
}

// A plane of zeros in slices of these lengths, each block with covering 1.
pub fn zeros(height: usize, width: usize, levels: usize, plane: usize, coverings: usize) -> Plane {
    Plane {
        height,
        width,
        levels,
        plane,
        coverings,
        at: 0,
        value: 0,
        covering: 1,
    }
}

pub fn plane_of(k: Plane) -> [i64; 65] {
    let mut plane = [0; 65];
    store(&mut plane, k.at, k.value);
    plane
}

// The lengths of the slices that restoring fills.
#[derive(Clone, Copy)]
pub struct Lengths {
    pub numerators: usize,
    pub samples: usize,
    pub scratch: usize,
}

pub fn restore_into(words: &[u8], k: Plane, l: Lengths) -> Pair<()> {
    let plane = plane_of(k);
    let coverings = [k.covering; 6];
    compare(
        Room::new(),
        |room| {
            of_coder(coder::restore(
                k.height,
                k.width,
                k.levels,
                first(&plane, k.plane),
                first(&coverings, k.coverings),
                first_mut(&mut room.values, l.numerators),
                first_mut(&mut room.samples, l.samples),
                first_mut(&mut room.scratch, l.scratch),
            ))
        },
        |room| {
            of_plain(plain::pyramid::restore(
                words,
                k.height,
                k.width,
                k.levels,
                first(&plane, k.plane),
                first(&coverings, k.coverings),
                first_mut(&mut room.scratch, l.scratch),
                first_mut(&mut room.values, l.numerators),
                first_mut(&mut room.samples, l.samples),
            ))
        },
    )
}

// Into slices as long as the plane.
pub fn restore(words: &[u8], k: Plane) -> Pair<()> {
    let l = Lengths {
        numerators: k.plane,
        samples: k.plane,
        scratch: k.plane,
    };
    restore_into(words, k, l)
}

pub fn keep(k: Plane, quota: u64) -> Pair<usize> {
    compare(
        plane_of(k),
        |plane| {
            of_coder(keeping::keep(
                k.height,
                k.width,
                k.levels,
                first_mut(plane, k.plane),
                quota,
            ))
        },
        |plane| {
            of_plain(plain::cut::keep(
                k.height,
                k.width,
                k.levels,
                first_mut(plane, k.plane),
                quota,
            ))
        },
    )
}

pub fn threshold(k: Plane, limit: u64) -> Pair<usize> {
    compare(
        plane_of(k),
        |plane| {
            of_coder(keeping::threshold(
                k.height,
                k.width,
                k.levels,
                first_mut(plane, k.plane),
                limit,
            ))
        },
        |plane| {
            of_plain(plain::cut::cut(
                k.height,
                k.width,
                k.levels,
                first_mut(plane, k.plane),
                limit,
            ))
        },
    )
}

// Both write into buffers of this length.
pub fn write(k: Plane, room: usize) -> Pair<usize> {
    let plane = plane_of(k);
    let coverings = [k.covering; 6];
    compare(
        [b'?'; 256],
        |buffer| {
            of_coder(sheet::write(
                k.height,
                k.width,
                k.levels,
                first(&plane, k.plane),
                first(&coverings, k.coverings),
                first_mut(buffer, room),
            ))
        },
        |buffer| {
            of_plain(plain_text::writing::write(
                k.height,
                k.width,
                k.levels,
                first(&plane, k.plane),
                first(&coverings, k.coverings),
                first_mut(buffer, room),
            ))
        },
    )
}

// A reading as the second implementation gives it.
pub fn of_reading(r: Result<Sheet, Refusal>) -> Answer<Frame> {
    of_coder(r).map(|sheet| Frame::new(sheet.height, sheet.width, sheet.levels))
}

// Both read a text, into slices of these lengths.
pub fn read_text(text: &[u8], n: usize, b: usize) -> Pair<Frame> {
    compare(
        Room::new(),
        |room| {
            of_reading(sheet::read(
                text,
                first_mut(&mut room.values, n),
                first_mut(&mut room.coverings, b),
            ))
        },
        |room| {
            of_plain(plain_text::reading::read(
                text,
                first_mut(&mut room.values, n),
                first_mut(&mut room.coverings, b),
            ))
        },
    )
}

// Both read the sheet of the plane. It is put down by the second implementation without any check, so that it may hold what a reader refuses.
pub fn read(k: Plane) -> Pair<Frame> {
    let frame = Frame::new(k.height, k.width, k.levels);
    let mut text = [0; 256];
    let end = plain_text::writing::put_sheet(frame, &plane_of(k), &[k.covering; 6], &mut text);
    read_text(first(&text, end), k.plane, k.coverings)
}
