// Joining two strips: the places of the joined strip are gone through in plane order, its blocks in covering order, and for each is looked up what the
// strip that it comes from has at the same level, band, row and column.
use plain_frame::frame::{Frame, Spot};
use plain_frame::refusal::Refusal;
use plain_frame::safe::{at, plus, put, rest};
use plain_frame::strips::{Strip, check_join, joined};

// A place of the joined strip as its own strip has it, where the left part has so many columns: those of the right part are counted anew.
fn own_place(p: Spot, columns: usize) -> Spot {
    Spot {
        col: rest(p.col, columns),
        ..p
    }
}

// The entry of the joined plane at a place.
fn entry(left: Strip, right: Strip, p: Spot) -> i64 {
    let one = left.frame.extent;
    let columns = one.band(p.level).width;
    let from = if p.col < columns { left } else { right };
    at(from.plane, one.index_of(own_place(p, columns)), 0)
}

// The covering of the block at a place of the joined strip. A level has half as many block columns as a band of it has columns.
fn covering(left: Strip, right: Strip, p: Spot) -> u8 {
    let one = left.frame.extent;
    let columns = one.band(plus(p.level, 1)).width;
    let from = if p.col < columns { left } else { right };
    at(from.coverings, one.block_number(own_place(p, columns)), 0)
}

// Joins two strips of the same height, width and levels to one that is twice as wide.
pub fn join(
    left_height: usize,
    left_width: usize,
    left_levels: usize,
    left_plane: &[i64],
    left_coverings: &[u8],
    right_height: usize,
    right_width: usize,
    right_levels: usize,
    right_plane: &[i64],
    right_coverings: &[u8],
    plane: &mut [i64],
    coverings: &mut [u8],
) -> Result<(), Refusal> {
    let left = Strip {
        frame: Frame::new(left_height, left_width, left_levels),
        plane: left_plane,
        coverings: left_coverings,
    };
    let right = Strip {
        frame: Frame::new(right_height, right_width, right_levels),
        plane: right_plane,
        coverings: right_coverings,
    };
    check_join(left, right, plane.len(), coverings.len())?;
    let whole = joined(left.frame);
    for n in 0..whole.area() {
        let p = whole.place(n);
        put(plane, whole.extent.index_of(p), entry(left, right, p));
    }
    for (n, place) in coverings.iter_mut().enumerate() {
        *place = covering(left, right, whole.block(n));
    }
    Ok(())
}
