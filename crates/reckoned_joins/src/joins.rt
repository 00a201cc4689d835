// Joining two strips, by the coder and by the plain second implementation: an example, and the limits of the checks, each with what lies past it.
use cases::answers::{Answer, Pair, compare, of_coder, of_plain};
use cases::safe::{first, first_mut, load, plus, store, times};
use pairs::answers::{put, tell_one};
use pairs::planes::{Plane, plane_of, zeros};
use plain_frame::frame::Frame;
use std::io;

// A strip that is lent: height, width and levels, plane and coverings.
#[derive(Clone, Copy)]
pub struct Strip<'a> {
    pub frame: Frame,
    pub plane: &'a [i64],
    pub coverings: &'a [u8],
}

pub fn join_by_coder(
    left: Strip,
    right: Strip,
    plane: &mut [i64],
    coverings: &mut [u8],
) -> Answer<()> {
    of_coder(joining::join(
        left.frame.extent.height,
        left.frame.extent.width,
        left.frame.levels,
        left.plane,
        left.coverings,
        right.frame.extent.height,
        right.frame.extent.width,
        right.frame.levels,
        right.plane,
        right.coverings,
        plane,
        coverings,
    ))
}

pub fn join_by_plain(
    left: Strip,
    right: Strip,
    plane: &mut [i64],
    coverings: &mut [u8],
) -> Answer<()> {
    of_plain(plain::strips::join(
        left.frame.extent.height,
        left.frame.extent.width,
        left.frame.levels,
        left.plane,
        left.coverings,
        right.frame.extent.height,
        right.frame.extent.width,
        right.frame.levels,
        right.plane,
        right.coverings,
        plane,
        coverings,
    ))
}

// A call: the two strips, and the lengths of the joined plane and coverings.
#[derive(Clone, Copy)]
struct Call {
    left: Plane,
    right: Plane,
    plane: usize,
    coverings: usize,
}

// The slices of the joined strip. Room for 8 by 16 and 2 levels, and one place more.
#[derive(Clone, Copy, PartialEq)]
struct Room {
    plane: [i64; 129],
    coverings: [u8; 11],
}

// Other values than a call leaves.
fn before() -> Room {
    Room {
        plane: [7; 129],
        coverings: [9; 11],
    }
}

fn told(k: Plane) -> Frame {
    Frame::new(k.height, k.width, k.levels)
}

// The coder, into so many places of a plane and so many coverings.
fn by_coder(left: Strip, right: Strip, n: usize, b: usize, room: &mut Room) -> Answer<()> {
    join_by_coder(
        left,
        right,
        first_mut(&mut room.plane, n),
        first_mut(&mut room.coverings, b),
    )
}

fn by_plain(left: Strip, right: Strip, n: usize, b: usize, room: &mut Room) -> Answer<()> {
    join_by_plain(
        left,
        right,
        first_mut(&mut room.plane, n),
        first_mut(&mut room.coverings, b),
    )
}

// Both. A refused call leaves the slices as they were.
fn join_strips(left: Strip, right: Strip, n: usize, b: usize) -> Pair<()> {
    compare(
        before(),
        |room| by_coder(left, right, n, b, room),
        |room| by_plain(left, right, n, b, room),
    )
    .strict()
}

fn join(k: Call) -> Pair<()> {
    let left_plane = plane_of(k.left);
    let left_coverings = [k.left.covering; 6];
    let right_plane = plane_of(k.right);
    let right_coverings = [k.right.covering; 6];
    let left = Strip {
        frame: told(k.left),
        plane: first(&left_plane, k.left.plane),
        coverings: first(&left_coverings, k.left.coverings),
    };
    let right = Strip {
        frame: told(k.right),
        plane: first(&right_plane, k.right.plane),
        coverings: first(&right_coverings, k.right.coverings),
    };
    join_strips(left, right, k.plane, k.coverings)
}

// Two strips, and joined slices that are as long as both of theirs.
fn both(left: Plane, right: Plane) -> Call {
    Call {
        left,
        right,
        plane: plus(left.plane, right.plane),
        coverings: plus(left.coverings, right.coverings),
    }
}

fn put_told(rt: &impl Print, k: Plane) -> io::Result<()> {
    put(rt, b"height ", k.height)?;
    put(rt, b"width ", k.width)?;
    put(rt, b"levels ", k.levels)
}

fn shapes(rt: &impl Print, left: Plane, right: Plane) -> io::Result<()> {
    print!(rt; "left ")?;
    put_told(rt, left)?;
    print!(rt; "right ")?;
    put_told(rt, right)?;
    tell_one(rt, b"join", join(both(left, right)))
}

// A strip in slices of 16 places and 1 covering, which are those of 4 by 4 and 1 level.
fn small(height: usize, width: usize, levels: usize) -> Plane {
    zeros(height, width, levels, 16, 1)
}

// A height or a width that is none: of the left strip, of the right one, which is not 15, and of both. At 2^63 twice the width is past the largest number.
pub fn sides(rt: &impl Print) -> io::Result<()> {
    shapes(rt, small(4, 4, 1), small(4, 4, 1))?;
    shapes(rt, small(6, 4, 1), small(4, 4, 1))?;
    shapes(rt, small(4, 4, 1), small(6, 4, 1))?;
    shapes(rt, small(4, 4, 1), small(4, 6, 1))?;
    shapes(rt, small(4, 0, 1), small(4, 0, 1))?;
    shapes(rt, small(1024, 4, 1), small(1024, 4, 1))?;
    far_sides(rt)
}

// 9223372036854775808 is 2^63.
fn far_sides(rt: &impl Print) -> io::Result<()> {
    shapes(rt, small(4, 4, 1), small(4, 1024, 1))?;
    shapes(
        rt,
        small(9223372036854775808, 4, 1),
        small(9223372036854775808, 4, 1),
    )?;
    shapes(
        rt,
        small(4, 9223372036854775808, 1),
        small(4, 9223372036854775808, 1),
    )?;
    shapes(rt, small(4, 4, 9), small(4, 9223372036854775808, 1))
}

// Levels out of range: of the left strip, of the right one, which is not 15, and of both. With strips too wide it is not 16.
pub fn depths(rt: &impl Print) -> io::Result<()> {
    shapes(rt, small(4, 4, 0), small(4, 4, 1))?;
    shapes(rt, small(4, 4, 1), small(4, 4, 0))?;
    shapes(rt, small(4, 4, 1), small(4, 4, 2))?;
    shapes(rt, small(4, 4, 1), small(4, 4, 9))?;
    shapes(rt, small(4, 4, 2), small(4, 4, 2))?;
    shapes(rt, small(4, 4, 1), small(4, 4, usize::MAX))?;
    deep_strips(rt)
}

fn deep_strips(rt: &impl Print) -> io::Result<()> {
    shapes(rt, small(8, 8, 2), small(8, 4, 2))?;
    shapes(rt, small(4, 8, 2), small(8, 8, 2))?;
    shapes(rt, small(4, 512, 2), small(4, 512, 2))?;
    shapes(rt, small(512, 512, 8), small(512, 512, 9))
}

// Heights, widths or levels that differ. It is neither 16 nor 3, and is so whatever the lengths are.
pub fn unlike(rt: &impl Print) -> io::Result<()> {
    shapes(rt, zeros(8, 4, 1, 32, 2), zeros(8, 4, 1, 32, 2))?;
    shapes(rt, zeros(8, 4, 1, 32, 2), zeros(4, 4, 1, 16, 1))?;
    shapes(rt, zeros(4, 4, 1, 16, 1), zeros(8, 4, 1, 32, 2))?;
    shapes(rt, zeros(4, 8, 1, 32, 2), zeros(4, 4, 1, 16, 1))?;
    shapes(rt, zeros(4, 4, 1, 16, 1), zeros(4, 8, 1, 32, 2))?;
    shapes(rt, zeros(4, 8, 1, 32, 2), zeros(8, 4, 1, 32, 2))?;
    unlike_levels(rt)?;
    unlike_wide(rt)
}

fn unlike_levels(rt: &impl Print) -> io::Result<()> {
    shapes(rt, zeros(8, 8, 2, 64, 5), zeros(8, 8, 2, 64, 5))?;
    shapes(rt, zeros(8, 8, 1, 64, 4), zeros(8, 8, 2, 64, 5))?;
    shapes(rt, zeros(8, 8, 2, 64, 5), zeros(8, 8, 1, 64, 4))
}

fn unlike_wide(rt: &impl Print) -> io::Result<()> {
    shapes(rt, small(512, 512, 1), small(512, 256, 1))?;
    shapes(rt, small(512, 256, 1), small(512, 512, 1))?;
    shapes(rt, small(4, 512, 1), small(8, 512, 1))?;
    shapes(rt, small(512, 512, 8), small(512, 512, 7))
}

// Joined widths over 512, which is not 3; and 512 with short slices, which has passed 16.
pub fn wide(rt: &impl Print) -> io::Result<()> {
    shapes(rt, small(4, 256, 1), small(4, 256, 1))?;
    shapes(rt, small(4, 512, 1), small(4, 512, 1))?;
    shapes(rt, small(512, 256, 7), small(512, 256, 7))?;
    shapes(rt, small(512, 512, 8), small(512, 512, 8))
}

fn put_lent(rt: &impl Print, plane: usize, coverings: usize) -> io::Result<()> {
    put(rt, b"plane ", plane)?;
    put(rt, b"coverings ", coverings)
}

// Two strips like this one but for the lengths of the slices.
fn lengths(
    rt: &impl Print,
    one: Plane,
    left_plane: usize,
    left_coverings: usize,
    right_plane: usize,
    right_coverings: usize,
    plane: usize,
    coverings: usize,
) -> io::Result<()> {
    put(rt, b"width ", one.width)?;
    print!(rt; "left ")?;
    put_lent(rt, left_plane, left_coverings)?;
    print!(rt; "right ")?;
    put_lent(rt, right_plane, right_coverings)?;
    print!(rt; "joined ")?;
    put_lent(rt, plane, coverings)?;
    let k = Call {
        left: Plane {
            plane: left_plane,
            coverings: left_coverings,
            ..one
        },
        right: Plane {
            plane: right_plane,
            coverings: right_coverings,
            ..one
        },
        plane,
        coverings,
    };
    tell_one(rt, b"join", join(k))
}

// 4 by 4 and 1 level: every slice of its exact length, and each with one place less and one more.
pub fn frames(rt: &impl Print) -> io::Result<()> {
    let k = zeros(4, 4, 1, 16, 1);
    lengths(rt, k, 16, 1, 16, 1, 32, 2)?;
    lengths(rt, k, 15, 1, 16, 1, 32, 2)?;
    lengths(rt, k, 17, 1, 16, 1, 32, 2)?;
    lengths(rt, k, 16, 0, 16, 1, 32, 2)?;
    lengths(rt, k, 16, 2, 16, 1, 32, 2)?;
    lengths(rt, k, 16, 1, 15, 1, 32, 2)?;
    lengths(rt, k, 16, 1, 17, 1, 32, 2)?;
    lengths(rt, k, 16, 1, 16, 0, 32, 2)?;
    lengths(rt, k, 16, 1, 16, 2, 32, 2)
}

// The joined slices: as long as those of one strip, one place less and one more than of both.
pub fn joined_frames(rt: &impl Print) -> io::Result<()> {
    let k = zeros(4, 4, 1, 16, 1);
    lengths(rt, k, 16, 1, 16, 1, 16, 2)?;
    lengths(rt, k, 16, 1, 16, 1, 31, 2)?;
    lengths(rt, k, 16, 1, 16, 1, 33, 2)?;
    lengths(rt, k, 16, 1, 16, 1, 32, 1)?;
    lengths(rt, k, 16, 1, 16, 1, 32, 3)?;
    let q = zeros(8, 8, 2, 64, 5);
    lengths(rt, q, 64, 5, 64, 5, 128, 5)?;
    lengths(rt, q, 64, 5, 64, 5, 128, 9)?;
    lengths(rt, q, 64, 5, 64, 5, 128, 10)
}

// Strips of 4 by 4 with these coverings, where the joined plane is too short.
fn short(rt: &impl Print, left: u8, right: u8) -> io::Result<()> {
    put(rt, b"joined plane ", 31)?;
    put(rt, b"left covering ", left)?;
    put(rt, b"right covering ", right)?;
    let k = Call {
        left: covered(left, 0, 0),
        right: covered(right, 0, 0),
        plane: 31,
        coverings: 2,
    };
    tell_one(rt, b"join", join(k))
}

// A strip of 4 by 4 with this covering, and this value at a place among zeros.
fn covered(covering: u8, at: usize, value: i64) -> Plane {
    Plane {
        covering,
        at,
        value,
        ..zeros(4, 4, 1, 16, 1)
    }
}

fn put_held(rt: &impl Print, k: Plane) -> io::Result<()> {
    put(rt, b"covering ", k.covering)?;
    put(rt, b"place ", k.at)?;
    put(rt, b"value ", k.value)
}

fn contents(rt: &impl Print, left: Plane, right: Plane) -> io::Result<()> {
    print!(rt; "left ")?;
    put_held(rt, left)?;
    print!(rt; "right ")?;
    put_held(rt, right)?;
    tell_one(rt, b"join", join(both(left, right)))
}

// Coverings that are none: in the left strip, in the right one and in both. With a joined plane that is too short it is 3, with a value out of its range 5.
pub fn coverings(rt: &impl Print) -> io::Result<()> {
    short(rt, 0, 118)?;
    contents(rt, covered(117, 0, 0), covered(1, 0, 0))?;
    contents(rt, covered(0, 0, 0), covered(1, 0, 0))?;
    contents(rt, covered(1, 0, 0), covered(0, 0, 0))?;
    contents(rt, covered(118, 0, 0), covered(118, 0, 0))?;
    contents(rt, covered(1, 0, 0), covered(255, 0, 0))?;
    contents(rt, covered(1, 0, -1), covered(0, 0, 0))?;
    contents(rt, covered(0, 0, 0), covered(1, 0, -1))
}

// Values at the ends of their ranges, and past them: the low-pass at place 0, W at place 8.
pub fn values(rt: &impl Print) -> io::Result<()> {
    contents(rt, covered(1, 0, 16380), covered(1, 8, -8190))?;
    contents(rt, covered(1, 0, -1), covered(1, 8, 8190))?;
    contents(rt, covered(1, 0, 16381), covered(1, 8, 8190))?;
    contents(rt, covered(1, 0, 0), covered(1, 0, -1))?;
    contents(rt, covered(1, 0, 0), covered(1, 8, 8191))?;
    contents(rt, covered(1, 8, -8191), covered(1, 8, -8191))
}

// Each entry of a plane whose columns have 8 places holds the number of its column, and so much more.
fn columns(more: usize, plane: &mut [i64]) {
    for i in 0..plane.len() {
        store(plane, i, plus(more, i / 8));
    }
}

// A row of the joined plane.
fn put_row(rt: &impl Print, plane: &[i64], row: usize) -> io::Result<()> {
    print!(rt; "row {row}:")?;
    for col in 0..16 {
        print!(rt; " {}", load(plane, plus(times(8, col), row)))?;
    }
    println!(rt)
}

// Document 02, wish 8: "Each band and each level's coverings hold the left part's columns, then the right's." Two strips of 8 by 8 and 2 levels. The entries
// of the left one hold the number of their column, 0 to 7, those of the right one 10 more. Of the joined plane row 0 goes through bands 0 and 1 of level 2,
// each 4 wide, and band 1 of level 1, 8 wide; row 4 goes through bands 2 and 3 of level 1, each 8 wide. Level 1 has the coverings A to D on the left and a to d
// on the right, level 2 has E and e.
pub fn example(rt: &impl Print) -> io::Result<()> {
    put(rt, b"height ", 8)?;
    put(rt, b"width ", 8)?;
    put(rt, b"levels ", 2)?;
    let mut left_plane = [0; 64];
    let mut right_plane = [0; 64];
    columns(0, &mut left_plane);
    columns(10, &mut right_plane);
    let left = Strip {
        frame: Frame::new(8, 8, 2),
        plane: &left_plane,
        coverings: b"ABCDE",
    };
    let right = Strip {
        frame: Frame::new(8, 8, 2),
        plane: &right_plane,
        coverings: b"abcde",
    };
    tell_one(rt, b"join", join_strips(left, right, 128, 10))?;
    let mut room = before();
    let _ = by_coder(left, right, 128, 10, &mut room);
    put_row(rt, &room.plane, 0)?;
    put_row(rt, &room.plane, 4)?;
    print!(rt; "coverings: ")?;
    rt.write_all(first(&room.coverings, 10))?;
    println!(rt)
}
