// How far the lines of a sheet's entries have come along the plane: from the place of one line to that of the next, over those between at once.
ghost use Rattle.std.specs.Prelude.{◌≡◌, true, false, ◌*◌, ◌<◌, ◌≤◌};
ghost use Rattle.pyramid.specs.Places.{plane_places};
ghost use Rattle.pyramid.specs.Sides.{is_sides, is_depth};
ghost use Rattle.sheet_scan.specs.Front.{level_number, is_ahead, walk_to, past_line, Standing, places_left, LevelPassed, Sought};

use places::walk::Walk;
use text::lines::Five;

#[derive(Clone, Copy)]
pub struct Front {
    // The level, and how many levels are left with it: 0 past the last.
    pub level: u32,
    pub left: u32,
    // The height and the width of a band of the level.
    pub height: u32,
    pub width: u32,
    // The number of the first place of the level that is left: places are counted down columns, band by band from band 0 on.
    pub from: u32,
}

// The front before the first place of a plane.
pub fn first(height: u32, width: u32, levels: u32) -> Front
    requires { (is_sides height width ≡ true) × (is_depth levels height width ≡ true) }
    ensures { Standing height width result × (0 < result.left) × (places_left result ≡ plane_places levels height width) }
{
    let h = height / 2;
    let w = width / 2;
    if levels == 1 {
        return Front {
            level: 1,
            left: 1,
            height: h,
            width: w,
            from: 0,
        };
    }
    Front {
        level: 1,
        left: levels,
        height: h,
        width: w,
        from: w * h,
    }
}

// The front before the first place of the next level.
fn next_level(k: Front, height: u32, width: u32) -> Front
    requires { (0 < k.left) × Standing height width k }
    ensures { LevelPassed height width k result }
{
    if k.left == 1 {
        return Front {
            level: k.level,
            left: 0,
            height: k.height,
            width: k.width,
            from: 0,
        };
    }
    let h = k.height / 2;
    let w = k.width / 2;
    if k.left == 2 {
        return Front {
            level: k.level + 1,
            left: 1,
            height: h,
            width: w,
            from: 0,
        };
    }
    Front {
        level: k.level + 1,
        left: k.left - 1,
        height: h,
        width: w,
        from: w * h,
    }
}

// The number of a line's place in a level with bands of this height and width.
fn level_number(f: Five, height: u32, width: u32) -> u32
    requires { (height ≤ 256) × (width ≤ 256) × (f.second ≤ 3) × (f.third < height) × (f.fourth < width) }
    ensures { (result ≡ level_number height width f) × (result < 262144) }
{
    (f.second * width + f.fourth) * height + f.third
}

// Whether a line is of a place that is left in the present level.
fn is_ahead(f: Five, k: Front) -> bool
    requires { (k.height ≤ 256) × (k.width ≤ 256) }
    ensures { result ≡ is_ahead f k }
{
    if f.first != k.level {
        return false;
    }
    if 3 < f.second {
        return false;
    }
    if k.height <= f.third {
        return false;
    }
    if k.width <= f.fourth {
        return false;
    }
    k.from <= level_number(f, k.height, k.width)
}

// The front in the level of a line's place, where that is none of the places left in the present level.
fn seek_behind(start: Front, f: Five, height: u32, width: u32) -> Front
    requires { (0 < start.left) × Standing height width start × (is_ahead f start ≡ false) }
    ensures { Sought height width f start result }
{
    let mut k = next_level(start, height, width);
    // Kept: no index is counted: the front knows its own end, and is the answer there.
    while 0 < k.left {
        if is_ahead(f, k) {
            return k;
        }
        k = next_level(k, height, width);
    }
    k
}

// The front in the level of a line's place, or past the last level where the line is of no place that is left.
pub fn seek(start: Front, f: Five, height: u32, width: u32) -> Front
    requires { (0 < start.left) × Standing height width start }
    ensures { Sought height width f start result }
{
    if is_ahead(f, start) {
        return start;
    }
    seek_behind(start, f, height, width)
}

// The walk at the place of a line.
pub fn walk_to(k: Front, f: Five) -> Walk
    ensures { result ≡ walk_to k f }
{
    Walk {
        level: k.level,
        left: k.left,
        band: f.second,
        row: f.third,
        col: f.fourth,
        height: k.height,
        width: k.width,
        low: 0,
        first: 1,
    }
}

// The front behind the place of a line.
pub fn past_line(k: Front, f: Five) -> Front
    requires { (k.height ≤ 256) × (k.width ≤ 256) × (is_ahead f k ≡ true) }
    ensures { result ≡ past_line k f }
{
    let n = level_number(f, k.height, k.width);
    Front {
        level: k.level,
        left: k.left,
        height: k.height,
        width: k.width,
        from: n + 1,
    }
}
