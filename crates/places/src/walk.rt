// A walk along the entries of a plane in plane order, or along the blocks in covering order, by value.
ghost use Rattle.std.specs.Prelude.{◌≡◌, true, ℕ, ◌<◌};
ghost use Rattle.pyramid.specs.Sides.{is_sides, is_depth};
ghost use Rattle.pyramid.specs.Places.{plane_places, tetrolet_places, block_places};
ghost use Rattle.places.specs.Walk.{Inside, Stepped, entries_left, blocks_left};

#[derive(Clone, Copy)]
pub struct Walk {
    // The level, and how many levels are left with it: 0 at the end of the walk.
    pub level: u32,
    pub left: u32,
    // The band, and the row and the column in it.
    // Kept: a number, for `step` counts it on, and `Place` in the specs of pyramid has it so.
    pub band: u32,
    pub row: u32,
    pub col: u32,
    // The height and the width of a band of the level.
    pub height: u32,
    pub width: u32,
    // The first band of the last level, and that of the others.
    pub low: u32,
    pub first: u32,
}

// The next cell in a plane of this height and width.
pub fn step(k: Walk, height: u32, width: u32) -> Walk
    requires { (0 < k.left) × Inside height width k }
    ensures { Stepped height width k result }
{
    if k.row + 1 < k.height {
        return Walk {
            row: k.row + 1,
            ..k
        };
    }
    if k.col + 1 < k.width {
        return Walk {
            row: 0,
            col: k.col + 1,
            ..k
        };
    }
    if k.band < 3 {
        return Walk {
            band: k.band + 1,
            row: 0,
            col: 0,
            ..k
        };
    }
    if k.left == 1 {
        return Walk {
            left: 0,
            row: 0,
            col: 0,
            ..k
        };
    }
    if k.left == 2 {
        return Walk {
            level: k.level + 1,
            left: 1,
            band: k.low,
            row: 0,
            col: 0,
            height: k.height / 2,
            width: k.width / 2,
            ..k
        };
    }
    Walk {
        level: k.level + 1,
        left: k.left - 1,
        band: k.first,
        row: 0,
        col: 0,
        height: k.height / 2,
        width: k.width / 2,
        ..k
    }
}

// The walk along the entries of a plane.
pub fn first_entry(height: u32, width: u32, levels: u32) -> Walk
    requires { (is_sides height width ≡ true) × (is_depth levels height width ≡ true) }
    ensures inside { Inside height width result }
    ensures result_value { entries_left result ≡ plane_places levels height width }
{
    Walk {
        level: 1,
        left: levels,
        band: if levels == 1 { 0 } else { 1 },
        row: 0,
        col: 0,
        height: height / 2,
        width: width / 2,
        low: 0,
        first: 1,
    }
}

// The walk along the tetrolet entries of a plane: those of bands 1 to 3.
pub fn first_tetrolet(height: u32, width: u32, levels: u32) -> Walk
    requires { (is_sides height width ≡ true) × (is_depth levels height width ≡ true) }
    ensures inside { Inside height width result }
    ensures result_value { entries_left result ≡ tetrolet_places levels height width }
{
    Walk {
        level: 1,
        left: levels,
        band: 1,
        row: 0,
        col: 0,
        height: height / 2,
        width: width / 2,
        low: 1,
        first: 1,
    }
}

// The walk along the blocks.
pub fn first_block(height: u32, width: u32, levels: u32) -> Walk
    requires { (is_sides height width ≡ true) × (is_depth levels height width ≡ true) }
    ensures inside { Inside height width result }
    ensures result_value { blocks_left result ≡ block_places levels height width }
{
    Walk {
        level: 1,
        left: levels,
        band: 3,
        row: 0,
        col: 0,
        height: height / 4,
        width: width / 4,
        low: 3,
        first: 3,
    }
}
