// Where the parts of a sheet's text stand: refusal 9.
ghost use Rattle.std.specs.Prelude.{◌≡◌, ◌≤◌, length};
ghost use Rattle.text.specs.Lines.{fours_at, fives_at};
ghost use Rattle.sheet_text.specs.Claims.{SheetLaws};
ghost use Rattle.sheet_scan.specs.Parts.{Tiled, Surveyed, FoundIn};

use crate::scan::Survey;
use crate::tiles::Tiling;

// What a sheet says of its height, width and levels, and where the lines of its blocks and of its entries begin.
#[derive(Clone, Copy)]
pub struct Layout {
    pub height: u32,
    pub width: u32,
    pub levels: u32,
    pub blocks: usize,
    pub entries: usize,
    // Kept: two flags for each kind of line, no Option of a flag: `Tiled` and `Surveyed` of specs/Parts.antt say each of its own.
    // Of the blocks' lines, where the height, the width and the levels are good: whether they are exactly the blocks in covering order; and, where they
    // are, whether their coverings have numbers.
    pub ordered: bool,
    pub numbered: bool,
    // Of the entries' lines, where the height, the width and the levels are good: whether they stand at places of the plane, rising in plane order,
    // with values that are not 0; and whether these are in their ranges.
    pub rising: bool,
    pub fitting: bool,
}

// Passes the lines of the blocks, in one pass where the height, the width and the levels are good.
fn survey_blocks(s: &[u8], at: usize, height: u32, width: u32, levels: u32) -> Tiling
    requires { at ≤ length s.now }
    ensures past_value { result.past ≡ fours_at s.now at }
    ensures tiled { Tiled s.now at height width levels result.ordered result.numbered }
{
    let h = height as usize;
    let w = width as usize;
    if !places::checks::are_sides(h, w) || !places::checks::is_depth(levels as usize, h, w) {
        return Tiling {
            past: reader::fours_end(s, at),
            ordered: false,
            numbered: false,
        };
    }
    crate::tiles::tile_along(s, at, height, width, levels)
}

// Passes the lines of the entries, in one pass where the height, the width and the levels are good.
fn survey_entries(s: &[u8], at: usize, height: u32, width: u32, levels: u32) -> Survey
    requires { at ≤ length s.now }
    ensures past_value { result.past ≡ fives_at s.now at }
    ensures surveyed { Surveyed s.now at height width levels result.rising result.fitting }
{
    let h = height as usize;
    let w = width as usize;
    if !places::checks::are_sides(h, w) || !places::checks::is_depth(levels as usize, h, w) {
        return Survey {
            past: reader::fives_end(s, at),
            rising: false,
            fitting: false,
        };
    }
    crate::scan::look_along(s, at, height, width, levels)
}

// The parts of a text that keeps the line rules of a tetrolet sheet, or nothing. (It states the laws of sheets besides, so that they are part of the verdict.)
pub fn find_parts(s: &[u8]) -> Option<Layout>
    ensures found_in { FoundIn s.now result }
    ensures sheet_laws { SheetLaws }
{
    let p = reader::names_at(s, 0, b"height width levels\n")?;
    let h = reader::three_at(s, p)?;
    let t = reader::names_at(s, h.next, b"level row col cover\n")?;
    let u = survey_blocks(s, t, h.first, h.second, h.third);
    let v = reader::names_at(s, u.past, b"level band row col value\n")?;
    let w = survey_entries(s, v, h.first, h.second, h.third);
    if w.past != s.len() {
        return None;
    }
    Some(Layout {
        height: h.first,
        width: h.second,
        levels: h.third,
        blocks: t,
        entries: v,
        ordered: u.ordered,
        numbered: u.numbered,
        rising: w.rising,
        fitting: w.fitting,
    })
}
