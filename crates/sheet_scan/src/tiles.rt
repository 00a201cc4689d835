// The lines of a sheet's blocks, read along a walk.
ghost use Rattle.std.specs.Prelude.{◌≡◌, true, ◌&&◌, ◌≤◌, eqb, length};
ghost use Rattle.integers.specs.Lists.{every};
ghost use Rattle.coverings.specs.Entry.{is_number};
ghost use Rattle.pyramid.specs.Places.{block_places};
ghost use Rattle.pyramid.specs.Sides.{is_sides, is_depth};
ghost use Rattle.text.specs.Lines.{four, lines_at, fours_at};
ghost use Rattle.sheet_text.specs.Rows.{covers_of};
ghost use Rattle.sheet_text.specs.Sheet.{is_some};
ghost use Rattle.sheet_scan.specs.Scan.{covers_along};

use places::walk::Walk;
use text::lines::Four;

// Whether a line is of the present block.
fn is_block(f: Four, k: Walk) -> bool
    ensures { result ≡ (eqb f.first k.level && (eqb f.second k.row && eqb f.third k.col)) }
{
    f.first == k.level && f.second == k.row && f.third == k.col
}

// Whether a covering has a number, 1 to 117.
fn is_number(c: u32) -> bool
    ensures { result ≡ is_number c }
{
    1 <= c && c <= 117
}

// What one pass over the lines of the blocks finds.
#[derive(Drop)]
pub struct Tiling {
    // The place past the lines.
    pub past: usize,
    // Whether they are exactly the blocks in covering order.
    pub ordered: bool,
    // Whether their coverings have numbers, where they are the blocks.
    pub numbered: bool,
}

// Passes the lines from the place `at` on.
pub fn tile_along(s: &[u8], at: usize, height: u32, width: u32, levels: u32) -> Tiling
    requires { (is_sides height width ≡ true) × (is_depth levels height width ≡ true) × (at ≤ length s.now) }
    ensures { (result.past ≡ fours_at s.now at) × (result.ordered ≡ is_some (covers_of (block_places levels height width) (lines_at four s.now at))) × (result.ordered ≡ true → result.numbered ≡ every is_number (covers_along (lines_at four s.now at))) }
{
    let mut k = places::walk::first_block(height, width, levels);
    let mut p = at;
    let mut ordered = true;
    let mut numbered = true;
    // Kept: no index is counted: the walk knows its own end.
    while 0 < k.left {
        let Some(f) = text::lines::read_four(s, p) else {
            return Tiling {
                past: p,
                ordered: false,
                numbered: false,
            };
        };
        let here = is_block(f, k);
        ordered = crate::scan::both(ordered, here);
        let good = is_number(f.fourth);
        numbered = crate::scan::both(numbered, good);
        p = f.next;
        k = places::walk::step(k, height, width);
    }
    let Some(g) = text::lines::read_four(s, p) else {
        return Tiling {
            past: p,
            ordered,
            numbered,
        };
    };
    let past = text::lines::pass_fours(s, g.next);
    Tiling {
        past,
        ordered: false,
        numbered: false,
    }
}

// Stores the coverings of the lines from the place `at` on.
pub fn store_covers(coverings: &mut [u8], s: &[u8], at: usize)
    requires at_len { length (lines_at four s.now at) ≡ length coverings.old }
    requires at_value { every is_number (covers_along (lines_at four s.now at)) ≡ true }
    ensures { coverings.new ≡ covers_along (lines_at four s.now at) }
{
    let mut p = at;
    for covering in coverings.iter_mut() {
        let Some(f) = text::lines::read_four(s, p) else {
            return;
        };
        *covering = f.fourth as u8;
        p = f.next;
    }
}
