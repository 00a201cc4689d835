// Heights, widths and depths, places of the plane and of the blocks, and the ranges of the plane's entries.
use crate::refusal::Refusal;
use crate::safe::{at, over, plus, rest, size, times};

pub fn power(n: usize) -> usize {
    if n < 32 { 1 << n } else { 0 }
}

// A height or a width.
fn is_side(side: usize) -> bool {
    matches!(side, 4 | 8 | 16 | 32 | 64 | 128 | 256 | 512)
}

// A place of the plane, or of a block, whose band is 0.
#[derive(Clone, Copy)]
pub struct Spot {
    pub level: usize,
    pub band: usize,
    pub row: usize,
    pub col: usize,
}

// The height and the width of a picture, or of a part of it.
#[derive(Clone, Copy, PartialEq, Eq, Debug)]
pub struct Extent {
    pub height: usize,
    pub width: usize,
}

impl Extent {
    // Check 1.
    pub fn has_sides(self) -> bool {
        is_side(self.height) && is_side(self.width)
    }

    pub fn area(self) -> usize {
        times(self.height, self.width)
    }

    // The place of a cell where the cells stand down columns.
    pub fn cell(self, row: usize, col: usize) -> usize {
        plus(times(col, self.height), row)
    }

    // Height and width of a band of a level.
    pub fn band(self, level: usize) -> Extent {
        Extent {
            height: over(self.height, power(level)),
            width: over(self.width, power(level)),
        }
    }

    // The number of blocks of a level.
    pub fn level_blocks(self, level: usize) -> usize {
        self.band(plus(level, 1)).area()
    }

    // The number of blocks of the levels below `level`.
    pub fn blocks_before(self, level: usize) -> usize {
        (1..level).fold(0, |sum, below| plus(sum, self.level_blocks(below)))
    }

    // Where an entry stands in a plane stored down columns: band 1 right of band 0, band 2 below it, band 3 both.
    pub fn index_of(self, p: Spot) -> usize {
        let m = self.band(p.level);
        let down = if p.band < 2 { 0 } else { m.height };
        let across = if matches!(p.band, 1 | 3) { m.width } else { 0 };
        self.cell(plus(p.row, down), plus(p.col, across))
    }

    // The n-th block of a level.
    pub fn level_block(self, level: usize, n: usize) -> Spot {
        let m = self.band(plus(level, 1));
        Spot {
            level,
            band: 0,
            row: rest(n, m.height),
            col: over(n, m.height),
        }
    }

    // The number in covering order of the block at this place.
    pub fn block_number(self, p: Spot) -> usize {
        let m = self.band(plus(p.level, 1));
        plus(self.blocks_before(p.level), m.cell(p.row, p.col))
    }
}

// The height and the width of a picture, and its levels.
#[derive(Clone, Copy, PartialEq, Eq, Debug)]
pub struct Frame {
    pub extent: Extent,
    pub levels: usize,
}

impl Frame {
    pub fn new(height: usize, width: usize, levels: usize) -> Frame {
        Frame {
            extent: Extent { height, width },
            levels,
        }
    }

    pub fn area(self) -> usize {
        self.extent.area()
    }

    // Check 2. The image that the deepest level splits is at least 4 by 4: 2^(levels + 1) is at most the smaller of height and width.
    pub fn has_depth(self) -> bool {
        let smaller = self.extent.height.min(self.extent.width);
        matches!(self.levels, 1..=8) && power(plus(self.levels, 1)) <= smaller
    }

    // Checks 1 and 2.
    pub fn check(self) -> Result<(), Refusal> {
        Refusal::Side.unless(self.extent.has_sides())?;
        Refusal::Depth.unless(self.has_depth())
    }

    pub fn blocks(self) -> usize {
        self.extent.blocks_before(plus(self.levels, 1))
    }

    // Check 3, for a plane and coverings of these lengths.
    pub fn fits(self, plane: usize, coverings: usize) -> bool {
        plane == self.area() && coverings == self.blocks()
    }

    // Checks 1 to 3.
    pub fn check_lengths(self, plane: usize, coverings: usize) -> Result<(), Refusal> {
        self.check()?;
        Refusal::Length.unless(self.fits(plane, coverings))
    }

    fn level_entries(self, level: usize) -> usize {
        let bands = if level == self.levels { 4 } else { 3 };
        times(bands, self.extent.band(level).area())
    }

    // The n-th place of a level, in plane order.
    fn place_in_level(self, level: usize, n: usize) -> Spot {
        let m = self.extent.band(level);
        let first = if level == self.levels { 0 } else { 1 };
        let inside = rest(n, m.area());
        Spot {
            level,
            band: plus(first, over(n, m.area())),
            row: rest(inside, m.height),
            col: over(inside, m.height),
        }
    }

    // The n-th place of the plane, in plane order.
    pub fn place(self, n: usize) -> Spot {
        let mut left = n;
        for level in 1..self.levels {
            let here = self.level_entries(level);
            if left < here {
                return self.place_in_level(level, left);
            }
            left = left.saturating_sub(here);
        }
        self.place_in_level(self.levels, left)
    }

    // Where the n-th place of the plane stands.
    pub fn index_at(self, n: usize) -> usize {
        self.extent.index_of(self.place(n))
    }

    // Whether the level has the band; band 0 is the deepest level's alone.
    fn is_band(self, level: usize, band: usize) -> bool {
        let is_level = 1 <= level && level <= self.levels;
        is_level
            && (if band == 0 {
                level == self.levels
            } else {
                band < 4
            })
    }

    // The number in plane order of a place, if the plane has it.
    pub fn number_of(self, p: Spot) -> Option<usize> {
        let m = self.extent.band(p.level);
        if !self.is_band(p.level, p.band) || m.height <= p.row || m.width <= p.col {
            return None;
        }
        let whole = self.extent.band(p.level.saturating_sub(1)).area();
        let before = self.area().saturating_sub(whole);
        let bands = if p.level == self.levels {
            p.band
        } else {
            p.band.saturating_sub(1)
        };
        Some(plus(plus(before, times(bands, m.area())), m.cell(p.row, p.col)))
    }

    // The n-th block in covering order.
    pub fn block(self, n: usize) -> Spot {
        let mut left = n;
        for level in 1..self.levels {
            let here = self.extent.level_blocks(level);
            if left < here {
                return self.extent.level_block(level, left);
            }
            left = left.saturating_sub(here);
        }
        self.extent.level_block(self.levels, left)
    }

    // Check 6.
    pub fn is_in_range(self, plane: &[i64]) -> bool {
        (0..self.area()).all(|n| {
            let p = self.place(n);
            in_range(at(plane, self.extent.index_of(p), 0), p.level, p.band)
        })
    }

    // Checks 5 and 6.
    pub fn check_contents(self, plane: &[i64], coverings: &[u8]) -> Result<(), Refusal> {
        Refusal::Covering.unless(all_coverings(coverings))?;
        Refusal::Value.unless(self.is_in_range(plane))
    }

    // Checks 14, 5, 18 and 6.
    pub fn check_listed(self, plane: &[i64], coverings: &[u8], list: &[u8]) -> Result<(), Refusal> {
        Refusal::List.unless(is_list(list))?;
        Refusal::Covering.unless(all_coverings(coverings))?;
        Refusal::Unlisted.unless(coverings.iter().all(|covering| list.contains(covering)))?;
        self.check_contents(plane, coverings)
    }
}

// The largest size of an entry of the band.
pub fn reach(level: usize, band: usize) -> usize {
    if band == 0 {
        times(4095, power(times(2, level)))
    } else {
        times(8190, power(times(2, level.saturating_sub(1))))
    }
}

pub fn in_range(value: i64, level: usize, band: usize) -> bool {
    let is_signed = 0 < band;
    (is_signed || 0 <= value) && size(value) <= reach(level, band)
}

// Check 5.
pub fn all_coverings(coverings: &[u8]) -> bool {
    coverings.iter().all(|covering| matches!(covering, 1..=117))
}

// Check 14: coverings, each over the one before it.
pub fn is_list(list: &[u8]) -> bool {
    !list.is_empty() && all_coverings(list) && list.is_sorted_by(|one, next| one < next)
}

// How often these blocks have the covering.
pub fn times_chosen(coverings: &[u8], covering: u8) -> usize {
    coverings.iter().filter(|one| **one == covering).count()
}
