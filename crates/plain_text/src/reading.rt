// Reading a sheet: its lines are read once for each thing that is looked for.
use crate::lines::{Section, line, natural, read_section};
use plain_frame::frame::{Frame, Spot, in_range};
use plain_frame::refusal::Refusal;
use plain_frame::safe::{plus, put};

// A sheet that keeps the line rules: its frame, and its lines.
#[derive(Clone, Copy)]
struct Sheet<'a> {
    frame: Frame,
    blocks: Section<'a>,
    entries: Section<'a>,
}

// Check 9.
fn read_sheet(text: &[u8]) -> Option<Sheet<'_>> {
    let head = text.strip_prefix(b"height width levels\n")?;
    let ([height, width, levels, _, _], left) = line(head, 3)?;
    let (blocks, left) = read_section(left, b"level row col cover\n", 4)?;
    let (entries, left) = read_section(left, b"level band row col value\n", 5)?;
    if !left.is_empty() {
        return None;
    }
    Some(Sheet {
        frame: Frame::new(natural(height), natural(width), natural(levels)),
        blocks,
        entries,
    })
}

impl Sheet<'_> {
    // Check 11 on the block lines.
    fn check_blocks(self) -> Result<(), Refusal> {
        let frame = self.frame;
        Refusal::Order.unless(self.blocks.count == frame.blocks())?;
        self.blocks.try_each(|n, [level, row, col, _, _]| {
            let p = frame.block(n);
            Refusal::Order.unless(
                natural(level) == p.level && natural(row) == p.row && natural(col) == p.col,
            )
        })
    }

    // Check 11 on the plane lines: each place past the one before, and no value 0.
    fn check_entries(self) -> Result<(), Refusal> {
        let frame = self.frame;
        let mut free: usize = 0;
        self.entries.try_each(|_, line| {
            let here = line_number(frame, line).ok_or(Refusal::Order)?;
            let [_, _, _, _, value] = line;
            Refusal::Order.unless(free <= here && value != 0)?;
            free = plus(here, 1);
            Ok(())
        })
    }

    // Checks 1, 2, 3, 11, 5 and 6, for a plane and coverings of these lengths.
    fn check(self, plane: usize, coverings: usize) -> Result<(), Refusal> {
        self.frame.check_lengths(plane, coverings)?;
        self.check_blocks()?;
        self.check_entries()?;
        self.blocks.try_each(|_, [_, _, _, cover, _]| Refusal::Covering.unless(matches!(
            cover,
            1..=117
        )))?;
        self.entries.try_each(|_, [level, band, _, _, value]| {
            Refusal::Value.unless(in_range(value, natural(level), natural(band)))
        })
    }
}

// The number in plane order of the place that a line names.
fn line_number(frame: Frame, line: [i64; 5]) -> Option<usize> {
    let [level, band, row, col, _] = line;
    frame.number_of(Spot {
        level: natural(level),
        band: natural(band),
        row: natural(row),
        col: natural(col),
    })
}

// Reads a sheet; gives its frame.
pub fn read(text: &[u8], plane: &mut [i64], coverings: &mut [u8]) -> Result<Frame, Refusal> {
    let sheet = read_sheet(text).ok_or(Refusal::Text)?;
    let frame = sheet.frame;
    sheet.check(plane.len(), coverings.len())?;
    sheet.blocks.try_each(|n, [_, _, _, cover, _]| {
        put(coverings, n, u8::try_from(cover).unwrap_or(0));
        Ok(())
    })?;
    plane.fill(0);
    sheet.entries.try_each(|_, line| {
        let here = line_number(frame, line).ok_or(Refusal::Order)?;
        let [_, _, _, _, value] = line;
        put(plane, frame.index_at(here), value);
        Ok(())
    })?;
    Ok(frame)
}
