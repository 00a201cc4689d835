// The cutter of the plain second implementation: text in, text out, for heights and widths up to 32. It shares no code, table or definition with the
// coder, and is proved to be safe and to end, and nothing more.
#![tactic(auto)]

use plain::cut::{keep, most_entries};
use plain::pyramid::decompose;
use plain::tiles::list_words;
use plain::windows::front;
use plain_frame::frame::{Extent, Frame};
use plain_frame::refusal::Refusal;
use plain_frame::safe::{put_sample, size};
use plain_text::lines::{line, natural, number, past};
use plain_text::writing::{Page, put_sheet};

// What the header asks for.
#[derive(Clone, Copy)]
struct Task {
    frame: Frame,
    quota: usize,
}

// The line of the header, below its names, and the text that is left.
fn header(text: &[u8]) -> Option<(Task, &[u8])> {
    if 65536 < text.len() {
        return None;
    }
    let text = text.strip_prefix(b"height width levels quota\n")?;
    let ([height, width, levels, quota, _], left) = line(text, 4)?;
    let task = Task {
        frame: Frame::new(natural(height), natural(width), natural(levels)),
        quota: natural(quota),
    };
    Some((task, left))
}

// Checks 1, 12 and 2.
fn check(frame: Frame) -> Result<(), Refusal> {
    let extent = frame.extent;
    Refusal::Side.unless(extent.has_sides())?;
    Refusal::Large.unless(extent.height <= 32 && extent.width <= 32)?;
    Refusal::Depth.unless(frame.has_depth())
}

// Reads the rows of values, which are stored down columns; gives whether one is over 4095, and the text that is left.
fn read_rows<'a>(text: &'a [u8], extent: Extent, samples: &mut [u16]) -> Option<(bool, &'a [u8])> {
    let mut left = text;
    let mut is_high = false;
    for row in 0..extent.height {
        for col in 0..extent.width {
            let (value, after) = number(left)?;
            left = past(after, col, extent.width)?;
            is_high = is_high || value > 4095;
            put_sample(samples, extent.cell(row, col), size(value));
        }
    }
    Some((is_high, left))
}

// Reads the samples. Checks 9, 4 and 7.
fn read_samples(text: &[u8], task: Task, samples: &mut [u16]) -> Result<(), Refusal> {
    let rows = text.strip_prefix(b"samples\n").ok_or(Refusal::Text)?;
    let (is_high, left) = read_rows(rows, task.frame.extent, samples).ok_or(Refusal::Text)?;
    Refusal::Text.unless(left.is_empty())?;
    Refusal::Sample.unless(!is_high)?;
    Refusal::Quota.unless(task.quota <= most_entries(task.frame))
}

// Cuts the picture and puts down its sheet, in slices with room to spare, of which the parts that the sizes and the depth ask for are lent.
fn cut_picture(task: Task, samples: &mut [u16], out: &mut [u8]) -> Result<usize, Refusal> {
    let Extent { height, width } = task.frame.extent;
    let levels = task.frame.levels;
    let mut words = [0u8; 1872];
    list_words(&mut words);
    let mut plane = [0i64; 1024];
    let mut scratch = [0i64; 1024];
    let mut coverings = [0u8; 128];
    let entries = task.frame.area();
    let plane = front(&mut plane, entries)?;
    let coverings = front(&mut coverings, task.frame.blocks())?;
    decompose(
        &words,
        height,
        width,
        levels,
        front(samples, entries)?,
        plane,
        coverings,
        front(&mut scratch, entries)?,
    )?;
    keep(height, width, levels, plane, task.quota as u64)?;
    Ok(put_sheet(task.frame, plane, coverings, out))
}

// Runs the cutter; gives the length of the sheet.
fn cut(text: &[u8], out: &mut [u8]) -> Result<usize, Refusal> {
    let (task, left) = header(text).ok_or(Refusal::Text)?;
    check(task.frame)?;
    let mut samples = [0u16; 1024];
    read_samples(left, task, &mut samples)?;
    cut_picture(task, &mut samples, out)
}

// Runs the cutter on its input; gives the length of what it prints. `out` has room for the longest sheet of 32 by 32, 16,155 bytes.
pub fn cutter(text: &[u8], out: &mut [u8]) -> usize {
    match cut(text, out) {
        Ok(length) => length,
        Err(refusal) => {
            let mut page = Page {
                room: out,
                length: 0,
            };
            page.text(b"refusal\n");
            page.number(u32::from(refusal) as usize, b'\n');
            page.length
        }
    }
}
