// The rows of samples of the cutter's input, stored down columns.
ghost use Rattle.std.specs.Prelude.{◌≡◌, ℕ, ◌+◌, ◌-◌, ◌*◌, ◌<◌, ◌≤◌, length, drop};
ghost use Rattle.text.specs.Text.{row, times, after, parse};
ghost use Rattle.cutter_text.specs.Forms.{plains, samples_form};
ghost use Rattle.cutter_text.specs.Laws.{PictureLaws};
ghost use Rattle.cutter_text.specs.Rows.{held_to, row_of, rows_of, passed, SamplesIn};

use refusals::Refusal;

// The largest height or width that the cutter takes. Its contract carries the laws of rows and pictures, which are so a part of what the check proves.
pub fn largest_side() -> usize
    ensures { (result ≡ 32) × PictureLaws }
{
    32
}

// A value in 16 bits: 4,096 for any that is over 4,095.
fn hold(v: u32) -> u16
    ensures { result ≡ held_to v }
{
    if v <= 4095 {
        return v as u16;
    }
    4096
}

// The byte after the value of column x in a row of this width: a space, or LF after the last.
fn end_of(x: usize, width: usize) -> u8
    requires { x < width }
    ensures { result ≡ after (plains (width - x - 1)) }
{
    if width - x == 1 {
        return b'\n';
    }
    b' '
}

// Reads a line of as many values as the picture is wide, and stores them in row y: the place past it.
fn read_row(
    s: &[u8],
    at: usize,
    height: usize,
    width: usize,
    y: usize,
    samples: &mut [u16],
) -> Option<usize>
    requires { (y < height) × (height ≤ 32) × (width ≤ 32) × (length samples.old ≡ width * height) }
    ensures { passed result s.now samples.new ≡ row_of height y 0 samples.old (row (plains width) (drop at s.now)) }
{
    let mut p = at;
    for x in 0..width {
        let (v, next) = text::number::read_size(s, p, end_of(x, width))?;
        samples[x * height + y] = hold(v);
        p = next;
    }
    Some(p)
}

// Reads the lines of all rows.
fn read_rows(s: &[u8], at: usize, height: usize, width: usize, samples: &mut [u16]) -> Option<usize>
    requires { (height ≤ 32) × (width ≤ 32) × (length samples.old ≡ width * height) }
    ensures { passed result s.now samples.new ≡ rows_of height 0 samples.old (times height (plains width) (drop at s.now)) }
{
    let mut p = at;
    for y in 0..height {
        p = read_row(s, p, height, width, y, samples)?;
    }
    Some(p)
}

// Reads the rows of a picture, from the place `at` to the end of the text, and stores them down columns. Two wrong answers that the contract rules out:
// a picture whose rows are its columns, as `width` rows of `height` values; and a text accepted that goes on after the last row.
pub fn read_samples(
    s: &[u8],
    at: usize,
    height: usize,
    width: usize,
    samples: &mut [u16],
) -> Result<(), Refusal>
    requires { (at ≤ length s.now) × (height ≤ 32) × (width ≤ 32) × (length samples.old ≡ width * height) }
    ensures { SamplesIn height width (parse (samples_form height width) (drop at s.now)) samples.new result }
{
    let Some(p) = text::names::skip_names(s, at, b"samples\n") else {
        return Err(Refusal::Text);
    };
    let Some(end) = read_rows(s, p, height, width, samples) else {
        return Err(Refusal::Text);
    };
    if end < s.len() {
        return Err(Refusal::Text);
    }
    Ok(())
}
