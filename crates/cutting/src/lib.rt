// The cutter: text in, text out. What it prints is `cutter_text` of specs/Cutter.antt; its input is read in `cutter_text`. The work space is in here, lent
// once to the function that works in it. Each checked answer is taken apart by let .. else, and the refusal that came back is printed by its number.
#![tactic(auto)]

ghost use Rattle.std.specs.Prelude.{◌≡◌, true, ◌||◌, ℕ, ◌*◌, ◌≤◌, ltb, length, drop};
ghost use Rattle.pyramid.specs.Plane.{all_blocks};
ghost use Rattle.pyramid.specs.Sides.{is_sides, is_depth};
ghost use Rattle.text.specs.Text.{parse};
ghost use Rattle.cutter_text.specs.Forms.{samples_form};
ghost use Rattle.cutting.specs.Cutter.{refusal_text, picture_text, samples_text, input_limit, cutter_text, Printed};
ghost use Rattle.cutting.specs.Checked.{Checked};
ghost use Rattle.cutting.specs.Laws.{CutterLaws};
ghost use Rattle.cutting.specs.Pictures.{kept_text, OfPicture};

use cutter_text::header::Heading;
use refusals::Refusal;

fn sample_buffer() -> [u16; 1024]
    ensures { 1024 ≡ length result }
{
    [0; 1024]
}

fn plane_buffer() -> [i64; 1024]
    ensures { 1024 ≡ length result }
{
    [0; 1024]
}

fn covering_buffer() -> [u8; 85]
    ensures { 85 ≡ length result }
{
    [0; 85]
}

// Prints a refusal.
fn put_refusal(out: &mut [u8], number: u32) -> usize
    requires { (number ≤ 99) × (65536 ≤ length out.old) }
    ensures { Printed (refusal_text number) out.old out.new result }
{
    let p = text::write::put_bytes(out, 0, b"refusal\n");
    text::write::put_cell(out, p, number, b'\n')
}

// Keeps, and prints the sheet of what is left of a picture's plane.
fn print_kept(
    height: usize,
    width: usize,
    levels: usize,
    quota: u64,
    plane: &mut [i64],
    coverings: &[u8],
    out: &mut [u8],
) -> usize
    requires width_value { (is_sides height width ≡ true) × (is_depth levels height width ≡ true) × (height ≤ 32) × (width ≤ 32) }
    requires of_picture { OfPicture height width levels plane.old coverings.now × (65536 ≤ length out.old) }
    ensures { Printed (kept_text height width levels quota plane.old coverings.now) out.old out.new result }
{
    let kept = keeping::keep(height, width, levels, plane, quota);
    let Ok(_) = kept else {
        return put_refusal(out, refusals::code(kept));
    };
    // Refused never: a sheet of at most 32 by 32 has at most 65,536 bytes.
    let written = sheet::write(height, width, levels, plane, coverings, out);
    let Ok(n) = written else {
        return put_refusal(out, refusals::code(written));
    };
    n
}

// Decomposes a picture, keeps, and prints the sheet.
fn print_sheet(
    height: usize,
    width: usize,
    levels: usize,
    quota: u64,
    samples: &[u16],
    plane: &mut [i64],
    coverings: &mut [u8],
    scratch: &mut [i64],
    out: &mut [u8],
) -> usize
    requires width_value { (is_sides height width ≡ true) × (is_depth levels height width ≡ true) × (height ≤ 32) × (width ≤ 32) }
    requires samples_len { (length samples.now ≡ width * height) × (length plane.old ≡ width * height) × (length scratch.old ≡ width * height) }
    requires coverings_len { (length coverings.old ≡ all_blocks levels height width) × (65536 ≤ length out.old) }
    ensures { Printed (picture_text height width levels quota samples.now) out.old out.new result }
{
    let decomposed = coder::decompose(height, width, levels, samples, plane, coverings, scratch);
    let Ok(()) = decomposed else {
        return put_refusal(out, refusals::code(decomposed));
    };
    print_kept(height, width, levels, quota, plane, coverings, out)
}

// The same, with the work space.
fn print_picture(
    height: usize,
    width: usize,
    levels: usize,
    quota: u64,
    samples: &[u16],
    out: &mut [u8],
) -> usize
    requires width_value { (is_sides height width ≡ true) × (is_depth levels height width ≡ true) × (height ≤ 32) × (width ≤ 32) }
    requires samples_len { (length samples.now ≡ width * height) × (65536 ≤ length out.old) }
    ensures { Printed (picture_text height width levels quota samples.now) out.old out.new result }
{
    let area = width * height;
    let blocks = places::checks::count_blocks(levels, height, width);
    let mut plane = plane_buffer();
    let mut coverings = covering_buffer();
    let mut scratch = plane_buffer();
    print_sheet(
        height,
        width,
        levels,
        quota,
        samples,
        &mut plane[..area],
        &mut coverings[..blocks],
        &mut scratch[..area],
        out,
    )
}

// Reads the rows of a picture from the place `at` on, and prints what becomes of it.
fn print_rows(
    text: &[u8],
    at: usize,
    height: usize,
    width: usize,
    levels: usize,
    quota: u64,
    samples: &mut [u16],
    out: &mut [u8],
) -> usize
    requires width_value { (is_sides height width ≡ true) × (is_depth levels height width ≡ true) × (height ≤ 32) × (width ≤ 32) × (at ≤ length text.now) }
    requires samples_len { (length samples.old ≡ width * height) × (65536 ≤ length out.old) }
    ensures { Printed (samples_text height width levels quota (parse (samples_form height width) (drop at text.now))) out.old out.new result }
{
    let found = cutter_text::samples::read_samples(text, at, height, width, samples);
    let Ok(()) = found else {
        return put_refusal(out, refusals::code(found));
    };
    print_picture(height, width, levels, quota, samples, out)
}

// The longest input. Its contract carries the law of good pictures, which is so a part of what the check proves.
pub fn longest_input() -> usize
    ensures { (result ≡ input_limit) × CutterLaws }
{
    65536
}

// Whether a picture is too large for the bench, in its height or in its width.
fn is_large(height: usize, width: usize) -> bool
    ensures { result ≡ (ltb 32 height || ltb 32 width) }
{
    (32 < height) | (32 < width)
}

// The header of a text, where it passes all checks that come before the rows: the input's length, "9 on the header (its first two lines), 1 12 2".
// Two wrong answers that the contract rules out: 12 for 64 by 6, which is 1; and 9 for an input of just 65,536 bytes.
fn check_header(s: &[u8]) -> Result<Heading, Refusal>
    ensures { Checked s.now result }
{
    if 65536 < s.len() {
        return Err(Refusal::Text);
    }
    let h = cutter_text::header::read_header(s)?;
    if !places::checks::are_sides(h.height, h.width) {
        return Err(Refusal::Side);
    }
    if is_large(h.height, h.width) {
        return Err(Refusal::Bench);
    }
    if !places::checks::is_depth(h.levels, h.height, h.width) {
        return Err(Refusal::Depth);
    }
    Ok(h)
}

// The cutter on a text: prints at the front of `out`, and gives the length. Two wrong answers that the contract rules out: refusal 2 for 4 by 64 with no
// levels, which is 12; and refusal 7 for a picture with a sample of 4,096, which is 4.
pub fn cut(text: &[u8], out: &mut [u8; 65536]) -> usize
    ensures { Printed (cutter_text text.now) out.old out.new result }
{
    let found = check_header(text);
    let Ok(h) = found else {
        return put_refusal(out, cutter_text::header::code(found));
    };
    let height = h.height;
    let width = h.width;
    let area = width * height;
    let mut samples = sample_buffer();
    print_rows(
        text,
        h.next,
        height,
        width,
        h.levels,
        h.quota,
        &mut samples[..area],
        out,
    )
}
