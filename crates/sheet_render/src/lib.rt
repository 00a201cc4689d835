// A sheet, measured and written: its lines of names, the lines of its blocks and those of its entries. Refusals are the business of the crate sheet above.
#![tactic(auto)]

ghost use Rattle.std.specs.Prelude.{◌≡◌, true, ℕ, ◌+◌, ◌*◌, ◌≤◌, length, nat_abs};
ghost use Rattle.pyramid.specs.Plane.{all_blocks};
ghost use Rattle.pyramid.specs.Sides.{is_sides, is_depth};
ghost use Rattle.pyramid.specs.Slices.{image_of};
ghost use Rattle.pyramid.specs.Ranges.{in_range};
ghost use Rattle.text.specs.Text.{limit};
ghost use Rattle.text.specs.Write.{stamp};
ghost use Rattle.places.specs.Walk.{Inside};
ghost use Rattle.sheet_render.specs.Line.{line_of};
ghost use Rattle.sheet_text.specs.Sheet.{blocks_text, entries_text, head_part, block_part, entry_part, sheet_text};

use places::walk::Walk;

// How long the lines of the blocks are.
pub fn blocks_length(coverings: &[u8], height: u32, width: u32, levels: u32) -> usize
    requires width_value { (is_sides height width ≡ true) × (is_depth levels height width ≡ true) }
    requires coverings_len { (length coverings.now ≡ all_blocks levels height width) × (length coverings.now ≤ 131072) }
    ensures { (result ≡ length (blocks_text levels height width coverings.now)) × (result ≤ 8388608) }
{
    let mut k = places::walk::first_block(height, width, levels);
    let mut n = 0;
    for covering in coverings {
        n += text::write::four_width(k.level, k.row, k.col, *covering as u32, b'\n');
        k = places::walk::step(k, height, width);
    }
    n
}

// Writes the lines of the blocks from the place `at`; gives the place past them.
pub fn put_blocks(
    out: &mut [u8],
    at: usize,
    coverings: &[u8],
    height: u32,
    width: u32,
    levels: u32,
) -> usize
    requires width_value { (is_sides height width ≡ true) × (is_depth levels height width ≡ true) }
    requires coverings_len { length coverings.now ≡ all_blocks levels height width }
    requires coverings_in_bounds { at + length (blocks_text levels height width coverings.now) ≤ length out.old }
    ensures value { result ≡ at + length (blocks_text levels height width coverings.now) }
    ensures out_after { out.new ≡ stamp at (blocks_text levels height width coverings.now) out.old }
{
    let mut k = places::walk::first_block(height, width, levels);
    let mut p = at;
    for covering in coverings {
        p = text::write::put_four(out, p, k.level, k.row, k.col, *covering as u32, b'\n');
        k = places::walk::step(k, height, width);
    }
    p
}

// How long the line of an entry is: nothing where its value is zero.
fn entry_length(k: Walk, height: u32, width: u32, v: i64) -> usize
    requires { Inside height width k × (k.level ≤ 10) × (nat_abs v ≤ limit) }
    ensures { (result ≡ length (line_of k v)) × (result ≤ 64) }
{
    if v == 0 {
        return 0;
    }
    text::write::five_width(k.level, k.band, k.row, k.col, v)
}

// Writes the line of an entry, and nothing where its value is zero; gives the place past it.
fn put_entry(out: &mut [u8], at: usize, k: Walk, height: u32, width: u32, v: i64) -> usize
    requires inside { Inside height width k × (k.level ≤ 10) × (nat_abs v ≤ limit) }
    requires v_in_bounds { at + length (line_of k v) ≤ length out.old }
    ensures value { result ≡ at + length (line_of k v) }
    ensures out_after { out.new ≡ stamp at (line_of k v) out.old }
{
    if v == 0 {
        return at;
    }
    text::write::put_five(out, at, k.level, k.band, k.row, k.col, v)
}

// How long the lines of the entries are.
pub fn entries_length(plane: &[i64], height: u32, width: u32, levels: u32) -> usize
    requires width_value { (is_sides height width ≡ true) × (is_depth levels height width ≡ true) }
    requires plane_len { (length plane.now ≡ width * height) × (in_range levels height width (image_of height plane.now) ≡ true) }
    ensures { (result ≡ length (entries_text levels height width plane.now)) × (result ≤ 16777216) }
{
    let mut k = places::walk::first_entry(height, width, levels);
    let mut n = 0;
    // Kept: no index is counted: the walk knows its own end.
    while 0 < k.left {
        let i = places::checks::index_of(k, height, width);
        let v = plane[i];
        n += entry_length(k, height, width, v);
        k = places::walk::step(k, height, width);
    }
    n
}

// Writes the lines of the entries from the place `at`; gives the place past them.
pub fn put_entries(
    out: &mut [u8],
    at: usize,
    plane: &[i64],
    height: u32,
    width: u32,
    levels: u32,
) -> usize
    requires width_value { (is_sides height width ≡ true) × (is_depth levels height width ≡ true) }
    requires plane_len { (length plane.now ≡ width * height) × (in_range levels height width (image_of height plane.now) ≡ true) }
    requires plane_in_bounds { at + length (entries_text levels height width plane.now) ≤ length out.old }
    ensures value { result ≡ at + length (entries_text levels height width plane.now) }
    ensures out_after { out.new ≡ stamp at (entries_text levels height width plane.now) out.old }
{
    let mut k = places::walk::first_entry(height, width, levels);
    let mut p = at;
    // Kept: no index is counted: the walk knows its own end.
    while 0 < k.left {
        let i = places::checks::index_of(k, height, width);
        let v = plane[i];
        p = put_entry(out, p, k, height, width, v);
        k = places::walk::step(k, height, width);
    }
    p
}

// Writes the line of names of the sheet's height, width and levels, and their line; gives the place past them.
fn put_head(out: &mut [u8], height: u32, width: u32, levels: u32) -> usize
    requires { (height ≤ limit) × (width ≤ limit) × (levels ≤ limit) × (length (head_part height width levels) ≤ length out.old) }
    ensures value { result ≡ length (head_part height width levels) }
    ensures out_after { out.new ≡ stamp 0 (head_part height width levels) out.old }
{
    let p = text::write::put_bytes(out, 0, b"height width levels\n");
    let q = text::write::put_cell(out, p, height, b' ');
    let r = text::write::put_cell(out, q, width, b' ');
    text::write::put_cell(out, r, levels, b'\n')
}

// Writes the line of names of the blocks, and their lines.
fn put_block_part(
    out: &mut [u8],
    at: usize,
    coverings: &[u8],
    height: u32,
    width: u32,
    levels: u32,
) -> usize
    requires width_value { (is_sides height width ≡ true) × (is_depth levels height width ≡ true) }
    requires coverings_len { length coverings.now ≡ all_blocks levels height width }
    requires coverings_in_bounds { at + length (block_part levels height width coverings.now) ≤ length out.old }
    ensures value { result ≡ at + length (block_part levels height width coverings.now) }
    ensures out_after { out.new ≡ stamp at (block_part levels height width coverings.now) out.old }
{
    let p = text::write::put_bytes(out, at, b"level row col cover\n");
    put_blocks(out, p, coverings, height, width, levels)
}

// Writes the line of names of the entries, and their lines.
fn put_entry_part(
    out: &mut [u8],
    at: usize,
    plane: &[i64],
    height: u32,
    width: u32,
    levels: u32,
) -> usize
    requires width_value { (is_sides height width ≡ true) × (is_depth levels height width ≡ true) }
    requires plane_len { (length plane.now ≡ width * height) × (in_range levels height width (image_of height plane.now) ≡ true) }
    requires plane_in_bounds { at + length (entry_part levels height width plane.now) ≤ length out.old }
    ensures value { result ≡ at + length (entry_part levels height width plane.now) }
    ensures out_after { out.new ≡ stamp at (entry_part levels height width plane.now) out.old }
{
    let p = text::write::put_bytes(out, at, b"level band row col value\n");
    put_entries(out, p, plane, height, width, levels)
}

// How long a sheet is.
pub fn sheet_length(height: u32, width: u32, levels: u32, plane: &[i64], coverings: &[u8]) -> usize
    requires width_value { (is_sides height width ≡ true) × (is_depth levels height width ≡ true) }
    requires plane_len { (length plane.now ≡ width * height) × (in_range levels height width (image_of height plane.now) ≡ true) }
    requires coverings_len { (length coverings.now ≡ all_blocks levels height width) × (length coverings.now ≤ 131072) }
    ensures { result ≡ length (sheet_text height width levels plane.now coverings.now) }
{
    let a = text::write::width(height);
    let b = text::write::width(width);
    let c = text::write::width(levels);
    let d = blocks_length(coverings, height, width, levels);
    let e = entries_length(plane, height, width, levels);
    // The three lines of names have 20, 20 and 25 bytes, and a byte stands after each of the three numbers.
    68 + a + b + c + d + e
}

// Writes a sheet from the front of a slice that holds it.
pub fn put_sheet(
    out: &mut [u8],
    height: u32,
    width: u32,
    levels: u32,
    plane: &[i64],
    coverings: &[u8],
)
    requires width_value { (is_sides height width ≡ true) × (is_depth levels height width ≡ true) }
    requires plane_len { (length plane.now ≡ width * height) × (in_range levels height width (image_of height plane.now) ≡ true) }
    requires coverings_len { length coverings.now ≡ all_blocks levels height width }
    requires coverings_in_bounds { length (sheet_text height width levels plane.now coverings.now) ≤ length out.old }
    ensures { out.new ≡ stamp 0 (sheet_text height width levels plane.now coverings.now) out.old }
{
    let p = put_head(out, height, width, levels);
    let q = put_block_part(out, p, coverings, height, width, levels);
    put_entry_part(out, q, plane, height, width, levels);
}
