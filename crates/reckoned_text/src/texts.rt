// The limits of texts that are read, each with what lies past it.
use cases::answers::Pair;
use cases::safe::first;
use pairs::answers::{put, tell_one};
use pairs::planes::read_text;
use plain_frame::frame::Frame;
use plain_text::writing::put_text;
use std::io;

// A line, or none where it is empty.
fn put_line(text: &mut [u8], at: usize, line: &[u8]) -> usize {
    if line.is_empty() {
        return at;
    }
    let e = put_text(text, at, line);
    put_text(text, e, b"\n")
}

// The text of a sheet with these lines of values; gives its length.
fn put_sheet(text: &mut [u8], head: &[u8], block: &[u8], entry: &[u8]) -> usize {
    let a = put_text(text, 0, b"height width levels\n");
    let b = put_line(text, a, head);
    let c = put_text(text, b, b"level row col cover\n");
    let d = put_line(text, c, block);
    let e = put_text(text, d, b"level band row col value\n");
    put_line(text, e, entry)
}

fn show_line(rt: &impl Print, line: &[u8]) -> io::Result<()> {
    print!(rt; "[")?;
    rt.write_all(line)?;
    print!(rt; "] ")
}

// Both read the sheet with these lines, into slices of these lengths.
fn read_sheet(head: &[u8], block: &[u8], entry: &[u8], n: usize, b: usize) -> Pair<Frame> {
    let mut text = [0u8; 256];
    let end = put_sheet(&mut text, head, block, entry);
    read_text(first(&text, end), n, b)
}

// The sheet with these lines, in slices for 4 by 4 and 1 level.
fn sheet(rt: &impl Print, head: &[u8], block: &[u8], entry: &[u8]) -> io::Result<()> {
    show_line(rt, head)?;
    show_line(rt, block)?;
    show_line(rt, entry)?;
    tell_one(rt, b"read", read_sheet(head, block, entry, 16, 1))
}

fn head(rt: &impl Print, line: &[u8]) -> io::Result<()> {
    sheet(rt, line, b"1 0 0 1", b"")
}

fn block(rt: &impl Print, line: &[u8]) -> io::Result<()> {
    sheet(rt, b"4 4 1", line, b"")
}

fn entry(rt: &impl Print, line: &[u8]) -> io::Result<()> {
    sheet(rt, b"4 4 1", b"1 0 0 1", line)
}

// Heights, widths and levels; 3 where they are good and the slices are not as long.
pub fn sides(rt: &impl Print) -> io::Result<()> {
    head(rt, b"2 2 1")?;
    head(rt, b"4 4 1")?;
    head(rt, b"6 6 1")?;
    head(rt, b"512 512 8")?;
    head(rt, b"1024 1024 8")
}

// A height alone and a width alone.
pub fn strips(rt: &impl Print) -> io::Result<()> {
    head(rt, b"6 8 1")?;
    head(rt, b"8 6 1")?;
    head(rt, b"1024 4 1")?;
    head(rt, b"4 1024 1")?;
    head(rt, b"4 512 1")?;
    head(rt, b"512 4 1")
}

pub fn depths(rt: &impl Print) -> io::Result<()> {
    head(rt, b"4 4 0")?;
    head(rt, b"4 4 2")?;
    head(rt, b"8 8 2")?;
    head(rt, b"8 8 3")?;
    head(rt, b"512 512 9")
}

pub fn strip_depths(rt: &impl Print) -> io::Result<()> {
    head(rt, b"4 8 1")?;
    head(rt, b"4 8 2")?;
    head(rt, b"8 4 2")?;
    head(rt, b"8 512 2")?;
    head(rt, b"8 512 3")
}

// Height, width and levels as they were read, 0 where the sheet is refused.
fn told(rt: &impl Print, p: Pair<Frame>) -> io::Result<()> {
    let frame = p.coder.unwrap_or(Frame::new(0, 0, 0));
    put(rt, b"height ", frame.extent.height)?;
    put(rt, b"width ", frame.extent.width)?;
    put(rt, b"levels ", frame.levels)?;
    tell_one(rt, b"read", p)
}

// The same in slices for 4 by 8 and 1 level, which are as long as those for 8 by 4.
fn strip(rt: &impl Print, head: &[u8], block: &[u8], entry: &[u8]) -> io::Result<()> {
    show_line(rt, head)?;
    show_line(rt, block)?;
    show_line(rt, entry)?;
    told(rt, read_sheet(head, block, entry, 32, 2))
}

// The second block is the next one down a column: right of the first at 4 by 8, below it at 8 by 4.
pub fn strip_sheets(rt: &impl Print) -> io::Result<()> {
    strip(rt, b"4 8 1", b"1 0 0 1\n1 0 1 1", b"")?;
    strip(rt, b"8 4 1", b"1 0 0 1\n1 1 0 1", b"")?;
    strip(rt, b"4 8 1", b"1 0 0 1\n1 1 0 1", b"")?;
    strip(rt, b"8 4 1", b"1 0 0 1\n1 0 1 1", b"")
}

// Rows up to half the height, columns up to half the width.
pub fn strip_places(rt: &impl Print) -> io::Result<()> {
    strip(rt, b"4 8 1", b"1 0 0 1\n1 0 1 1", b"1 1 1 3 1")?;
    strip(rt, b"4 8 1", b"1 0 0 1\n1 0 1 1", b"1 1 2 3 1")?;
    strip(rt, b"4 8 1", b"1 0 0 1\n1 0 1 1", b"1 1 1 4 1")?;
    strip(rt, b"8 4 1", b"1 0 0 1\n1 1 0 1", b"1 1 3 1 1")?;
    strip(rt, b"8 4 1", b"1 0 0 1\n1 1 0 1", b"1 1 1 3 1")
}

// The text as it stands.
fn text(rt: &impl Print, text: &[u8]) -> io::Result<()> {
    show_line(rt, text)?;
    tell_one(rt, b"read", read_text(text, 16, 1))
}

// The names that a sheet opened with before, and that line with the numbers of now.
pub fn names(rt: &impl Print) -> io::Result<()> {
    text(
        rt,
        b"side levels\n4 1\nlevel row col cover\n1 0 0 1\nlevel band row col value\n",
    )?;
    text(
        rt,
        b"side levels\n4 4 1\nlevel row col cover\n1 0 0 1\nlevel band row col value\n",
    )?;
    text(
        rt,
        b"height width levels\n4 4 1\nlevel row col cover\n1 0 0 1\nlevel band row col value\n",
    )
}

// Two numbers, and four.
pub fn counts(rt: &impl Print) -> io::Result<()> {
    head(rt, b"4 1")?;
    head(rt, b"4 4 1 1")?;
    head(rt, b"4 4")
}

// The block lines are the blocks: here one, of level 1, row 0 and column 0.
pub fn blocks(rt: &impl Print) -> io::Result<()> {
    block(rt, b"")?;
    block(rt, b"0 0 0 1")?;
    block(rt, b"2 0 0 1")?;
    block(rt, b"1 1 0 1")?;
    block(rt, b"1 0 1 1")?;
    block(rt, b"1 0 0 1\n1 1 0 1")
}

// The largest number of a text and one more, in each kind of line.
pub fn sizes(rt: &impl Print) -> io::Result<()> {
    head(rt, b"2147483647 4 1")?;
    head(rt, b"2147483648 4 1")?;
    head(rt, b"4 2147483647 1")?;
    head(rt, b"4 2147483648 1")?;
    head(rt, b"4 4 2147483647")?;
    head(rt, b"4 4 2147483648")?;
    block(rt, b"1 0 0 2147483647")?;
    block(rt, b"1 0 0 2147483648")?;
    entry(rt, b"1 1 2147483647 0 1")?;
    entry(rt, b"1 1 2147483648 0 1")
}

// The same for values; numbers that would be small if they wrapped; a zero in front; a minus.
pub fn signs(rt: &impl Print) -> io::Result<()> {
    block(rt, b"1 0 0 257")?;
    entry(rt, b"1 1 0 0 2147483647")?;
    entry(rt, b"1 1 0 0 2147483648")?;
    entry(rt, b"1 1 0 0 -2147483647")?;
    entry(rt, b"1 1 0 0 -2147483648")?;
    entry(rt, b"1 1 0 0 4294967297")?;
    entry(rt, b"1 1 0 0 01")?;
    entry(rt, b"1 1 0 0 -0")?;
    entry(rt, b"1 1 0 -1 1")
}

// Places of the plane: bands 0 to 3 of level 1, rows and columns 0 and 1; and values that are not 0.
pub fn places(rt: &impl Print) -> io::Result<()> {
    entry(rt, b"1 1 0 0 0")?;
    entry(rt, b"0 1 0 0 1")?;
    entry(rt, b"2 1 0 0 1")?;
    entry(rt, b"1 3 0 0 1")?;
    entry(rt, b"1 4 0 0 1")?;
    entry(rt, b"1 1 1 0 1")?;
    entry(rt, b"1 1 2 0 1")?;
    entry(rt, b"1 1 0 1 1")?;
    entry(rt, b"1 1 0 2 1")
}

// Strictly rising in plane order.
pub fn order(rt: &impl Print) -> io::Result<()> {
    entry(rt, b"1 1 0 0 1\n1 1 1 0 1")?;
    entry(rt, b"1 1 0 0 1\n1 1 0 0 1")?;
    entry(rt, b"1 1 1 0 1\n1 1 0 0 1")?;
    entry(rt, b"1 1 1 0 1\n1 1 0 1 1")?;
    entry(rt, b"1 1 0 1 1\n1 1 1 0 1")
}

// The sheet of 8 by 8 and 2 levels with its five blocks and these lines of entries.
fn deep_entry(rt: &impl Print, lines: &[u8]) -> io::Result<()> {
    show_line(rt, b"8 8 2")?;
    show_line(rt, lines)?;
    let p = read_sheet(
        b"8 8 2",
        b"1 0 0 1\n1 1 0 1\n1 0 1 1\n1 1 1 1\n2 0 0 1",
        lines,
        64,
        5,
    );
    tell_one(rt, b"read", p)
}

// Band 0 at level 2 only, no level 3, and level 1 before level 2.
pub fn deep(rt: &impl Print) -> io::Result<()> {
    deep_entry(rt, b"1 0 0 0 1")?;
    deep_entry(rt, b"2 0 0 0 1")?;
    deep_entry(rt, b"3 1 0 0 1")?;
    deep_entry(rt, b"1 3 3 3 1\n2 0 0 0 1")?;
    deep_entry(rt, b"2 0 0 0 1\n1 3 3 3 1")
}
