// Inputs with a name: the whole case of document 01, and for each two checks that can hold at once the one that comes first.
use crate::answers::both;
use crate::texts::Ask;
use cases::safe::first;
use std::io;

fn show(rt: &impl Print, name: &str, text: &[u8]) -> io::Result<()> {
    let a = both(text);
    let end = if a.same { "ok" } else { "differs" };
    println!(rt; "{} {} {end} {name}", a.ours, a.plain)
}

fn tell_good(rt: &impl Print) -> io::Result<()> {
    show(
        rt,
        "the whole case",
        b"height width levels quota\n4 4 1 0\nsamples\n7 7 7 7\n7 7 7 7\n7 7 7 7\n7 7 7 7\n",
    )?;
    show(
        rt,
        "quota 12 of 12",
        b"height width levels quota\n4 4 1 12\nsamples\n1 2 3 4\n9 8 7 6\n0 0 0 4095\n5 5 5 5\n",
    )?;
    show(
        rt,
        "a tie at level 2",
        b"height width levels quota\n8 8 2 0\nsamples\n1 1 0 0 0 0 0 0\n0 0 0 0 0 0 0 0\n0 0 0 0 0 0 0 0\n0 0 0 0 0 0 0 0\n0 0 0 0 0 0 0 0\n0 0 0 0 0 0 0 0\n0 0 0 0 0 0 0 0\n0 0 0 0 0 0 0 0\n",
    )
}

// 9 on the header, before 1, 12 and 2.
fn tell_header(rt: &impl Print) -> io::Result<()> {
    show(rt, "no input", b"")?;
    show(
        rt,
        "9 before 1: no LF after the header",
        b"height width levels quota\n6 6 1 0",
    )?;
    show(
        rt,
        "9 before 12: a quota too large for a text",
        b"height width levels quota\n64 64 1 2147483648\n",
    )?;
    show(
        rt,
        "9 before 2: a quota too large for a text",
        b"height width levels quota\n4 4 2 2147483648\n",
    )
}

// What a number of the header may be.
fn tell_numbers(rt: &impl Print) -> io::Result<()> {
    show(
        rt,
        "1, the largest quota",
        b"height width levels quota\n6 6 1 2147483647\n",
    )?;
    show(
        rt,
        "9, a 0 in front",
        b"height width levels quota\n06 06 1 0\n",
    )?;
    show(rt, "9, a minus", b"height width levels quota\n6 6 1 -1\n")
}

// 1, then 12, then 2.
fn tell_sizes(rt: &impl Print) -> io::Result<()> {
    show(
        rt,
        "1 before 12: 48 by 48",
        b"height width levels quota\n48 48 1 0\n",
    )?;
    show(
        rt,
        "1 before 12: 1024 by 1024",
        b"height width levels quota\n1024 1024 1 0\n",
    )?;
    show(
        rt,
        "1 before 2: no levels",
        b"height width levels quota\n6 6 0 0\n",
    )?;
    show(
        rt,
        "12 before 2: no levels",
        b"height width levels quota\n64 64 0 0\n",
    )
}

// All three before what follows.
fn tell_rubbish(rt: &impl Print) -> io::Result<()> {
    show(
        rt,
        "1 before 9: rubbish follows",
        b"height width levels quota\n6 6 1 0\nrubbish",
    )?;
    show(
        rt,
        "12 before 9: rubbish follows",
        b"height width levels quota\n64 64 1 0\nrubbish",
    )?;
    show(
        rt,
        "2 before 9: rubbish follows",
        b"height width levels quota\n4 4 2 0\nrubbish",
    )?;
    show(
        rt,
        "9, rubbish follows",
        b"height width levels quota\n4 4 1 0\nrubbish",
    )
}

// 9 on the rows, then 4, then 7.
fn tell_rows(rt: &impl Print) -> io::Result<()> {
    show(
        rt,
        "9 before 4: a row is missing",
        b"height width levels quota\n4 4 1 0\nsamples\n7 7 7 7\n7 7 7 7\n7 7 7 4096\n",
    )?;
    show(
        rt,
        "9 before 7: a row too many",
        b"height width levels quota\n4 4 1 13\nsamples\n7 7 7 7\n7 7 7 7\n7 7 7 7\n7 7 7 7\n7 7 7 7\n",
    )?;
    show(
        rt,
        "4 before 7: a sample of 4096, quota 13 of 12",
        b"height width levels quota\n4 4 1 13\nsamples\n7 7 7 7\n7 4096 7 7\n7 7 7 7\n7 7 7 7\n",
    )
}

fn tell_samples(rt: &impl Print) -> io::Result<()> {
    show(
        rt,
        "7, quota 13 of 12",
        b"height width levels quota\n4 4 1 13\nsamples\n7 7 7 7\n7 7 7 7\n7 7 7 7\n7 7 7 7\n",
    )?;
    show(
        rt,
        "4, a sample of 2147483647",
        b"height width levels quota\n4 4 1 0\nsamples\n7 7 7 7\n7 7 7 7\n7 7 7 7\n2147483647 7 7 7\n",
    )?;
    show(
        rt,
        "9, a sample of 2147483648",
        b"height width levels quota\n4 4 1 0\nsamples\n7 7 7 7\n7 7 7 7\n7 7 7 7\n2147483648 7 7 7\n",
    )
}

// A picture of 4 by 8 or of 8 by 4 has 24 tetrolet entries.
fn tell_strips(rt: &impl Print) -> io::Result<()> {
    show(
        rt,
        "4 by 8, quota 24 of 24",
        b"height width levels quota\n4 8 1 24\nsamples\n1 2 3 4 5 6 7 8\n9 8 7 6 5 4 3 2\n0 0 0 4095 0 0 0 0\n5 5 5 5 9 9 9 9\n",
    )?;
    show(
        rt,
        "8 by 4, quota 24 of 24",
        b"height width levels quota\n8 4 1 24\nsamples\n1 2 3 4\n5 6 7 8\n9 8 7 6\n5 4 3 2\n0 0 0 4095\n0 0 0 0\n5 5 5 5\n9 9 9 9\n",
    )?;
    show(
        rt,
        "7, 4 by 8, quota 25 of 24",
        b"height width levels quota\n4 8 1 25\nsamples\n7 7 7 7 7 7 7 7\n7 7 7 7 7 7 7 7\n7 7 7 7 7 7 7 7\n7 7 7 7 7 7 7 7\n",
    )
}

// Rows and columns exchanged.
fn tell_turned(rt: &impl Print) -> io::Result<()> {
    show(
        rt,
        "9, 4 by 8 in 8 rows of 4",
        b"height width levels quota\n4 8 1 0\nsamples\n7 7 7 7\n7 7 7 7\n7 7 7 7\n7 7 7 7\n7 7 7 7\n7 7 7 7\n7 7 7 7\n7 7 7 7\n",
    )?;
    show(
        rt,
        "9, 8 by 4 in 4 rows of 8",
        b"height width levels quota\n8 4 1 0\nsamples\n7 7 7 7 7 7 7 7\n7 7 7 7 7 7 7 7\n7 7 7 7 7 7 7 7\n7 7 7 7 7 7 7 7\n",
    )
}

// The header that the cutter had before, and what is neither.
fn tell_old(rt: &impl Print) -> io::Result<()> {
    show(
        rt,
        "9, the old header",
        b"side levels quota\n4 1 0\nsamples\n7 7 7 7\n7 7 7 7\n7 7 7 7\n7 7 7 7\n",
    )?;
    show(
        rt,
        "9, the old numbers",
        b"height width levels quota\n4 1 0\nsamples\n7 7 7 7\n7 7 7 7\n7 7 7 7\n7 7 7 7\n",
    )?;
    show(
        rt,
        "9, the old names",
        b"side levels quota\n4 4 1 0\nsamples\n7 7 7 7\n7 7 7 7\n7 7 7 7\n7 7 7 7\n",
    )
}

// A whole input with quota 0.
fn show_whole(
    rt: &impl Print,
    name: &str,
    height: usize,
    width: usize,
    levels: usize,
) -> io::Result<()> {
    let k = Ask {
        height,
        width,
        levels,
        quota: 0,
        rows: height,
        columns: width,
        last: 7,
    };
    let mut text = [0; 16384];
    let end = crate::texts::put_input(&mut text, k);
    show(rt, name, first(&text, end))
}

fn tell_long_strips(rt: &impl Print) -> io::Result<()> {
    show_whole(rt, "32 by 4", 32, 4, 1)?;
    show_whole(rt, "4 by 32", 4, 32, 1)?;
    show_whole(rt, "12, 64 by 4", 64, 4, 1)?;
    show_whole(rt, "12, 4 by 64", 4, 64, 1)
}

// 1 for either number before 12 for either.
fn tell_sides(rt: &impl Print) -> io::Result<()> {
    show_whole(rt, "1 before 12: 64 by 6", 64, 6, 1)?;
    show_whole(rt, "1 before 12: 6 by 64", 6, 64, 1)?;
    show_whole(rt, "12, 64 by 32", 64, 32, 1)?;
    show_whole(rt, "12, 32 by 64", 32, 64, 1)
}

// 12 before 2; and 2 for the smaller number.
fn tell_depths(rt: &impl Print) -> io::Result<()> {
    show_whole(rt, "12 before 2: 4 by 64, no levels", 4, 64, 0)?;
    show_whole(rt, "12 before 2: 64 by 4, 2 levels", 64, 4, 2)?;
    show_whole(rt, "2, 4 by 8, 2 levels", 4, 8, 2)?;
    show_whole(rt, "2, 8 by 4, 2 levels", 8, 4, 2)
}

// An input of this length: a header, and then spaces.
fn show_long(
    rt: &impl Print,
    name: &str,
    height: usize,
    width: usize,
    levels: usize,
    length: usize,
) -> io::Result<()> {
    let k = Ask {
        height,
        width,
        levels,
        quota: 0,
        rows: 0,
        columns: 0,
        last: 0,
    };
    let mut text = [b' '; 65538];
    crate::texts::put_header(&mut text, k);
    show(rt, name, first(&text, length))
}

// 9 for the length, before all else.
fn tell_long(rt: &impl Print) -> io::Result<()> {
    show_long(rt, "1, 65536 bytes", 4, 6, 1, 65536)?;
    show_long(rt, "9 before 1: 65537 bytes", 4, 6, 1, 65537)?;
    show_long(rt, "12, 65536 bytes", 64, 4, 1, 65536)?;
    show_long(rt, "9 before 12: 65537 bytes", 64, 4, 1, 65537)?;
    show_long(rt, "2, 65536 bytes", 4, 8, 2, 65536)?;
    show_long(rt, "9 before 2: 65537 bytes", 4, 8, 2, 65537)
}

pub fn tell_all(rt: &impl Print) -> io::Result<()> {
    tell_good(rt)?;
    tell_strips(rt)?;
    tell_turned(rt)?;
    tell_old(rt)?;
    tell_long_strips(rt)?;
    tell_sides(rt)?;
    tell_depths(rt)?;
    tell_long(rt)?;
    tell_header(rt)?;
    tell_numbers(rt)?;
    tell_sizes(rt)?;
    tell_rubbish(rt)?;
    tell_rows(rt)?;
    tell_samples(rt)
}
