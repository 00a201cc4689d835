// Tetrolet sheets, written and read by the coder and by the plain second implementation.
use case_planes::{fill, sparse_case_at};
use cases::answers::{Answer, compare, of_coder, of_plain};
use cases::inputs::{Case, next, smaller, upper};
use cases::safe::{first, first_mut, load, plus, rest, store};
use cases::tally::{Tally, Verdict};
use pairs::planes::of_reading;

// What a picture holds, or what a reader is lent.
#[derive(Clone, Copy, PartialEq)]
struct Held {
    plane: [i64; 1024],
    coverings: [u8; 512],
}

impl Held {
    fn of(k: Case) -> Held {
        let mut held = Held {
            plane: [0; 1024],
            coverings: [1; 512],
        };
        fill(k, &mut held.plane, &mut held.coverings);
        held
    }
}

fn write(k: Case, held: &Held, text: &mut [u8]) -> Answer<usize> {
    of_coder(sheet::write(
        k.height,
        k.width,
        k.levels,
        first(&held.plane, k.n),
        first(&held.coverings, k.b),
        text,
    ))
}

fn write_plain(k: Case, held: &Held, text: &mut [u8]) -> Answer<usize> {
    of_plain(plain_text::writing::write(
        k.height,
        k.width,
        k.levels,
        first(&held.plane, k.n),
        first(&held.coverings, k.b),
        text,
    ))
}

// Writes the sheet of a case by the coder; gives its length, 0 where it is refused.
fn put_sheet(k: Case, text: &mut [u8]) -> usize {
    write(k, &Held::of(k), text).unwrap_or(0)
}

fn sheet_length(k: Case) -> usize {
    let mut text = [0; 32768];
    put_sheet(k, &mut text)
}

// A long buffer, one that is just long enough, one of a byte less, and an empty one.
fn room_of(length: usize, which: usize) -> usize {
    match which {
        0 => 32768,
        1 => length,
        2 => length.saturating_sub(1),
        _ => 0,
    }
}

// Both write, into buffers of this room that hold other bytes before.
fn written_alike(k: Case, room: usize) -> Verdict {
    let held = Held::of(k);
    compare(
        [b'?'; 32768],
        |text| write(k, &held, first_mut(text, room)),
        |text| write_plain(k, &held, first_mut(text, room)),
    )
    .verdict()
}

// Some planes of the group `restore`, each with every room.
pub fn write_group() -> Tally {
    Tally::of_cases(6144, |c| {
        let k = sparse_case_at(c / 4);
        (k, written_alike(k, room_of(sheet_length(k), c % 4)))
    })
}

// Both read the same text, into slices of the case's lengths that hold other values before.
fn compare_reading(k: Case, text: &[u8]) -> Verdict {
    let before = Held {
        plane: [7; 1024],
        coverings: [9; 512],
    };
    compare(
        before,
        |held| {
            of_reading(sheet::read(
                text,
                first_mut(&mut held.plane, k.n),
                first_mut(&mut held.coverings, k.b),
            ))
        },
        |held| {
            of_plain(plain_text::reading::read(
                text,
                first_mut(&mut held.plane, k.n),
                first_mut(&mut held.coverings, k.b),
            ))
        },
    )
    .verdict()
}

// Puts the bytes from place `at` on one place further back.
fn move_back(text: &mut [u8], at: usize, end: usize) {
    for i in (at..end).rev() {
        let byte = load(text, i);
        store(text, plus(i, 1), byte);
    }
}

// Puts the bytes after place `at` one place further to the front.
fn move_up(text: &mut [u8], at: usize, end: usize) {
    for i in at..end {
        let byte = load(text, plus(i, 1));
        store(text, i, byte);
    }
}

// A byte that damage puts in: one that sheets have, or any.
fn other_byte(random: usize) -> usize {
    match random % 16 {
        10 => 10,
        11 => 32,
        12 => 45,
        13 => 48,
        14 => 49,
        15 => random / 16 % 256,
        _ => plus(48, random % 16),
    }
}

// Damages a text, and gives its length after: way 0 leaves it whole, 1 replaces a byte, 2 takes one out, 3 puts one in, 4 takes off the end, 5
// adds a byte at the end.
fn damage(text: &mut [u8], length: usize, way: usize, random: usize, byte: usize) -> usize {
    let at = rest(random, length);
    match way {
        1 => {
            store(text, at, byte);
            length
        }
        2 => {
            move_up(text, at, length);
            length.saturating_sub(1)
        }
        3 => {
            move_back(text, at, length);
            store(text, at, byte);
            plus(length, 1)
        }
        4 => length.saturating_sub(1),
        5 => {
            store(text, length, byte);
            plus(length, 1)
        }
        _ => length,
    }
}

// The sheet of a case, written by the coder, and then damaged; refused cases give an empty text.
fn read_alike(k: Case, way: usize, random: usize) -> Verdict {
    let mut text = [0; 32768];
    let length = put_sheet(k, &mut text);
    let byte = other_byte(upper(next(random)));
    let end = damage(&mut text, length, way, upper(random), byte);
    compare_reading(k, first(&text, end))
}

// Some planes of the group `restore`, each with every damage.
pub fn read_group() -> Tally {
    let mut x = 1;
    Tally::of_cases(9216, |c| {
        x = next(x);
        let k = smaller(sparse_case_at(c / 6));
        (k, read_alike(k, c % 6, x))
    })
}
