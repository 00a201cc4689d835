// Good inputs damaged at one place: a byte replaced by another, a byte put in, a byte taken out, or all from there on taken off.
use crate::answers::answer;
use crate::seen::Seen;
use crate::texts::Ask;
use cases::safe::{first, over, plus, rest, store, times};
use plain_text::writing::put_text;
use std::io;

fn ask_of(height: usize, width: usize) -> Ask {
    Ask {
        height,
        width,
        levels: 1,
        quota: 5,
        rows: height,
        columns: width,
        last: 4095,
    }
}

// The length of the whole input.
fn length_of(k: Ask) -> usize {
    let mut text = [0u8; 1024];
    crate::texts::put_input(&mut text, k)
}

// A byte for a way: from 1 on such as texts have or might have, then any.
fn byte_of(n: usize) -> usize {
    match n {
        1 => 10,
        2 => 32,
        3 => 45,
        4 => 48,
        5 => 49,
        6 => 57,
        7 => 43,
        8 => 0,
        _ => n,
    }
}

// What stands for one byte: way 0 nothing, ways 2, 4, .. another byte, ways 3, 5, .. another byte and then the byte itself.
fn put_middle(out: &mut [u8], at: usize, byte: u8, way: usize) -> usize {
    if way < 2 {
        return at;
    }
    store(out, at, byte_of(over(way, 2)));
    if way % 2 == 0 {
        return plus(at, 1);
    }
    store(out, plus(at, 1), byte);
    plus(at, 2)
}

// The text damaged at place i; gives its length. Way 1 takes off all from there on.
fn put_damaged(out: &mut [u8], text: &[u8], i: usize, way: usize) -> usize {
    if text.len() <= i {
        return 0;
    }
    let a = put_text(out, 0, first(text, i));
    let b = put_middle(out, a, text[i], way);
    if way == 1 {
        return b;
    }
    put_text(out, b, &text[i + 1..])
}

fn damaged(k: Ask, i: usize, way: usize) -> Option<usize> {
    let mut text = [0; 1024];
    let whole = crate::texts::put_input(&mut text, k);
    let mut out = [0; 1024];
    let end = put_damaged(&mut out, first(&text, whole), i, way);
    answer(first(&out, end))
}

// Every place with so many ways, of which one in so many steps is tried.
fn damage_group(seen: &mut Seen, k: Ask, ways: usize, step: usize) {
    for c in 0..over(times(length_of(k), ways), step) {
        let n = times(c, step);
        seen.count(k, damaged(k, over(n, ways), rest(n, ways)));
    }
}

// A square and two strips. A step has no factor in common with the ways, so that every place is met, and every way at one place in so many.
pub fn tell_all(rt: &impl Print) -> io::Result<()> {
    let mut small = Seen::default();
    damage_group(&mut small, ask_of(4, 4), 512, 5);
    damage_group(&mut small, ask_of(4, 8), 512, 5);
    damage_group(&mut small, ask_of(8, 4), 512, 5);
    crate::seen::tell(rt, b"4 by 4, 4 by 8 and 8 by 4, damaged:", small)?;
    let mut large = Seen::default();
    damage_group(&mut large, ask_of(8, 8), 14, 5);
    damage_group(&mut large, ask_of(8, 16), 14, 5);
    damage_group(&mut large, ask_of(16, 8), 14, 5);
    crate::seen::tell(rt, b"8 by 8, 8 by 16 and 16 by 8, damaged:", large)
}
