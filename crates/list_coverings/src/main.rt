// Lists the 117 coverings: the word of each on a line, by calling the entry for every number. Then the numbers of four more calls: covering 0,
// covering 118, a slice of fifteen places (with covering 0, so that the order of the checks shows), and covering 117.
#![tactic(auto)]

use refusals::Refusal;
use std::io;

// The number of an answer, 0 where it is accepted.
fn show(rt: &impl Print, a: Result<(), Refusal>) -> io::Result<()> {
    let number = refusals::code(a);
    println!(rt; "{number}")
}

fn show_word(rt: &impl Print, covering: u8) -> io::Result<()> {
    let mut word = [9u8; 16];
    let _ = coverings::word_of(covering, &mut word);
    for name in word {
        print!(rt; "{name}")?;
    }
    print!(rt; "\n")
}

fn main(rt: HostRuntime) -> io::Result<()> {
    for n in 1..=117 {
        show_word(&rt, n)?;
    }
    let mut word = [9u8; 16];
    show(&rt, coverings::word_of(0, &mut word))?;
    show(&rt, coverings::word_of(118, &mut word))?;
    let mut short = [9u8; 15];
    show(&rt, coverings::word_of(0, &mut short))?;
    show(&rt, coverings::word_of(117, &mut word))
}
