// What was seen of a group: how many inputs, how many of them were strips, whose height is not their width, and how many got which number.
use crate::texts::Ask;
use cases::safe::plus;
use cases::tally::Differing;
use std::{fmt, io};

// The numbers by which inputs of the groups are refused.
const NUMBERS: [usize; 6] = [1, 2, 4, 7, 9, 12];

#[derive(Clone, Copy, Default)]
pub struct Seen {
    inputs: usize,
    strips: usize,
    sheets: usize,
    strip_sheets: usize,
    // How many got each of the numbers.
    refused: [usize; 6],
    differing: usize,
}

impl Seen {
    // An input and the number it got: 0 for a sheet, none where the two differ.
    pub fn count(&mut self, k: Ask, number: Option<usize>) {
        let strip = (k.height != k.width) as usize;
        self.inputs = plus(self.inputs, 1);
        self.strips = plus(self.strips, strip);
        match number {
            None => self.differing = plus(self.differing, 1),
            Some(0) => {
                self.sheets = plus(self.sheets, 1);
                self.strip_sheets = plus(self.strip_sheets, strip);
            }
            Some(n) => {
                for (count, number) in self.refused.iter_mut().zip(NUMBERS) {
                    if number == n {
                        *count = plus(*count, 1);
                    }
                }
            }
        }
    }
}

impl fmt::Display for Seen {
    fn fmt<W: fmt::Write>(&self, f: &mut fmt::Formatter<W>) -> fmt::Result {
        let Seen {
            inputs,
            strips,
            sheets,
            strip_sheets,
            refused,
            differing,
        } = *self;
        write!(
            f,
            "inputs {inputs}, strips {strips}, sheets {sheets}, of strips {strip_sheets}"
        )?;
        for (count, number) in refused.iter().zip(NUMBERS) {
            write!(f, ", {number}: {count}")?;
        }
        let end = Differing(differing);
        write!(f, " {end}")
    }
}

// Prints the line of a group.
pub fn tell(rt: &impl Print, name: &[u8], s: Seen) -> io::Result<()> {
    rt.write_all(name)?;
    println!(rt; " {s}")
}
