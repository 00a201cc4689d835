// The cutter from a reader to a writer. This crate owns the buffers, the reading and the body of the program; the programs over it are one call of `run` with
// standard input and standard output. The contracts say how much of the input is looked at and what is printed for it, and that it is the reader's whole
// input, where its bytes are known. Which bytes standard input gives no contract can say. The stored runs of the programs show it.
#![tactic(auto)]

ghost use Rattle.std.specs.Prelude.{◌≡◌, suc, ◌≤◌, length, take, OnOk, IfSome};
ghost use Rattle.std.specs.Io.KnownBytes.{Appends};
ghost use Rattle.cutting.specs.Cutter.{input_limit, cutter_text, Printed};
ghost use Rattle.intake.specs.Cuts.{CutInput, CutWhole};

use reading::Input;
use std::io;
use std::io::{Read, Write};

pub mod reading;
#[cfg(test)]
mod tests;

// What became of the input: how it was read, and the length of what is to be printed.
// Kept: no Option for a size that is 0 where a read failed: `CutOf` of specs/Cuts.antt speaks of both ways of reading beside it.
#[derive(Clone, Copy)]
pub struct Cut {
    pub input: Input,
    pub size: usize,
}

// The buffer for an input: one byte more than an input may have, to see one that is too long. Two wrong answers that the contract rules out: a buffer of
// 65,536 bytes, in which an input that is too long looks like its first 65,536 bytes; and one that goes by another limit than `cutter_text` does.
pub fn input_buffer() -> [u8; 65537]
    ensures { length result ≡ suc input_limit }
{
    [0; 65537]
}

// Cuts the first n bytes of `text`.
fn cut_first(text: &[u8], n: usize, out: &mut [u8; 65536]) -> usize
    requires { n ≤ length text.now }
    ensures { Printed (cutter_text (take n text.now)) out.old out.new result }
{
    cutting::cut(&text[..n], out)
}

// Reads the input into `text`, and puts what the cutter prints at the front of `out`. Where the buffer is full that holds whatever follows in the input, which
// needs a byte more than an input may have. Two wrong answers that the contract rules out: what is right for the first 65,536 bytes of an input that has
// more; and a sheet of the part that had come when a read failed.
pub fn cut_input<R: Read>(reader: &mut R, text: &mut [u8; 65537], out: &mut [u8; 65536]) -> Cut
    ensures cut { CutInput text.new out.old out.new result }
    ensures whole { IfSome (R.remaining reader.old) (λ all. CutWhole all out.old out.new result) }
{
    let input = reading::read_input(reader, text, 0);
    match input {
        Input::Ended(n) => Cut {
            input,
            size: cut_first(text, n, out),
        },
        Input::Full(n) => Cut {
            input,
            size: cut_first(text, n, out),
        },
        Input::Broken => Cut { input, size: 0 },
    }
}

// The program: cuts the reader's input and writes what is printed. Where a read fails nothing is written, and the answer is an error.
pub fn run<R: Read, W: Write>(reader: &mut R, writer: &mut W) -> io::Result<()>
    ensures { OnOk result (IfSome (R.remaining reader.old) (λ all. Appends (W.contents writer.old) (W.contents writer.new) (cutter_text all))) }
{
    let mut text = input_buffer();
    let mut out = [0; 65536];
    let cut = cut_input(reader, &mut text, &mut out);
    let Input::Broken = cut.input else {
        let size = cut.size;
        return writer.write_all(&out[..size]);
    };
    Err(io::Error::other("the input could not be read"))
}
