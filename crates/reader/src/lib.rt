// The reader of texts: a struct that holds a lent text and the place where it stands. Document 01: "Every text is a line of names, then lines of values".
// Each function over it is thin: it hands the text and the place to the cursor function of `text`, and says what that says. A line that may be missing is
// answered by an Option with the place past the line, as there; past lines that there may be none of, the reader itself is handed back. Whoever has a plain
// text calls the functions at the end, which make the reader. What is read at a place is in text/specs/At.antt and Lines.antt.
#![tactic(auto)]

ghost use Rattle.std.specs.Prelude.{◌≡◌, ◌≤◌, length};
ghost use Rattle.text.specs.At.{skip_at};
ghost use Rattle.text.specs.Lines.{three_at, fours_at, fives_at};
ghost use Rattle.reader.specs.Standing.{standing};

use text::lines::Three;

// Kept: functions and no methods: what callers name is `reader::names_at` and the like, and each stays under its name.
#[derive(Clone, Copy)]
pub struct Reader<'a> {
    pub text: &'a [u8],
    // The next byte to be read, or the text's length.
    pub at: usize,
}

// A reader of a text, at a place. Two wrong answers that the contract rules out: a reader at the start, whatever the place; a reader of another text
// with the same bytes.
pub fn over<'a>(text: &'a [u8], at: usize) -> Reader<'a>
    ensures { result ≡ standing text.entry at }
{
    Reader { text, at }
}

// Where it stands. Two wrong answers that the contract rules out: the number of bytes that are left; the place of the next line.
pub fn place<'a>(r: Reader<'a>) -> usize
    ensures { result ≡ r.entry.at }
{
    r.at
}

// Takes a line of names: the place past it, if it stands there. Two wrong answers that the contract rules out: a good answer for a line that differs in
// its last byte; a place before the line's LF.
pub fn names<'a, 'b>(r: Reader<'a>, line: &'b [u8]) -> Option<usize>
    requires { r.at ≤ length r.text.now }
    ensures { result ≡ skip_at r.entry.text.now r.entry.at line.now }
{
    text::names::skip_names(r.text, r.at, line)
}

// Takes a line of three values. Two wrong answers that the contract rules out: the values in the other order; a line with a fourth value taken as good.
pub fn three<'a>(r: Reader<'a>) -> Option<Three>
    ensures { result ≡ three_at r.entry.text.now r.entry.at }
{
    text::lines::read_three(r.text, r.at)
}

// Goes past as many lines of four values as there are. Two wrong answers that the contract rules out: a reader that stays where it was, before a line;
// one that goes past a line of five.
pub fn fours<'a>(r: Reader<'a>) -> Reader<'a>
    requires { r.at ≤ length r.text.now }
    ensures { result ≡ standing r.entry.text (fours_at r.entry.text.now r.entry.at) }
{
    over(r.text, text::lines::pass_fours(r.text, r.at))
}

// Goes past as many lines of four values and a signed one as there are. Two wrong answers that the contract rules out: a reader at the text's end,
// past a line that breaks the rules; one that stops at a minus.
pub fn fives<'a>(r: Reader<'a>) -> Reader<'a>
    requires { r.at ≤ length r.text.now }
    ensures { result ≡ standing r.entry.text (fives_at r.entry.text.now r.entry.at) }
{
    over(r.text, text::lines::pass_fives(r.text, r.at))
}

// A line of names at a place of a plain text. Two wrong answers that the contract rules out: names found further on; a bad answer for names at the
// text's very end.
pub fn names_at(s: &[u8], at: usize, line: &[u8]) -> Option<usize>
    requires { at ≤ length s.now }
    ensures { result ≡ skip_at s.now at line.now }
{
    names(over(s, at), line)
}

// A line of three values at a place of a plain text. Two wrong answers that the contract rules out: the values of the text's first line; a good answer
// past the text's end.
pub fn three_at(s: &[u8], at: usize) -> Option<Three>
    ensures { result ≡ three_at s.now at }
{
    three(over(s, at))
}

// The place past the lines of four values, at a place of a plain text. Two wrong answers that the contract rules out: the place before the last of
// them; the place past a line of five that follows.
pub fn fours_end(s: &[u8], at: usize) -> usize
    requires { at ≤ length s.now }
    ensures { result ≡ fours_at s.now at }
{
    place(fours(over(s, at)))
}

// The place past the lines of four values and a signed one, at a place of a plain text. Two wrong answers that the contract rules out: the place
// before the last of them; the text's length for a text that goes on with other bytes.
pub fn fives_end(s: &[u8], at: usize) -> usize
    requires { at ≤ length s.now }
    ensures { result ≡ fives_at s.now at }
{
    place(fives(over(s, at)))
}
