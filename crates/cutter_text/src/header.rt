// The header of the cutter's input: its first two lines.
ghost use Rattle.std.specs.Prelude.{◌≡◌};
ghost use Rattle.cutter_text.specs.Header.{HeaderIn, header_of};

use refusals::Refusal;

#[derive(Clone, Copy)]
pub struct Heading {
    pub height: usize,
    pub width: usize,
    pub levels: usize,
    pub quota: u64,
    // The place past the header.
    pub next: usize,
}

// The number of a header that is refused, and 0 of one that is not. Two wrong answers that the contract rules out: 0 for a refusal; and the number of another.
pub fn code(h: Result<Heading, Refusal>) -> u32
    ensures { result ≡ header_of h }
{
    match h {
        Ok(_) => 0,
        Err(r) => u32::from(r),
    }
}

// Reads the header. Two wrong answers that the contract rules out: a header whose last LF is missing; and a quota over 2,147,483,647.
pub fn read_header(s: &[u8]) -> Result<Heading, Refusal>
    ensures { HeaderIn s.now result }
{
    let Some(p) = text::names::skip_names(s, 0, b"height width levels quota\n") else {
        return Err(Refusal::Text);
    };
    let Some(line) = text::lines::read_four(s, p) else {
        return Err(Refusal::Text);
    };
    Ok(Heading {
        height: line.first as usize,
        width: line.second as usize,
        levels: line.third as usize,
        quota: line.fourth as u64,
        next: line.next,
    })
}
