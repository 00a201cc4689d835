// Reading numbers and lines of them. What was read is given with the text that is left.
use plain_frame::refusal::Refusal;
use plain_frame::safe::{add, opposite, plus};

fn ten_times(v: i64) -> i64 {
    let two = add(v, v);
    let four = add(two, two);
    add(add(four, four), two)
}

fn decimal(digits: &[u8]) -> i64 {
    digits.iter().fold(0, |value, digit| {
        add(ten_times(value), i64::from(digit.saturating_sub(b'0')))
    })
}

// A number without a sign: no leading zero, at most 2,147,483,647.
pub fn number(text: &[u8]) -> Option<(i64, &[u8])> {
    let run = text
        .iter()
        .take(11)
        .take_while(|byte| byte.is_ascii_digit())
        .count();
    let (digits, left) = text.split_at_checked(run)?;
    if digits.is_empty() || 10 < digits.len() || (1 < digits.len() && digits.starts_with(b"0")) {
        return None;
    }
    let value = decimal(digits);
    if value > 2147483647 {
        return None;
    }
    Some((value, left))
}

// The same, with a minus where the number is not 0.
fn signed_number(text: &[u8]) -> Option<(i64, &[u8])> {
    let Some(unsigned) = text.strip_prefix(b"-") else {
        return number(text);
    };
    let (value, left) = number(unsigned)?;
    if value == 0 {
        return None;
    }
    Some((opposite(value), left))
}

// The byte after a value: a line end after the last, a space after the others.
pub fn byte_after(column: usize, columns: usize) -> u8 {
    if plus(column, 1) < columns {
        b' '
    } else {
        b'\n'
    }
}

// The text past the byte after a value.
pub fn past(text: &[u8], column: usize, columns: usize) -> Option<&[u8]> {
    text.strip_prefix(&[byte_after(column, columns)])
}

// Kept: the number of columns is no const parameter, since a bound `FnMut` cannot name one, and `line` then requires room for its array.
// A line of up to five values, of which the fifth may have a minus; the places left over hold 0.
pub fn line(text: &[u8], columns: usize) -> Option<([i64; 5], &[u8])> {
    let mut values = [0i64; 5];
    let mut left = text;
    for (column, place) in values.iter_mut().take(columns).enumerate() {
        let (value, after) = if column == 4 {
            signed_number(left)?
        } else {
            number(left)?
        };
        *place = value;
        left = past(after, column, columns)?;
    }
    Some((values, left))
}

// Lines of values: how many values a line has, how many lines there are, and the text that they begin.
#[derive(Clone, Copy)]
pub struct Section<'a> {
    pub columns: usize,
    pub count: usize,
    pub text: &'a [u8],
}

impl Section<'_> {
    // Takes each line and its number, until one is refused.
    pub fn try_each<F: FnMut(usize, [i64; 5]) -> Result<(), Refusal>>(
        self,
        mut take: F,
    ) -> Result<(), Refusal>
        requires { F.IsAlwaysCallable take }
    {
        let mut left = self.text;
        for n in 0..self.count {
            let (values, after) = line(left, self.columns).ok_or(Refusal::Text)?;
            take(n, values)?;
            left = after;
        }
        Ok(())
    }
}

// The lines of values below a line of names, and the text that is left.
pub fn read_section<'a>(
    text: &'a [u8],
    names: &[u8],
    columns: usize,
) -> Option<(Section<'a>, &'a [u8])> {
    let text = text.strip_prefix(names)?;
    let mut left = text;
    let mut count: usize = 0;
    for _ in 0..text.len() {
        let Some((_, after)) = line(left, columns) else {
            break;
        };
        left = after;
        count = plus(count, 1);
    }
    let section = Section {
        columns,
        count,
        text,
    };
    Some((section, left))
}

pub fn natural(v: i64) -> usize {
    v.unsigned_abs() as usize
}
