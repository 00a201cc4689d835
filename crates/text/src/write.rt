// Numbers written at a place.
ghost use Rattle.std.specs.Prelude.{◌≡◌, ℕ, ◌+◌, ◌≤◌, length, List, [], ◌∷◌, ◌++◌, nat_abs};
ghost use Rattle.text.specs.Text.{digits, limit, value_text};
ghost use Rattle.text.specs.Claims.{TextLaws};
ghost use Rattle.text.specs.Write.{stamp, stamped, cell_text, four_text, five_text};

// How many digits v has.
pub fn width(v: u32) -> usize
    requires { v ≤ limit }
    ensures { result ≡ length (digits v) }
{
    if v < 10 {
        return 1;
    }
    if v < 100 {
        return 2;
    }
    if v < 1000 {
        return 3;
    }
    if v < 10000 {
        return 4;
    }
    if v < 100000 {
        return 5;
    }
    if v < 1000000 {
        return 6;
    }
    if v < 10000000 {
        return 7;
    }
    if v < 100000000 {
        return 8;
    }
    if v < 1000000000 {
        return 9;
    }
    10
}

// Writes the last w digits of v from the place at.
fn put_digits(out: &mut [u8], at: usize, w: usize, v: u32)
    requires { at + w ≤ length out.old }
    ensures { out.new ≡ stamped w at v out.old }
{
    let mut x = v;
    for i in (0..w).rev() {
        out[at + i] = b'0' + (x % 10) as u8;
        x /= 10;
    }
}

// Writes v in decimal from the place at; gives the place past it.
pub fn put_number(out: &mut [u8], at: usize, v: u32) -> usize
    requires { (v ≤ limit) × (at + length (digits v) ≤ length out.old) }
    ensures value { result ≡ at + length (digits v) }
    ensures out_after { out.new ≡ stamp at (digits v) out.old }
{
    let w = width(v);
    put_digits(out, at, w, v);
    at + w
}

// Writes v, and the byte `end` after it; gives the place past it.
pub fn put_cell(out: &mut [u8], at: usize, v: u32, end: u8) -> usize
    requires { (v ≤ limit) × (at + length (cell_text v end) ≤ length out.old) }
    ensures value { result ≡ at + length (cell_text v end) }
    ensures out_after { out.new ≡ stamp at (cell_text v end) out.old }
{
    let p = put_number(out, at, v);
    out[p] = end;
    p + 1
}

// How long four numbers are, each with a byte after it.
pub fn four_width(a: u32, b: u32, c: u32, d: u32, end: u8) -> usize
    requires { (a ≤ limit) × (b ≤ limit) × (c ≤ limit) × (d ≤ limit) }
    ensures { result ≡ length (four_text a b c d end) }
{
    let wa = width(a);
    let wb = width(b);
    let wc = width(c);
    let wd = width(d);
    wa + wb + wc + wd + 4
}

// Writes four numbers, with a space after each and `end` after the last; gives the place past them.
pub fn put_four(out: &mut [u8], at: usize, a: u32, b: u32, c: u32, d: u32, end: u8) -> usize
    requires { (a ≤ limit) × (b ≤ limit) × (c ≤ limit) × (d ≤ limit) × (at + length (four_text a b c d end) ≤ length out.old) }
    ensures value { result ≡ at + length (four_text a b c d end) }
    ensures out_after { out.new ≡ stamp at (four_text a b c d end) out.old }
{
    let p = put_cell(out, at, a, b' ');
    let q = put_cell(out, p, b, b' ');
    let r = put_cell(out, q, c, b' ');
    put_cell(out, r, d, end)
}

// How long a signed value is. Its contract has the law of texts besides, which is so a part of what the check proves.
pub fn value_width(v: i64) -> usize
    requires { nat_abs v ≤ limit }
    ensures { (result ≡ length (value_text v)) × TextLaws }
{
    let m = integers::magnitude(v) as u32;
    let w = width(m);
    if v < 0 {
        return w + 1;
    }
    w
}

// Writes a signed value; gives the place past it.
pub fn put_value(out: &mut [u8], at: usize, v: i64) -> usize
    requires { (nat_abs v ≤ limit) × (at + length (value_text v) ≤ length out.old) }
    ensures value { result ≡ at + length (value_text v) }
    ensures out_after { out.new ≡ stamp at (value_text v) out.old }
{
    let m = integers::magnitude(v) as u32;
    if v < 0 {
        out[at] = b'-';
        return put_number(out, at + 1, m);
    }
    put_number(out, at, m)
}

// How long a line of four numbers and a signed value is.
pub fn five_width(a: u32, b: u32, c: u32, d: u32, v: i64) -> usize
    requires { (a ≤ limit) × (b ≤ limit) × (c ≤ limit) × (d ≤ limit) × (nat_abs v ≤ limit) }
    ensures { (result ≡ length (five_text a b c d v)) × (result ≤ 64) }
{
    let w = four_width(a, b, c, d, b' ');
    let x = value_width(v);
    w + x + 1
}

// Writes a line of four numbers and a signed value; gives the place past it.
pub fn put_five(out: &mut [u8], at: usize, a: u32, b: u32, c: u32, d: u32, v: i64) -> usize
    requires a_le_limit { (a ≤ limit) × (b ≤ limit) × (c ≤ limit) × (d ≤ limit) × (nat_abs v ≤ limit) }
    requires v_in_bounds { at + length (five_text a b c d v) ≤ length out.old }
    ensures value { result ≡ at + length (five_text a b c d v) }
    ensures out_after { out.new ≡ stamp at (five_text a b c d v) out.old }
{
    let p = put_four(out, at, a, b, c, d, b' ');
    let q = put_value(out, p, v);
    out[q] = b'\n';
    q + 1
}

// Writes bytes as they are; gives the place past them.
pub fn put_bytes(out: &mut [u8], at: usize, bytes: &[u8]) -> usize
    requires { at + length bytes.now ≤ length out.old }
    ensures value { result ≡ at + length bytes.now }
    ensures out_after { out.new ≡ stamp at bytes.now out.old }
{
    let end = at + bytes.len();
    out[at..end].copy_from_slice(bytes);
    end
}
