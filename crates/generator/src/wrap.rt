// Products modulo 2^32, by wrapping sums: the multiplier is halved, the multiplicand doubled.
// Kept: the library has `wrapping_mul`, but the form of this place is a helper of wrapping sums (docs/DECISIONS.md, "Forms by place").
ghost use Rattle.std.specs.Prelude.{◌≡◌, ◌*◌, ◌%◌, ◌^◌};

// The part where the number left is odd, and else 0.
fn odd_part(left: u32, part: u32) -> u32
    ensures { result ≡ left % 2 * part }
{
    if left % 2 == 1 {
        return part;
    }
    0
}

// a times b, modulo 2^32. Two wrong answers that the contract rules out: the part taken again and not doubled; the product held at 2^32 - 1.
pub fn wrapping_mul(a: u32, b: u32) -> u32
    ensures { result ≡ a * b % 2 ^ 32 }
{
    let mut sum: u32 = 0;
    let mut part = a;
    let mut left = b;
    while 0 < left {
        sum = std::num::wrapping_add_u32(sum, odd_part(left, part));
        part = std::num::wrapping_add_u32(part, part);
        left /= 2;
    }
    sum
}
