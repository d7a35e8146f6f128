ghost use Rattle.std.specs.Prelude.{◌≡◌, ◌≤◌, ◌<◌, ◌∷◌, [], true, false, Some, None, MatchOption, IfSome, length, if◌then◌else◌};
ghost use Rattle.std.specs.Char.{digit_value};
ghost use Rattle.trace_lines.specs.Numbers.{is_digit, is_proper as is_proper_lem, numeral_after, numeral, number_of, word_of, word_len};

// The value of each byte as a digit, and 255 where it is none.
static DIGITS: [u8; 256] = [
    255, 255, 255, 255, 255, 255, 255, 255, 255, 255, 255, 255, 255, 255, 255, 255, 255, 255, 255,
    255, 255, 255, 255, 255, 255, 255, 255, 255, 255, 255, 255, 255, 255, 255, 255, 255, 255, 255,
    255, 255, 255, 255, 255, 255, 255, 255, 255, 255, 0, 1, 2, 3, 4, 5, 6, 7, 8, 9, 255, 255, 255,
    255, 255, 255, 255, 255, 255, 255, 255, 255, 255, 255, 255, 255, 255, 255, 255, 255, 255, 255,
    255, 255, 255, 255, 255, 255, 255, 255, 255, 255, 255, 255, 255, 255, 255, 255, 255, 10, 11,
    12, 13, 14, 15, 255, 255, 255, 255, 255, 255, 255, 255, 255, 255, 255, 255, 255, 255, 255, 255,
    255, 255, 255, 255, 255, 255, 255, 255, 255, 255, 255, 255, 255, 255, 255, 255, 255, 255, 255,
    255, 255, 255, 255, 255, 255, 255, 255, 255, 255, 255, 255, 255, 255, 255, 255, 255, 255, 255,
    255, 255, 255, 255, 255, 255, 255, 255, 255, 255, 255, 255, 255, 255, 255, 255, 255, 255, 255,
    255, 255, 255, 255, 255, 255, 255, 255, 255, 255, 255, 255, 255, 255, 255, 255, 255, 255, 255,
    255, 255, 255, 255, 255, 255, 255, 255, 255, 255, 255, 255, 255, 255, 255, 255, 255, 255, 255,
    255, 255, 255, 255, 255, 255, 255, 255, 255, 255, 255, 255, 255, 255, 255, 255, 255, 255, 255,
    255, 255, 255, 255, 255, 255, 255, 255, 255, 255, 255, 255, 255, 255, 255, 255, 255, 255, 255,
    255, 255, 255, 255,
];

// The value of a digit, and 16 or more where it is none. It is looked up, since the digits of numbers are hard to
// foretell, and a choice between two sums is built as a branch.
fn lower_digit(c: u8) -> u8
    ensures some { is_digit 16 c ≡ true → result ≡ digit_value c }
    ensures none { is_digit 16 c ≡ false → 16 ≤ result }
{
    DIGITS[c as usize]
}

// The same for decimal digits alone, which need no table.
fn decimal_digit(c: u8) -> u8
    ensures some { is_digit 10 c ≡ true → result ≡ digit_value c }
    ensures none { is_digit 10 c ≡ false → 10 ≤ result }
{
    c.wrapping_sub(b'0')
}

fn digit<const BASE: u64>(c: u8) -> u64
    requires { BASE ≤ 16 }
    ensures some { is_digit BASE c ≡ true → result ≡ digit_value c }
    ensures none { is_digit BASE c ≡ false → BASE ≤ result }
{
    u64::from(if BASE <= 10 {
        decimal_digit(c)
    } else {
        lower_digit(c)
    })
}

// A number below this one stays below 2^64 with one more digit, in each base up to 16.
const SURELY_FITS: u64 = 1 << 59;

// One more digit behind a number. Nearly all numbers are small enough for the first answer.
fn with_digit<const BASE: u64>(n: u64, c: u8) -> Option<u64>
    requires { BASE ≤ 16 }
    ensures { result ≡ numeral_after BASE n (c ∷ []) }
{
    let next = digit::<BASE>(c);
    if next >= BASE {
        return None;
    }
    if n < SURELY_FITS {
        return Some(n * BASE + next);
    }
    n.checked_mul(BASE)?.checked_add(next)
}

// One digit, or more without a leading zero.
fn is_proper(ds: &[u8]) -> bool
    ensures { result ≡ is_proper_lem ds.now }
{
    match ds {
        [] => false,
        [_] => true,
        [first, ..] => *first != b'0',
    }
}

// The number that the digits up to the first space stand for, and how many they are: no digit is a space, so no byte is
// looked at twice.
fn scanned<const BASE: u64>(text: &[u8]) -> Option<(u64, usize)>
    requires low { 0 < BASE }
    requires high { BASE ≤ 16 }
    ensures within { IfSome result (λ x. x.1 ≤ length text.now) }
    ensures number { MatchOption result (numeral_after BASE 0 (word_of text.now) ≡ None) (λ x. (numeral_after BASE 0 (word_of text.now) ≡ Some x.0) × (x.1 ≡ word_len text.now)) }
{
    let mut value = 0u64;
    let mut len = 0usize;
    'digits: while len < text.len() {
        let c = text[len];
        match with_digit::<BASE>(value, c) {
            Some(next) => value = next,
            None => return if c == b' ' { Some((value, len)) } else { None },
        }
        len += 1;
    }
    Some((value, len))
}

#[tactic(auto, unfolding(crate::specs::Numbers::numeral))]
fn digits<const BASE: u64>(text: &[u8]) -> Option<(u64, usize)>
    requires low { 0 < BASE }
    requires high { BASE ≤ 16 }
    ensures within { IfSome result (λ x. x.1 ≤ length text.now) }
    ensures number { MatchOption result (numeral BASE (word_of text.now) ≡ None) (λ x. (numeral BASE (word_of text.now) ≡ Some x.0) × (x.1 ≡ word_len text.now)) }
{
    let (value, len) = scanned::<BASE>(text)?;
    if is_proper(&text[..len]) {
        Some((value, len))
    } else {
        None
    }
}

/// The number that the first word of a text spells, and how long the word is.
#[tactic(auto, unfolding(crate::specs::Numbers::number_of))]
pub fn first_number(text: &[u8]) -> Option<(u64, usize)>
    ensures within { IfSome result (λ x. x.1 ≤ length text.now) }
    ensures number { MatchOption result (number_of (word_of text.now) ≡ None) (λ x. (number_of (word_of text.now) ≡ Some x.0) × (x.1 ≡ word_len text.now)) }
{
    match text {
        [b'0', b'x', rest @ ..] => {
            let (value, len) = digits::<16>(rest)?;
            Some((value, len + 2))
        }
        _ => digits::<10>(text),
    }
}
