// A word as a number of 32 bits: decimal digits, or 0x and hexadecimal ones.
ghost use Rattle.std.specs.Prelude.{◌≡◌, Some};
ghost use Rattle.script.specs.Numbers.{digit_of, digits_from, fitting_of, is_hex, number_of, with_digit};

pub fn number(w: &[u8]) -> Option<u32>
    ensures { result ≡ number_of w.now }
{
    if is_hex(w) {
        digits(w, 2, true)
    } else {
        digits(w, 0, false)
    }
}

// The digits from a place on to the word's end: at least one.
#[tactic(auto, using(crate::proofs::Digits::none_stays, crate::proofs::Digits::no_digits, crate::proofs::Digits::some_digits, crate::proofs::Digits::one_taken, crate::proofs::Digits::none_left))]
pub fn digits(w: &[u8], from: usize, hex: bool) -> Option<u32>
    ensures { result ≡ digits_from from hex w.now }
{
    if w.len() <= from {
        return None;
    }
    let behind = &w[from..];
    let mut n = 0;
    for b in behind {
        n = with_digit(n, digit_of(*b)?, hex)?;
    }
    Some(n)
}

// A number with one digit more: none where that is no digit of the base, or the number is too large.
fn with_digit(n: u32, digit: u32, hex: bool) -> Option<u32>
    ensures { result ≡ with_digit hex (Some n) (Some digit) }
{
    if hex {
        fitting(u64::from(n) * 16 + u64::from(digit), digit < 16)
    } else {
        fitting(u64::from(n) * 10 + u64::from(digit), digit < 10)
    }
}

fn fitting(value: u64, good: bool) -> Option<u32>
    ensures { result ≡ fitting_of value good }
{
    if good {
        u32::try_from(value).ok()
    } else {
        None
    }
}

// What a digit stands for.
pub fn digit_of(b: u8) -> Option<u32>
    ensures { result ≡ digit_of b }
{
    char::from(b).to_digit(16)
}

fn is_hex(w: &[u8]) -> bool
    ensures { result ≡ is_hex w.now }
{
    matches!(w, [b'0', b'x' | b'X', ..])
}
