//! Fields of a line, which end at a space or at the newline.

ghost use Rattle.std.specs.Prelude.{◌≡◌, ℕ, ◌+◌, ◌<◌, ◌≤◌, ◌^◌, List, ◌∷◌, ◌++◌, length, slice_index, false, IsTrue, ◌↔◌, IfSome, IfNone};
ghost use Rattle.std.specs.Fmt.{decimal};
ghost use Rattle.crq_printer.specs.Fields.{Lacks};

/// The bytes before the first `after`, and the bytes behind it.
pub(crate) fn read_field(text: &[u8], after: u8) -> Option<(&[u8], &[u8])>
    ensures parts { IfSome result (λ p. text.now ≡ p.0.now ++ (after ∷ p.1.now)) }
    ensures first { IfSome result (λ p. Lacks after p.0.now) }
    ensures none { IfNone result ((front back : List ℕ) → text.now ≡ front ++ (after ∷ back) → ⊥) }
{
    for (at, byte) in text.iter().enumerate() {
        if *byte == after {
            return Some((&text[..at], &text[at + 1..]));
        }
    }
    None
}

/// Whether a numeral may begin so: with a digit other than zero, or with a zero that stands alone.
fn may_begin(digits: &[u8]) -> bool
    ensures some { IsTrue result → 0 < length digits.now }
    ensures lead { IsTrue result → slice_index digits.now 0 ≡ 48 → length digits.now ≡ 1 }
    ensures none { result ≡ false → (n : ℕ) → n < 2 ^ 64 → digits.now ≡ decimal n → ⊥ }
{
    match digits.first() {
        None => false,
        Some(b'0') => digits.len() == 1,
        Some(_) => true,
    }
}

/// The number whose decimal numeral this is.
fn number_of(digits: &[u8]) -> Option<u64>
    ensures number { IfSome result (λ n. digits.now ≡ decimal n) }
    ensures none { IfNone result ((n : ℕ) → n < 2 ^ 64 → digits.now ≡ decimal n → ⊥) }
{
    if !may_begin(digits) {
        return None;
    }
    let mut number = 0u64;
    for digit in digits {
        if !digit.is_ascii_digit() {
            return None;
        }
        number = number
            .checked_mul(10)?
            .checked_add(u64::from(*digit - b'0'))?;
    }
    Some(number)
}

/// The number of at most `most` before the first `after`, and the bytes behind it.
pub(crate) fn read_number(text: &[u8], after: u8, most: u64) -> Option<(u64, &[u8])>
    requires { after < 48 }
    ensures most { IfSome result (λ p. p.0 ≤ most) }
    ensures parts { IfSome result (λ p. text.now ≡ decimal p.0 ++ (after ∷ p.1.now)) }
    ensures none { IfNone result ((n : ℕ) (back : List ℕ) → n ≤ most → text.now ≡ decimal n ++ (after ∷ back) → ⊥) }
{
    let (digits, rest) = read_field(text, after)?;
    let number = number_of(digits)?;
    if number > most {
        return None;
    }
    Some((number, rest))
}

/// Whether the bytes are the same.
fn are_same(found: &[u8], word: &[u8]) -> bool
    ensures { IsTrue result ↔ (found.now ≡ word.now) }
{
    found == word
}

/// The text behind this word and the byte after it, if it begins with them.
pub(crate) fn skip_word<'a>(text: &'a [u8], word: &[u8], after: u8) -> Option<&'a [u8]>
    requires { Lacks after word.now }
    ensures parts { IfSome result (λ rest. text.now ≡ word.now ++ (after ∷ rest.now)) }
    ensures none { IfNone result ((back : List ℕ) → text.now ≡ word.now ++ (after ∷ back) → ⊥) }
{
    let (found, rest) = read_field(text, after)?;
    if !are_same(found, word) {
        return None;
    }
    Some(rest)
}

/// The text behind this number and the byte after it, if it begins with them.
pub(crate) fn skip_number(text: &[u8], number: u64, after: u8) -> Option<&[u8]>
    requires { after < 48 }
    ensures parts { IfSome result (λ rest. text.now ≡ decimal number ++ (after ∷ rest.now)) }
    ensures none { IfNone result ((back : List ℕ) → text.now ≡ decimal number ++ (after ∷ back) → ⊥) }
{
    let (found, rest) = read_number(text, after, number)?;
    if found != number {
        return None;
    }
    Some(rest)
}
