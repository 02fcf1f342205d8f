//! Numbers that words spell.
ghost use Rattle.std.specs.Prelude.{◌≡◌, ◌-◌, ◌*◌, ◌+◌, ◌^◌, ◌<◌, ◌↔◌, List, ℕ, Some, decimal};
ghost use Rattle.std.specs.Char.{is_ascii_digit};
ghost use Rattle.std.specs.List.{list_all};
ghost use Rattle.qs_book_script.specs.Numbers.{below, number_of, is_decimal, read_on};

/// The number of 64 bits that the word is: digits alone, and no zero in front of others.
pub fn number_of(word: &[u8]) -> Option<u64>
    ensures { result ≡ number_of word.now }
{
    if is_decimal(word) {
        value_of(word)
    } else {
        None
    }
}

/// The value of digits, where it has 64 bits.
fn value_of(digits: &[u8]) -> Option<u64>
    ensures { result ≡ below (2 ^ 64) (Some (read_on 0 digits.now)) }
{
    let mut value: u64 = 0;
    for digit in digits {
        value = with_digit(value, *digit)?;
    }
    Some(value)
}

/// The value with one more digit behind it, where it has 64 bits.
fn with_digit(value: u64, digit: u8) -> Option<u64>
    ensures { result ≡ below (2 ^ 64) (Some (10 * value + (digit - 48))) }
{
    let shifted = value.checked_mul(10)?;
    shifted.checked_add(u64::from(digit.saturating_sub(b'0')))
}

/// Whether the word has digits alone, and no zero in front of others.
pub fn is_decimal(word: &[u8]) -> bool
    ensures { result ≡ is_decimal word.now }
{
    match word {
        [] => false,
        [digit] => digit.is_ascii_digit(),
        [first, ..] => *first != b'0' && are_digits(word),
    }
}

/// Whether all bytes are digits.
fn are_digits(word: &[u8]) -> bool
    ensures { result ≡ list_all is_ascii_digit word.now }
{
    word.iter().all(|byte| byte.is_ascii_digit())
}

/// A word is a number exactly where it is the decimal spelling of one of 64 bits.
pub fn numbers_have_one_spelling()
    ensures { (word : List ℕ) (n : ℕ) → (number_of word ≡ Some n) ↔ ((n < 2 ^ 64) × (word ≡ decimal n)) }
{}
