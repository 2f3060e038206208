ghost use Rattle.std.specs.Prelude.{◌≡◌, ℕ, ◌≤◌, ◌<◌, ◌+◌, ◌*◌, ◌%◌, bytes_eq, length, IfOk, IsTrue};
ghost use Rattle.std.specs.List.{list_all};
ghost use Rattle.snp_model.specs.Lines.{
  is_decimal_digit,
  is_hex_digit,
  digit_value,
  decimal_of,
  in_word,
  hex_of,
  is_prefixed,
  number_of,
  decimal,
  number,
  fixed,
  ranged,
  below,
  multiple,
};
ghost use Rattle.script_text.specs.Digits.{digit_test, spelled};

use snp_model::Reason;

/// Whether a word is this one.
#[inline(always)]
pub fn is_word(word: &[u8], name: &[u8]) -> bool
    ensures { result ≡ bytes_eq word.now name.now }
{
    word == name
}

/// A word that is always the same.
#[tactic(auto, unfolding(snp_model::specs::Lines::fixed))]
pub fn read_fixed(word: &[u8], name: &[u8]) -> Result<(), Reason>
    ensures { result ≡ fixed word.now name.now }
{
    if is_word(word, name) {
        Ok(())
    } else {
        Err(Reason::Form)
    }
}

// Whether a byte is `0` to `9`.
#[inline(always)]
fn is_decimal_digit(byte: u8) -> bool
    ensures { result ≡ is_decimal_digit byte }
{
    (b'0'..=b'9').contains(&byte)
}

/// Whether a byte is `0` to `9` or `a` to `f`.
#[inline(always)]
pub fn is_hex_digit(byte: u8) -> bool
    ensures { result ≡ is_hex_digit byte }
{
    is_decimal_digit(byte) || (b'a'..=b'f').contains(&byte)
}

/// The value of a digit.
#[inline(always)]
pub fn digit_value(byte: u8) -> u8
    ensures value { result ≡ digit_value byte }
    ensures small { IsTrue (is_hex_digit byte) → result < 16 }
{
    if byte <= b'9' {
        byte.saturating_sub(b'0')
    } else {
        byte.saturating_sub(b'a' - 10)
    }
}

/// Whether each byte is a hex digit.
pub fn all_hex(digits: &[u8]) -> bool
    ensures { result ≡ list_all is_hex_digit digits.now }
{
    digits.iter().all(|byte| is_hex_digit(*byte))
}

// Whether a byte is a digit in base 10 or 16.
#[inline(always)]
fn is_digit(base: u64, byte: u8) -> bool
    ensures { result ≡ digit_test base byte }
{
    if base == 16 {
        is_hex_digit(byte)
    } else {
        is_decimal_digit(byte)
    }
}

// Whether a word begins with `0x`.
#[inline(always)]
fn is_prefixed(word: &[u8]) -> bool
    ensures { result ≡ is_prefixed word.now }
{
    word.len() >= 2 && word[0] == b'0' && word[1] == b'x'
}

// The value that one more digit makes, where it is below 2^64.
#[inline(always)]
fn add_digit(base: u64, value: u64, digit: u8) -> Option<u64>
    ensures { result ≡ in_word (value * base + digit_value digit) }
{
    match value.checked_mul(base) {
        Some(high) => high.checked_add(u64::from(digit_value(digit))),
        None => None,
    }
}

// The number that bytes spell in base 10 or 16, where each is a digit and it is below 2^64.
#[inline(always)]
fn value_of(base: u64, digits: &[u8]) -> Option<u64>
    requires { 0 < base }
    ensures { result ≡ spelled base digits.now }
{
    let mut value: u64 = 0;
    for digit in digits {
        if !is_digit(base, *digit) {
            return None;
        }
        match add_digit(base, value, *digit) {
            Some(more) => value = more,
            None => return None,
        }
    }
    Some(value)
}

// The number of decimal digits, which begin with 0 only where they are 0 itself.
#[inline(always)]
#[tactic(auto, unfolding(snp_model::specs::Lines::decimal_of))]
fn decimal_of(digits: &[u8]) -> Option<u64>
    ensures { result ≡ decimal_of digits.now }
{
    if digits.is_empty() || (digits.len() != 1 && digits[0] == b'0') {
        None
    } else {
        value_of(10, digits)
    }
}

// The number of 1 to 16 hex digits.
#[tactic(auto, unfolding(snp_model::specs::Lines::hex_of))]
fn hex_of(digits: &[u8]) -> Option<u64>
    ensures { result ≡ hex_of digits.now }
{
    if digits.is_empty() || digits.len() > 16 {
        None
    } else {
        value_of(16, digits)
    }
}

/// A number of this word, or none.
#[tactic(auto, unfolding(snp_model::specs::Lines::number_of))]
pub fn number_of(word: &[u8]) -> Option<u64>
    ensures { result ≡ number_of word.now }
{
    if is_prefixed(word) {
        hex_of(&word[2..])
    } else {
        decimal_of(word)
    }
}

/// A number.
#[tactic(auto, unfolding(snp_model::specs::Lines::number))]
pub fn read_number(word: &[u8]) -> Result<u64, Reason>
    ensures { result ≡ number word.now }
{
    number_of(word).ok_or(Reason::Number)
}

/// A decimal number.
#[tactic(auto, unfolding(snp_model::specs::Lines::decimal))]
pub fn read_decimal(word: &[u8]) -> Result<u64, Reason>
    ensures { result ≡ decimal word.now }
{
    decimal_of(word).ok_or(Reason::Number)
}

/// A number from `low` to `high`.
#[tactic(auto, unfolding(snp_model::specs::Lines::ranged))]
pub fn read_ranged(low: u64, high: u64, word: &[u8]) -> Result<u64, Reason>
    ensures read { result ≡ ranged low high word.now }
    ensures bounds { IfOk result (λ n. (low ≤ n) × (n ≤ high)) }
{
    let n = read_number(word)?;
    if low <= n && n <= high {
        Ok(n)
    } else {
        Err(Reason::Range)
    }
}

/// A number below `end`.
#[tactic(auto, unfolding(snp_model::specs::Lines::below))]
pub fn read_below(end: u64, word: &[u8]) -> Result<u64, Reason>
    ensures read { result ≡ below end word.now }
    ensures bounds { IfOk result (λ n. n < end) }
{
    let n = read_number(word)?;
    if n < end { Ok(n) } else { Err(Reason::Range) }
}

/// The number, if it is a multiple of `unit`.
#[tactic(auto, unfolding(snp_model::specs::Lines::multiple))]
pub fn multiple(unit: u64, n: u64) -> Result<u64, Reason>
    requires { 0 < unit }
    ensures read { result ≡ multiple unit n }
    ensures same { IfOk result (λ m. m ≡ n) }
{
    if n % unit == 0 {
        Ok(n)
    } else {
        Err(Reason::Align)
    }
}
