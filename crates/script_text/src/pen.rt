ghost use Rattle.std.specs.Prelude.{◌≡◌, ◌+◌, ◌/◌, ◌%◌, ◌<◌, ◌≤◌, [], ◌∷◌, ◌++◌, length, take, decimal};

use itoa::Buffer;

/// Writes a text at a place of a buffer, and gives the place after it.
#[inline(always)]
pub fn put(out: &mut [u8], at: usize, text: &[u8]) -> usize
    requires { at + length text.now ≤ length out.old }
    ensures end { result ≡ at + length text.now }
    ensures text { take result out.new ≡ take at out.old ++ text.now }
{
    let end = at + text.len();
    out[at..end].copy_from_slice(text);
    end
}

// The two digits of each number below 100.
static PAIRS: [u8; 200] =
    *b"00010203040506070809101112131415161718192021222324252627282930313233343536373839404142434445464748495051525354555657585960616263646566676869707172737475767778798081828384858687888990919293949596979899";

// Writes two digits.
#[inline(always)]
fn put_pair(out: &mut [u8], at: usize, pair: u32) -> usize
    requires below { pair < 100 }
    requires room { at + 2 ≤ length out.old }
    ensures end { result ≡ at + 2 }
    ensures text { take result out.new ≡ take at out.old ++ ((48 + pair / 10) ∷ (48 + pair % 10) ∷ []) }
{
    let from = pair as usize * 2;
    let text = [PAIRS[from], PAIRS[from + 1]];
    put(out, at, &text)
}

// Writes a number of one digit.
#[inline(always)]
#[tactic(auto, using(std::proofs::lemmas::Fmt::decimal_digit))]
fn put_digit(out: &mut [u8], at: usize, number: u32) -> usize
    requires below { number < 10 }
    requires room { at + 1 ≤ length out.old }
    ensures end { result ≡ at + 1 }
    ensures text { take result out.new ≡ take at out.old ++ decimal number }
{
    let text = [b'0' + number as u8];
    put(out, at, &text)
}

// Writes a number of at most two digits.
#[inline(always)]
#[tactic(auto, using(itoa::proofs::Decimal::decimal_two))]
fn put_first(out: &mut [u8], at: usize, number: u32) -> usize
    requires below { number < 100 }
    requires room { at + 2 ≤ length out.old }
    ensures end { result ≤ at + 2 }
    ensures text { take result out.new ≡ take at out.old ++ decimal number }
{
    if number < 10 {
        put_digit(out, at, number)
    } else {
        put_pair(out, at, number)
    }
}

// Writes a number of at most four digits.
#[inline(always)]
fn put_short(out: &mut [u8], at: usize, number: u32) -> usize
    requires below { number < 10_000 }
    requires room { at + 4 ≤ length out.old }
    ensures end { result ≤ at + 4 }
    ensures text { take result out.new ≡ take at out.old ++ decimal number }
{
    if number < 100 {
        return put_first(out, at, number);
    }
    let at = put_first(out, at, number / 100);
    put_pair(out, at, number % 100)
}

// Writes a number of at most eight digits.
#[inline(always)]
fn put_middle(out: &mut [u8], at: usize, number: u32) -> usize
    requires below { number < 100_000_000 }
    requires room { at + 8 ≤ length out.old }
    ensures end { result ≤ at + 8 }
    ensures text { take result out.new ≡ take at out.old ++ decimal number }
{
    if number < 10_000 {
        return put_short(out, at, number);
    }
    let at = put_short(out, at, number / 10_000);
    let rest = number % 10_000;
    let at = put_pair(out, at, rest / 100);
    put_pair(out, at, rest % 100)
}

// Writes a number of any length.
#[inline(never)]
fn put_more(out: &mut [u8], at: usize, number: u64) -> usize
    requires { at + 20 ≤ length out.old }
    ensures end { result ≤ at + 20 }
    ensures text { take result out.new ≡ take at out.old ++ decimal number }
{
    if number < 100_000_000 {
        return put_middle(out, at, number as u32);
    }
    let mut buffer = Buffer::new();
    put(out, at, buffer.format(number).as_bytes())
}

/// Writes a number in base 10, and gives the place after it.
#[inline(always)]
pub fn put_number(out: &mut [u8], at: usize, number: u64) -> usize
    requires { at + 20 ≤ length out.old }
    ensures end { result ≤ at + 20 }
    ensures text { take result out.new ≡ take at out.old ++ decimal number }
{
    if number < 10 {
        return put_digit(out, at, number as u32);
    }
    put_more(out, at, number)
}

/// Writes a name and a number in base 10, and gives the place after them.
#[inline(always)]
pub fn put_named(out: &mut [u8], at: usize, name: &[u8], number: u64) -> usize
    requires { at + length name.now + 20 ≤ length out.old }
    ensures end { result ≤ at + length name.now + 20 }
    ensures text { take result out.new ≡ take at out.old ++ (name.now ++ decimal number) }
{
    let at = put(out, at, name);
    put_number(out, at, number)
}
