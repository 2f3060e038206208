ghost use Rattle.std.specs.Prelude.{◌≡◌, ◌+◌, ◌*◌, ◌/◌, ◌%◌, ◌<◌, ◌≤◌, [], ◌∷◌, ◌++◌, length, take, false};
ghost use Rattle.std.specs.Fmt.{digits, digit_glyph};
ghost use Rattle.snp_model.specs.EventText.{hex, hex_bytes};

use crate::pen::put;

// The two digits of each byte.
static PAIRS: [u8; 512] =
    *b"000102030405060708090a0b0c0d0e0f101112131415161718191a1b1c1d1e1f202122232425262728292a2b2c2d2e2f303132333435363738393a3b3c3d3e3f404142434445464748494a4b4c4d4e4f505152535455565758595a5b5c5d5e5f606162636465666768696a6b6c6d6e6f707172737475767778797a7b7c7d7e7f808182838485868788898a8b8c8d8e8f909192939495969798999a9b9c9d9e9fa0a1a2a3a4a5a6a7a8a9aaabacadaeafb0b1b2b3b4b5b6b7b8b9babbbcbdbebfc0c1c2c3c4c5c6c7c8c9cacbcccdcecfd0d1d2d3d4d5d6d7d8d9dadbdcdddedfe0e1e2e3e4e5e6e7e8e9eaebecedeeeff0f1f2f3f4f5f6f7f8f9fafbfcfdfeff";

// Writes the two digits of a byte.
#[inline(always)]
fn put_pair(out: &mut [u8], at: usize, pair: usize) -> usize
    requires below { pair < 256 }
    requires room { at + 2 ≤ length out.old }
    ensures end { result ≡ at + 2 }
    ensures text { take result out.new ≡ take at out.old ++ (digit_glyph false (pair / 16) ∷ digit_glyph false (pair % 16) ∷ []) }
{
    let text = [PAIRS[2 * pair], PAIRS[2 * pair + 1]];
    put(out, at, &text)
}

// Writes a number of one digit.
#[inline(always)]
fn put_digit(out: &mut [u8], at: usize, value: usize) -> usize
    requires below { value < 16 }
    requires room { at + 1 ≤ length out.old }
    ensures end { result ≡ at + 1 }
    ensures text { take result out.new ≡ take at out.old ++ digits 16 false value }
{
    let text = [PAIRS[2 * value + 1]];
    put(out, at, &text)
}

// Writes a number of at most two digits.
#[inline(always)]
#[tactic(auto, using(std::proofs::lemmas::Fmt::hex_two_digits))]
fn put_first(out: &mut [u8], at: usize, value: usize) -> usize
    requires below { value < 256 }
    requires room { at + 2 ≤ length out.old }
    ensures end { result ≤ at + 2 }
    ensures text { take result out.new ≡ take at out.old ++ digits 16 false value }
{
    if value < 16 {
        put_digit(out, at, value)
    } else {
        put_pair(out, at, value)
    }
}

// Writes a number of at most four digits.
#[inline(always)]
fn put_short(out: &mut [u8], at: usize, value: usize) -> usize
    requires below { value < 0x1_0000 }
    requires room { at + 4 ≤ length out.old }
    ensures end { result ≤ at + 4 }
    ensures text { take result out.new ≡ take at out.old ++ digits 16 false value }
{
    if value < 256 {
        return put_first(out, at, value);
    }
    let at = put_first(out, at, value / 256);
    put_pair(out, at, value % 256)
}

// Writes a number of at most eight digits.
#[inline(always)]
fn put_middle(out: &mut [u8], at: usize, value: usize) -> usize
    requires below { value < 0x1_0000_0000 }
    requires room { at + 8 ≤ length out.old }
    ensures end { result ≤ at + 8 }
    ensures text { take result out.new ≡ take at out.old ++ digits 16 false value }
{
    if value < 0x1_0000 {
        return put_short(out, at, value);
    }
    let at = put_short(out, at, value / 0x1_0000);
    let rest = value % 0x1_0000;
    let at = put_pair(out, at, rest / 256);
    put_pair(out, at, rest % 256)
}

// Writes a number of at most twelve digits.
#[inline(always)]
fn put_large(out: &mut [u8], at: usize, value: usize) -> usize
    requires below { value < 0x1_0000_0000_0000 }
    requires room { at + 12 ≤ length out.old }
    ensures end { result ≤ at + 12 }
    ensures text { take result out.new ≡ take at out.old ++ digits 16 false value }
{
    if value < 0x1_0000_0000 {
        return put_middle(out, at, value);
    }
    let at = put_middle(out, at, value / 0x1_0000);
    let rest = value % 0x1_0000;
    let at = put_pair(out, at, rest / 256);
    put_pair(out, at, rest % 256)
}

// Writes a number.
#[inline(never)]
fn put_more(out: &mut [u8], at: usize, value: usize) -> usize
    requires { at + 16 ≤ length out.old }
    ensures end { result ≤ at + 16 }
    ensures text { take result out.new ≡ take at out.old ++ digits 16 false value }
{
    if value < 0x1_0000_0000_0000 {
        return put_large(out, at, value);
    }
    let at = put_large(out, at, value / 0x1_0000);
    let rest = value % 0x1_0000;
    let at = put_pair(out, at, rest / 256);
    put_pair(out, at, rest % 256)
}

/// Writes a number in base 16, after 0x, and gives the place after it.
#[inline(always)]
#[tactic(auto, unfolding(snp_model::specs::EventText::hex))]
pub fn put_hex(out: &mut [u8], at: usize, value: u64) -> usize
    requires { at + 18 ≤ length out.old }
    ensures end { result ≤ at + 18 }
    ensures text { take result out.new ≡ take at out.old ++ hex value }
{
    let at = put(out, at, b"0x");
    if value < 16 {
        return put_digit(out, at, value as usize);
    }
    put_more(out, at, value as usize)
}

/// Writes two digits in base 16 for each byte, and gives the place after them.
pub fn put_bytes(out: &mut [u8], at: usize, bytes: &[u8]) -> usize
    requires { at + 2 * length bytes.now ≤ length out.old }
    ensures end { result ≡ at + 2 * length bytes.now }
    ensures text { take result out.new ≡ take at out.old ++ hex_bytes bytes.now }
{
    let mut end = at;
    for byte in bytes {
        end = put_pair(out, end, *byte as usize);
    }
    end
}
