//! Words of 128 bits as polynomials (SP 800-38D, section 6.3): their products by x, by x^4, and by a polynomial of degree below 4.

ghost use Rattle.std.specs.Prelude.{◌≡◌, ◌<◌, ◌==◌, if◌then◌else◌};
ghost use Rattle.std.specs.Int.{bit_at};
ghost use Rattle.gcm_seal.specs.Words.{bits_below, word_product, word_times_x, word_times_x4};

/// What x^128 is modulo the polynomial, 1 + x + x^2 + x^7, as a word.
const REDUCTION: u128 = 0xe1 << 120;

/// What x^4 makes of the coefficients of x^124 to x^127, the lowest four bits of a word, by those bits.
static LOWEST_TIMES_X4: [u128; 16] = [
    0,
    0x1c20 << 112,
    0x3840 << 112,
    0x2460 << 112,
    0x7080 << 112,
    0x6ca0 << 112,
    0x48c0 << 112,
    0x54e0 << 112,
    0xe100 << 112,
    0xfd20 << 112,
    0xd940 << 112,
    0xc560 << 112,
    0x9180 << 112,
    0x8da0 << 112,
    0xa9c0 << 112,
    0xb5e0 << 112,
];

/// A word times x.
#[tactic(auto, unfolding(crate::specs::Words::word_times_x))]
fn times_x(word: u128) -> u128
    ensures { result ≡ word_times_x word }
{
    (word >> 1) ^ (if word & 1 == 1 { REDUCTION } else { 0 })
}

/// A word times x^4.
pub(crate) fn times_x4(word: u128) -> u128
    ensures { result ≡ word_times_x4 word }
{
    (word >> 4) ^ LOWEST_TIMES_X4[(word & 15) as usize]
}

/// The other word where `word` has a 1 at this place, counted from its lowest bit, and else zero.
#[tactic(auto, using(crate::proofs::Words::term_at_one, crate::proofs::Words::term_at_zero))]
fn term(word: u128, place: u32, other: u128) -> u128
    requires { place < 128 }
    ensures { result ≡ (if bit_at word place == 1 then other else 0) }
{
    if (word >> place) & 1 == 1 { other } else { 0 }
}

/// The product of a word and the polynomial of degree below 4 whose coefficients are the four lowest bits of `digit`, that of x^0 highest.
#[tactic(auto, unfolding(crate::specs::Words::word_product))]
pub(crate) fn multiple(digit: u128, word: u128) -> u128
    ensures { result ≡ word_product (bits_below 4 digit) word }
{
    let second = times_x(word);
    let third = times_x(second);
    let fourth = times_x(third);
    term(digit, 3, word)
        ^ (term(digit, 2, second) ^ (term(digit, 1, third) ^ term(digit, 0, fourth)))
}
