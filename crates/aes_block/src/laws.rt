//! Laws of the definitions.

ghost use Rattle.std.specs.Prelude.{◌≡◌, ℕ, ◌<◌};
ghost use Rattle.snp_model.specs.AesField.{inverse, ◌•◌};

/// The inverse that the S-box is made from is the multiplicative inverse, and 0 for 0 (FIPS 197, 4.4 and 5.1.1).
pub fn inverse_is_multiplicative()
    ensures product { (b : ℕ) → 0 < b → b < 256 → b • inverse b ≡ 1 }
    ensures zero { inverse 0 ≡ 0 }
{}
