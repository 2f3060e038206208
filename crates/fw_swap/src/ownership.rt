ghost use Rattle.std.specs.Prelude.{◌≡◌, ◌↔◌, ◌<◌, ℕ, List, ◌∷◌, IsTrue, IfSome};
ghost use Rattle.snp_model.specs.Measurement.{page_bytes};
ghost use Rattle.snp_model.specs.Metadata.{entry_at, entry_from, is_owned, owned};

/// The first byte of an entry in use.
const IN_USE: u8 = 1;

/// Whether every entry in use of a metadata page's words has an ASID.
pub fn owned(words: &[u64; 512], asid: u16) -> bool
    ensures owned { result ≡ owned words.now asid }
    ensures each { IsTrue result ↔ ((number : ℕ) → number < 64 → IfSome (entry_at words.now number) (λ entry. entry.asid ≡ asid)) }
{
    for number in 0..64 {
        if !is_owned(words[8 * number], asid) {
            return false;
        }
    }
    true
}

// Whether an entry with this first word has an ASID, if it is in use.
#[tactic(auto, using(snp_model::proofs::MetadataLaws::owned_by_first))]
pub(crate) fn is_owned(first: u64, asid: u16) -> bool
    ensures { (rest : List ℕ) → result ≡ is_owned asid (entry_from (page_bytes (first ∷ rest))) }
{
    let [in_use, _, _, _, low, high, _, _] = first.to_le_bytes();
    in_use != IN_USE || u16::from_le_bytes([low, high]) == asid
}
