ghost use Rattle.std.specs.Prelude.{◌≡◌, ◌<◌, ◌^◌, ℕ, List, Ok, slice_index_or};
ghost use Rattle.snp_model.specs.declared.entry.RmpEntry.{RmpEntry};
ghost use Rattle.snp_model.specs.Metadata.{AreBytes, opened, sealed_metadata, sealed_page};
ghost use Rattle.snp_model.specs.State.{Context};

/// What was sealed is opened again: a page that a guest's context has sealed, of the guest or with metadata, has the tag that its
/// entry keeps, and under that entry it is opened, by the same key, to the words that it had. So a hypervisor that keeps ciphertext
/// and entry unchanged can always give the page back. Key: 32 bytes; words: 64 bits each.
pub fn sealed_pages()
    ensures page { (context : Context) (facts : RmpEntry) (words : List ℕ) → AreBytes context.key → ((i : ℕ) → slice_index_or words i 0 < 2 ^ 64)
        → opened context (sealed_page context facts words).entry (sealed_page context facts words).words ≡ Ok words }
    ensures metadata { (context : Context) (words : List ℕ) → AreBytes context.key → ((i : ℕ) → slice_index_or words i 0 < 2 ^ 64)
        → opened context (sealed_metadata context words).entry (sealed_metadata context words).words ≡ Ok words }
{}
