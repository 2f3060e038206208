ghost use Rattle.std.specs.Prelude.{◌≡◌, ℕ, ◌*◌, List, [], ◌∷◌, ◌++◌, length};
ghost use Rattle.sha2.specs.Sha512.{sha384};
ghost use Rattle.std.specs.Int.{to_le_bytes, w64};
ghost use Rattle.snp_model.specs.Measurement.{digest_after, measure, page_bytes, page_contents, page_info, IsLaunchType, LaunchedPage};

use sha2::{Digest as _, Sha384};
use std::marker::Model;

/// The page type NORMAL: the page's words are measured.
const NORMAL: u8 = 1;

/// The length of PAGE_INFO in bytes.
const PAGE_INFO_LENGTH: u16 = 0x0070;

/// The size of a page in bytes.
const PAGE_SIZE: u64 = 4096;

/// The launch digest of the pages launched so far, 48 bytes; contracts see their list.
#[derive(Clone, Copy, Debug, PartialEq, Eq)]
pub struct Digest {
    bytes: [u8; 48],
}

impl Model for Digest {
    ghost use Rattle.std.specs.Prelude.{ℕ, List};

    ghost Value = { List ℕ };

    ghost view = { λ digest. digest.bytes };

    ghost inverse = { λ bytes. record { bytes = bytes } };
}

impl Digest {
    /// The digest before the first page.
    pub fn zero() -> Digest
        ensures { result ≡ measure [] }
    {
        Digest { bytes: [0; 48] }
    }

    /// Takes one more launched page into the digest.
    ///
    /// `page_type` is 1 (NORMAL), 3 (ZERO) or 4 (UNMEASURED), `imi` whether the page belongs to an initial
    /// migration image, `perms` the permissions of VMPL1, VMPL2 and VMPL3, `gpn` the guest page number, of whose
    /// address the low 64 bits count.
    /// The words count for a NORMAL page alone.
    #[tactic(auto, unfolding(snp_model::specs::Measurement::page_info))]
    pub fn extend(&mut self, page_type: u8, imi: bool, perms: [u8; 3], gpn: u64, words: &[u64; 512])
        requires launched { IsLaunchType page_type }
        ensures { self.new ≡ digest_after self.old (record {
          page_type = page_type;
          imi = imi;
          perms = perms;
          gpn = gpn;
          words = words.now;
        }) }
    {
        let contents = page_contents(page_type, words);
        let mut page_info = Sha384::new();
        page_info.update(self.bytes);
        page_info.update(contents);
        page_info.update(PAGE_INFO_LENGTH.to_le_bytes());
        page_info.update([page_type, u8::from(imi), perms[2], perms[1], perms[0], 0]);
        page_info.update(address_bytes(gpn));
        self.bytes = page_info.finalize();
    }

    /// The digest's bytes, in the order in which a report has them.
    pub fn bytes(&self) -> [u8; 48]
        ensures { result ≡ self.now }
    {
        self.bytes
    }
}

/// Law: one page more is one step more.
pub fn digest_of_one_page_more()
    ensures { (pages : List LaunchedPage) (page : LaunchedPage) →
        measure (pages ++ page ∷ []) ≡ digest_after (measure pages) page }
{}

/// Law: PAGE_INFO has the length that it states.
pub fn length_of_page_info()
    ensures { (digest : List ℕ) (page : LaunchedPage) →
        length digest ≡ 48 → length (page_info digest page) ≡ 112 }
{}

// The field CONTENTS of a page with these words.
#[tactic(auto, unfolding(snp_model::specs::Measurement::page_contents))]
fn page_contents(page_type: u8, words: &[u64; 512]) -> [u8; 48]
    ensures { result ≡ page_contents page_type words.now }
{
    if page_type == NORMAL {
        page_digest(words)
    } else {
        [0; 48]
    }
}

// The field GPA of a page: the low 64 bits of its address, low byte first.
fn address_bytes(gpn: u64) -> [u8; 8]
    ensures { result ≡ to_le_bytes w64 (gpn * 4096) }
{
    gpn.wrapping_mul(PAGE_SIZE).to_le_bytes()
}

// The SHA-384 digest of a page's bytes. Each word goes into the hasher by itself, so the page is not copied whole.
#[tactic(auto, unfolding(snp_model::specs::Measurement::page_bytes))]
fn page_digest(words: &[u64; 512]) -> [u8; 48]
    ensures { result ≡ sha384 (page_bytes words.now) }
{
    let mut hasher = Sha384::new();
    'words: for word in words {
        hasher.update(word.to_le_bytes());
    }
    hasher.finalize()
}
