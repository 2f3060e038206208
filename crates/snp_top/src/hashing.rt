//! The SHA-256 digest of a report, which is written nowhere else.
ghost use Rattle.std.specs.Prelude.{◌≡◌, ◌<◌, ◌≤◌, ◌^◌, ℕ, List, [], None, length, IfOk, OnErr};
ghost use Rattle.outside_port.specs.Holding.{WriteHolds};
ghost use Rattle.sha2.specs.Sha256.{sha256};
ghost use Rattle.snp_model.specs.Outside.{Rose, WriteAdds};
ghost use Rattle.snp_model.specs.Report.{report_text};
ghost use Rattle.snp_top.specs.Hashing.{WasFed};

use outside_port::{Failed, Sink};
use report_text::write_report;
use run_journal::Journal;
use sha2::{Digest as _, Sha256};
use snp_model::GuestLine;

/// A sink that feeds what it takes to SHA-256 (FIPS 180-4) and keeps no byte of it. It takes each piece whole and never fails.
#[derive(Drop)]
pub struct HashSink {
    hasher: Sha256,
}

impl HashSink {
    /// A sink that was fed nothing.
    pub fn new() -> HashSink
        ensures { WasFed result [] }
    {
        HashSink {
            hasher: Sha256::new(),
        }
    }

    /// The digest of what was fed.
    pub fn digest(self) -> [u8; 32]
        ensures { (text : List ℕ) → WasFed self text → result ≡ sha256 text }
    {
        self.hasher.finalize()
    }
}

impl Sink for HashSink {
    ghost written = { λ _. None };

    ghost holds = { λ s text. WasFed s text };

    ghost faults = { λ _. 0 };

    fn write(&mut self, bytes: &[u8]) -> Result<usize, Failed>
        ensures count { IfOk result (λ n. n ≤ length bytes.now) }
        ensures adds { WriteAdds None None result bytes.now }
        ensures held { WriteHolds (WasFed self.old) (WasFed self.new) result bytes.now }
        ensures later { 0 ≤ 0 }
        ensures failed { OnErr result (Rose 0 0) }
        ensures stuck { IfOk result (λ n. n ≡ 0 → 0 < length bytes.now → Rose 0 0) }
        ensures whole { IfOk result (λ n. n ≡ length bytes.now) }
    {
        self.hasher.update(bytes);
        Ok(bytes.len())
    }
}

/// The SHA-256 digest of the report of a journal and its guests. `version` is 1 or 2, that of the scenario. Takes no memory.
pub fn hash_report(version: u8, journal: &Journal, guests: &Vec<GuestLine>) -> [u8; 32]
    requires version { (1 ≤ version) × (version ≤ 2) }
    requires short { length journal.now.list < 2 ^ 32 }
    ensures { result ≡ sha256 (report_text version journal.now.list guests.now.items) }
{
    let mut sink = HashSink::new();
    match write_report(version, journal, guests, &mut sink) {
        Ok(()) => sink.digest(),
        Err(_) => unreachable!(),
    }
}
