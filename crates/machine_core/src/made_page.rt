ghost use Rattle.std.specs.Prelude.{◌≡◌};

use snp_model::MetaEntry;

/// A place for a page that the compute of a command makes: its words, and the metadata entry that belongs to it.
#[derive(Drop)]
pub struct MadePage {
    pub words: [u64; 512],
    pub entry: MetaEntry,
}

impl MadePage {
    /// A place at which nothing was made yet.
    pub fn new() -> MadePage {
        MadePage {
            words: [0; 512],
            entry: MetaEntry {
                kind: 0,
                vmsa: false,
                validated: false,
                asid: 0,
                gpn: 0,
                perms: [0; 4],
                iv: 0,
                tag: [0; 16],
            },
        }
    }
    /// Becomes another one.
    pub fn put(&mut self, other: &MadePage)
        ensures { self.new ≡ other.now }
    {
        self.words = other.words;
        self.entry = other.entry;
    }
}
