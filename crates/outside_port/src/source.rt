ghost use Rattle.std.specs.Prelude.{◌≤◌, length, ℕ, List, Option, IfOk, OnErr};
ghost use Rattle.snp_model.specs.Outside.{EndsWhereEmpty, ReadTakes, Rose};

/// A read or a write that failed, which the source or sink counts among its faults.
#[derive(Clone, Copy, Debug, PartialEq, Eq)]
pub struct Failed;

/// Where bytes come from.
pub trait Source {
    // The bytes still to come, where the source tells them.
    ghost left: { Self → Option (List ℕ) };

    // How often the source has failed.
    ghost faults: { Self → ℕ };

    /// Reads some bytes into the front of the buffer, and says how many. The rest of the buffer may
    /// be anything. 0 bytes for a buffer that isn't empty are the end of the input.
    fn read(&mut self, buf: &mut [u8]) -> Result<usize, Failed>
        ensures count { IfOk result (λ n. n ≤ length buf.old) }
        ensures bytes { ReadTakes (left self.old) (left self.new) result buf.new }
        ensures end { EndsWhereEmpty (left self.old) result buf.old }
        ensures later { faults self.old ≤ faults self.new }
        ensures failed { OnErr result (Rose (faults self.old) (faults self.new)) };
}
