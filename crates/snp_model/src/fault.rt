ghost use Rattle.std.specs.Prelude.{◌≡◌, ◌≤◌};
ghost use Rattle.snp_model.specs.Faults.{bit, code_of};

/// What an EXITINFO1 of a nested page fault says (APM volume 2, 15.25.6 and 15.36.10).
#[derive(Clone, Copy, Debug, PartialEq, Eq)]
pub struct NestedFault {
    /// The fault isn't a not-present entry.
    pub present: bool,
    /// The access writes.
    pub write: bool,
    /// The RMP refused.
    pub rmp: bool,
    /// The fault is of a guest table's address, and not of the final translation.
    pub table: bool,
    /// The access is private.
    pub private: bool,
    /// The page sizes of PVALIDATE or RMPADJUST don't fit.
    pub size: bool,
    /// The VMPL's permissions refused.
    pub vmpl: bool,
}

impl NestedFault {
    /// The EXITINFO1.
    #[tactic(auto, unfolding(crate::specs::Faults::code_of))]
    pub fn code(&self) -> u64
        ensures { result ≡ code_of self.now }
    {
        bit_value(self.present, 0x1)
            + bit_value(self.write || self.table, 0x2)
            + 0x4
            + bit_value(self.rmp, 0x8000_0000)
            + bit_value(!self.table, 0x1_0000_0000)
            + bit_value(self.table, 0x2_0000_0000)
            + bit_value(self.private, 0x4_0000_0000)
            + bit_value(self.size, 0x8_0000_0000)
            + bit_value(self.vmpl, 0x10_0000_0000)
    }
}

// The value of a bit where it is set.
fn bit_value(set: bool, value: u64) -> u64
    ensures value { result ≡ bit set value }
    ensures at_most { result ≤ value }
{
    if set { value } else { 0 }
}
