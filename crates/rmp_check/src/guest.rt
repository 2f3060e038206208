ghost use Rattle.std.specs.Prelude.{◌≡◌, ◌≢◌, ◌↔◌, true, false};
ghost use Rattle.snp_model.specs.declared.access.Verdict.TheVariants.{Pass, Hidden};
ghost use Rattle.snp_model.specs.Accesses.{IsPlace};
ghost use Rattle.snp_model.specs.Verdicts.{is_large, private_verdict, private_refusal, shared_verdict};
ghost use Rattle.rmp_check.specs.Allowed.{IsAllowed};

use crate::operation::lacks;
use snp_model::{NestedFault, Op, Outcome, PageSize, Place, RmpEntry, Verdict};

/// The verdict on a guest's private access to a frame with this entry: the first row of the table that
/// applies (APM volume 2, 15.36.10).
// It is inlined so that an entry that its caller has read goes nowhere through memory.
#[inline(always)]
#[tactic(auto, unfolding(snp_model::specs::Verdicts::private_verdict))]
pub fn private_verdict(entry: &RmpEntry, at: &Place, op: &Op) -> Verdict
    requires { IsPlace at.now }
    ensures verdict { result ≡ private_verdict entry.now at.now op.now }
    ensures passes { (result ≡ Pass) ↔ IsAllowed entry.now at.now op.now }
    ensures never_hidden { result ≢ Hidden }
{
    // Each row returns, since the value of an `if` goes through a place of its own.
    if !entry.assigned || entry.asid != at.asid {
        return private_refusal(at, op, false);
    }
    if entry.gpn != at.gpn {
        return private_refusal(at, op, false);
    }
    if entry.immutable {
        return private_refusal(at, op, false);
    }
    if is_large(at.leaf) && !is_large(entry.size) {
        return private_refusal(at, op, false);
    }
    if !entry.validated {
        return Verdict::Fault(Outcome::Vc(0x404));
    }
    if lacks(entry.perms[at.vmpl as usize], op) {
        return private_refusal(at, op, true);
    }
    Verdict::Pass
}

/// The verdict on a guest's shared access to a frame with this entry.
#[tactic(auto, unfolding(snp_model::specs::Verdicts::shared_verdict))]
pub fn shared_verdict(entry: &RmpEntry, at: &Place, op: &Op) -> Verdict
    requires { IsPlace at.now }
    ensures verdict { result ≡ shared_verdict entry.now at.now op.now }
    ensures unassigned { entry.now.assigned ≡ false → result ≡ Pass }
    ensures assigned { entry.now.assigned ≡ true → result ≢ Pass }
{
    if entry.assigned && op.writes() {
        let fault = NestedFault {
            present: true,
            write: true,
            rmp: true,
            table: at.table,
            private: false,
            size: false,
            vmpl: false,
        };
        Verdict::Fault(Outcome::Npf(fault.code()))
    } else if entry.assigned {
        Verdict::Hidden
    } else {
        Verdict::Pass
    }
}

// A private access is refused by the RMP: by the VMPL's permissions, or before.
#[inline(never)]
fn private_refusal(at: &Place, op: &Op, by_permissions: bool) -> Verdict
    ensures verdict { result ≡ private_refusal at.now op.now by_permissions }
    ensures faults { result ≢ Pass }
{
    let fault = NestedFault {
        present: true,
        write: op.writes(),
        rmp: true,
        table: at.table,
        private: true,
        size: false,
        vmpl: by_permissions,
    };
    Verdict::Fault(Outcome::Npf(fault.code()))
}

// Whether a page is of 2 MB.
pub(crate) fn is_large(size: PageSize) -> bool
    ensures { result ≡ is_large size }
{
    match size {
        PageSize::Small => false,
        PageSize::Large => true,
    }
}
