ghost use Rattle.std.specs.Prelude.{◌≡◌, None, Some};
ghost use Rattle.snp_model.specs.declared.event.Deed.TheVariants.{Compute, Control, Lock, LockContext};
ghost use Rattle.snp_model.specs.declared.event.Outcome.TheVariants.{Next};
ghost use Rattle.snp_model.specs.FirmwareStep.{refused};
ghost use Rattle.snp_model.specs.InstructionStep.{refused_outcome};
ghost use Rattle.machine_core.specs.declared.taken_lock.Taken.TheVariants.{Made, OfContext, OfPage};

use crate::taken_lock::{Taken, TakenLock};
use snp_model::{Deed, FwRefusal, Outcome, Refusal};

/// What an event shows: what was done, how the attempt ended, if it did, and what was locked or made.
#[derive(Clone, Copy)]
pub struct Shown {
    pub deed: Deed,
    pub outcome: Option<Outcome>,
    pub lock: Option<Taken>,
}

impl Shown {
    /// The event of an item of another role's, which no scenario has.
    #[inline(never)]
    pub fn misplace(&mut self)
        ensures { self.new ≡ record { deed = Control; outcome = Some Next; lock = None } }
    {
        *self = Shown::last(Deed::Control, Outcome::Next);
    }

    /// The event of a walk that has faulted, at which no open attempt stands.
    pub fn faulted() -> Shown
        ensures { result ≡ record { deed = Control; outcome = Some Next; lock = None } }
    {
        Shown::last(Deed::Control, Outcome::Next)
    }

    /// An event that ends its attempt.
    pub fn last(deed: Deed, outcome: Outcome) -> Shown
        ensures { result ≡ record { deed = deed; outcome = Some outcome; lock = None } }
    {
        Shown::quiet(deed, Some(outcome))
    }

    /// An event that takes no lock.
    pub fn quiet(deed: Deed, outcome: Option<Outcome>) -> Shown
        ensures { result ≡ record { deed = deed; outcome = outcome; lock = None } }
    {
        Shown {
            deed,
            outcome,
            lock: None,
        }
    }

    /// An event that takes a lock of pages.
    pub fn locked(lock: TakenLock) -> Shown
        ensures { result ≡ record { deed = Lock lock.frame; outcome = None; lock = Some (OfPage lock) } }
    {
        let frame = u64::from(lock.frame);
        Shown {
            deed: Deed::Lock { frame },
            outcome: None,
            lock: Some(Taken::OfPage(lock)),
        }
    }

    /// An event that locks the context of a guest.
    pub fn locked_context(guest: u8) -> Shown
        ensures { result ≡ record { deed = LockContext guest; outcome = None; lock = Some (OfContext guest) } }
    {
        Shown {
            deed: Deed::LockContext { guest },
            outcome: None,
            lock: Some(Taken::OfContext(guest)),
        }
    }

    /// The event of a compute, which has made a page at the place for it.
    pub fn made() -> Shown
        ensures { result ≡ record { deed = Compute; outcome = None; lock = Some Made } }
    {
        Shown {
            deed: Deed::Compute,
            outcome: None,
            lock: Some(Taken::Made),
        }
    }

    /// The event of a compute that is refused.
    pub fn compute_refused(refusal: FwRefusal) -> Shown
        ensures { result ≡ record { deed = Compute; outcome = Some (refused refusal); lock = None } }
    {
        Shown::last(Deed::Compute, firmware_refused(refusal))
    }

    /// An event at which the lock of a guest's context is refused.
    pub fn context_refused(guest: u8, refusal: FwRefusal) -> Shown
        ensures { result ≡ record { deed = LockContext guest; outcome = Some (refused refusal); lock = None } }
    {
        Shown::last(Deed::LockContext { guest }, firmware_refused(refusal))
    }

    /// An event at which the lock of a page of a command of the firmware is refused.
    pub fn named_refused(frame: u64, refusal: FwRefusal) -> Shown
        ensures { result ≡ record { deed = Lock frame; outcome = Some (refused refusal); lock = None } }
    {
        Shown::last(Deed::Lock { frame }, firmware_refused(refusal))
    }

    /// An event at which the lock of a frame's page is refused.
    pub fn refused(frame: u64, refusal: Refusal) -> Shown
        ensures { result ≡ record { deed = Lock frame; outcome = Some (refused_outcome refusal); lock = None } }
    {
        Shown::last(Deed::Lock { frame }, refused(refusal))
    }
}

// How the refusal of a command of the firmware ends the attempt.
fn firmware_refused(refusal: FwRefusal) -> Outcome
    ensures { result ≡ refused refusal }
{
    match refusal {
        FwRefusal::Status(status) => Outcome::Firmware(status),
        FwRefusal::InUse { holder } => Outcome::FirmwareInUse { holder },
        FwRefusal::BadTag { found, kept } => Outcome::BadTag { found, kept },
    }
}

// How the refusal of a lock ends the attempt.
fn refused(refusal: Refusal) -> Outcome
    ensures { result ≡ refused_outcome refusal }
{
    match refusal {
        Refusal::Status(status) => Outcome::Status(status),
        Refusal::InUse { holder } => Outcome::StatusInUse { holder },
        Refusal::Npf(code) => Outcome::Npf(code),
        Refusal::Vc(code) => Outcome::Vc(code),
    }
}
