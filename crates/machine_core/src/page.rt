ghost use Rattle.std.specs.Prelude.{◌≡◌, ◌<◌, ◌^◌};
ghost use Rattle.snp_model.specs.Accesses.{IsPlace};
ghost use Rattle.snp_model.specs.Facts.{frames_in, page_base};
ghost use Rattle.snp_model.specs.InstructionStep.{is_page_address, page_place};
ghost use Rattle.snp_model.specs.Opening.{asid_of};

use crate::cpu::{Arrived, Processor, asid_of};
use crate::taken_lock::TakenLock;
use snp_model::{GuestSpec, PageSize, Place};

/// Whether an address is that of a page of this size: a multiple of 4 KB, or of 2 MB.
pub fn is_page_address(size: PageSize, address: u64) -> bool
    ensures { result ≡ is_page_address size address }
{
    match size {
        PageSize::Small => address % 4096 == 0,
        PageSize::Large => address % 0x20_0000 == 0,
    }
}

/// Where PVALIDATE or RMPADJUST has come to: a page, of which no one word matters.
pub fn page_place(guests: &[GuestSpec], cpu: Processor, at: &Arrived) -> Place
    requires guest { 0 < cpu.guest }
    requires vmpl { cpu.vmpl < 4 }
    requires gpn { at.now.gpn < 2 ^ 36 }
    ensures place { result ≡ page_place (asid_of guests.now cpu.guest) cpu.vmpl at.now.gpn at.now.frame at.now.size }
    ensures inside { IsPlace result }
{
    Place {
        asid: asid_of(guests, cpu.guest),
        gpn: at.gpn,
        slot: at.frame as usize % 512,
        index: 0,
        leaf: at.size,
        vmpl: cpu.vmpl,
        private: true,
        table: false,
    }
}

/// The lock of the page of this size in which a frame stands.
pub fn page_taken(frame: u32, size: PageSize) -> TakenLock
    ensures { result ≡ record { frame = frame; base = page_base size frame; count = frames_in size } }
{
    match size {
        PageSize::Small => TakenLock {
            frame,
            base: frame,
            count: 1,
        },
        PageSize::Large => TakenLock {
            frame,
            base: frame / 512 * 512,
            count: 512,
        },
    }
}
