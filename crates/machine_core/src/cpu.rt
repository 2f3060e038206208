ghost use Rattle.std.specs.Prelude.{◌≡◌, ℕ, ◌+◌, ◌/◌, ◌%◌, ◌<◌, ◌≤◌, ◌^◌, length, List, ◌++◌, ◌∷◌, [], None, Some, IfSome, IsSome};
ghost use Rattle.snp_model.specs.declared.event.Deed.TheVariants.{Access, Nested, Table};
ghost use Rattle.snp_model.specs.declared.item.Op.TheVariants.{Load};
ghost use Rattle.snp_model.specs.declared.scenario.GuestSpec.{GuestSpec};
ghost use Rattle.snp_model.specs.Accesses.{IsPlace, guest_verdict};
ghost use Rattle.snp_model.specs.Bounds.{IsCpu, IsGuestInside, IsPaging};
ghost use Rattle.snp_model.specs.GuestWalk.{levels_of};
ghost use Rattle.snp_model.specs.Moves.{Arrival, is_running, table_place, table_word, begin_move, walked_move};
ghost use Rattle.snp_model.specs.Opening.{asid_of};
ghost use Rattle.snp_model.specs.State.{ActorPart, View, word_of};
ghost use Rattle.snp_model.specs.Step.{data_place, access_move, data_move};
ghost use Rattle.snp_model.specs.Touches.{walk_touches};
ghost use Rattle.snp_model.specs.Verdicts.{private_verdict};
ghost use Rattle.snp_model.specs.Walking.{index_of, guest_words, nested_words, guest_stands, walk_need, need_after, fault_of};
ghost use Rattle.machine_core.specs.Actors.{IsBegun};
ghost use Rattle.machine_core.specs.Bays.{HasFrame, HasTouched, contexts_of, locks_of, pages_of, view_on};
ghost use Rattle.machine_core.specs.Moves.{move_by, processor_of, table_load, table_shown, walk_shows};
ghost use Rattle.machine_core.specs.Walks.{IsReading, arrived_at};

use crate::actor::ActorState;
use crate::changes::guest_access;
use crate::parts::Parts;
use crate::reads::{guest_table_word, table_word};
use crate::shown::Shown;
use crate::walking::{fault_by_nested, fault_by_table, levels_of, walk_need};
use guest_walk::is_canonical;
use snp_model::{
    Deed, GuestEnd, GuestSpec, GuestState, Lookup, Need, Op, Outcome, PageSize, Paging, Place,
};

/// A guest's processor: its guest, from 1, its VMPL, the frame of its first nested table, and its guest tables.
#[derive(Clone, Copy)]
pub struct Processor {
    pub guest: u8,
    pub vmpl: u8,
    pub npt: u32,
    pub paging: Paging,
}

/// The walks of an item of such a processor, and what they look up.
#[derive(Clone, Copy)]
pub struct Walker {
    pub cpu: Processor,
    pub lookup: Lookup,
}

/// The page to which the walks of an item have come: its guest page number, below 2^36, whether it is private, the frame,
/// in memory, and the size of the nested leaf.
#[derive(Clone, Copy)]
pub struct Arrived {
    pub gpn: u64,
    pub private: bool,
    pub frame: u32,
    pub size: PageSize,
}

// Whether a guest runs.
fn is_running(state: GuestState) -> bool
    ensures { result ≡ is_running state }
{
    matches!(state, GuestState::Running)
}

/// The ASID of a guest.
pub fn asid_of(guests: &[GuestSpec], guest: u8) -> u16
    requires { 0 < guest }
    ensures { result ≡ asid_of guests.now guest }
{
    match guests.get(guest as usize - 1) {
        None => 0,
        Some(spec) => spec.asid,
    }
}

/// The word of a page that an address names.
pub fn index_of(address: u64) -> u16
    ensures index { result ≡ index_of address }
    ensures below { result < 512 }
{
    (address / 8 % 512) as u16
}

// The beginning of an item, which may have a refusal of its own.
#[inline(always)]
#[tactic(auto, unfolding(snp_model::specs::Moves::begin_move, crate::specs::Bays::contexts_of))]
fn begin<P: Parts>(parts: &P, walker: &Walker, refusal: Option<Outcome>, shown: &mut Shown)
    requires { IsSome ((P.stock parts.now).contexts walker.now.cpu.guest) }
    ensures moves { (after : View) (part : ActorPart) (guests : List GuestSpec) → begin_move after.contents part (contexts_of (P.stock parts.now).contexts guests walker.now.cpu.guest) (levels_of walker.now.cpu.paging) walker.now.lookup.address refusal ≡ move_by shown.new after part.standing }
    ensures unlocked { shown.new.lock ≡ None }
{
    let context = parts.context(walker.cpu.guest);
    let outcome = if !is_running(context.state) {
        Some(Outcome::Offline)
    } else if !is_canonical(levels_of(walker.cpu.paging), walker.lookup.address) {
        Some(Outcome::Gp)
    } else {
        refusal
    };
    *shown = Shown::quiet(Deed::Begin, outcome);
}

// The event of reading a word of a nested table.
#[inline(always)]
fn read_nested<P: Parts>(
    parts: &P,
    frames: u32,
    actor: &ActorState,
    walker: &Walker,
    stands: GuestEnd,
    frame: u32,
    index: u16,
    shown: &mut Shown,
)
    requires npt { walker.now.cpu.npt < frames }
    requires inside { IsGuestInside stands }
    requires stands { stands ≡ guest_stands walker.now.cpu.paging walker.now.lookup (guest_words actor.now.deeds) }
    requires reads { IsReading (walk_need frames walker.now.cpu.npt walker.now.lookup stands (nested_words actor.now.deeds)) }
    requires has { HasFrame (P.stock parts.now) frame }
    requires index { index < 512 }
    ensures { let deed = Nested frame index (table_word (pages_of (P.stock parts.now).bays frame) index) in
        shown.new ≡ record { deed = deed; outcome = fault_of (need_after frames (processor_of walker.now.cpu) walker.now.lookup (actor.now.deeds ++ deed ∷ [])); lock = None } }
{
    let value = table_word(parts, frame, index);
    let npt = walker.cpu.npt;
    let words = actor.nested_words();
    let deed = Deed::Nested {
        frame,
        index,
        value,
    };
    match fault_by_nested(frames, npt, &walker.lookup, stands, words, value) {
        None => *shown = Shown::quiet(deed, None),
        Some(code) => *shown = Shown::last(deed, Outcome::Npf(code)),
    }
}

// The event of reading a word of a guest table, with its check.
#[inline(always)]
fn read_table<P: Parts>(
    parts: &P,
    actor: &ActorState,
    walker: &Walker,
    place: &Place,
    frame: u32,
    shown: &mut Shown,
)
    requires paging { IsPaging walker.now.cpu.paging }
    requires has { HasFrame (P.stock parts.now) frame }
    requires place { IsPlace place.now }
    requires slot { place.now.slot ≡ frame % 512 }
    ensures shown { (frames : ℕ) → let page = pages_of (P.stock parts.now).bays frame in
        shown.new ≡ table_shown (table_load (private_verdict page.facts place.now Load) (word_of page place.now.index)) place.now.gpn place.now.index frame
        (λ value. fault_of (need_after frames (processor_of walker.now.cpu) walker.now.lookup (actor.now.deeds ++ Table place.now.gpn place.now.index frame (Some value) ∷ []))) }
    ensures unlocked { shown.new.lock ≡ None }
{
    let gpn = place.gpn;
    let index = place.index as u16;
    match guest_table_word(parts, frame, place) {
        Ok(word) => {
            let words = actor.guest_words();
            let deed = Deed::Table {
                gpn,
                index,
                frame,
                value: Some(word),
            };
            match fault_by_table(walker.cpu.paging, &walker.lookup, words, word) {
                None => *shown = Shown::quiet(deed, None),
                Some(code) => *shown = Shown::last(deed, Outcome::Pf(code)),
            }
        }
        Err(outcome) => {
            let deed = Deed::Table {
                gpn,
                index,
                frame,
                value: None,
            };
            *shown = Shown::last(deed, outcome);
        }
    }
}

// Where a word of a guest table stands.
fn table_place(
    guests: &[GuestSpec],
    cpu: Processor,
    gpn: u64,
    index: u16,
    frame: u32,
    size: PageSize,
) -> Place
    requires guest { 0 < cpu.guest }
    requires vmpl { cpu.vmpl < 4 }
    requires gpn { gpn < 2 ^ 36 }
    requires index { index < 512 }
    ensures place { result ≡ table_place (asid_of guests.now cpu.guest) cpu.vmpl gpn index frame size }
    ensures inside { IsPlace result }
{
    Place {
        asid: asid_of(guests, cpu.guest),
        gpn,
        slot: frame as usize % 512,
        index: index as usize,
        leaf: size,
        vmpl: cpu.vmpl,
        private: true,
        table: true,
    }
}

// Where an access goes that has come to a page.
fn data_place(guests: &[GuestSpec], walker: &Walker, at: &Arrived) -> Place
    requires guest { 0 < walker.now.cpu.guest }
    requires vmpl { walker.now.cpu.vmpl < 4 }
    requires gpn { at.now.gpn < 2 ^ 36 }
    ensures place { result ≡ data_place (asid_of guests.now walker.now.cpu.guest) walker.now.cpu.vmpl walker.now.lookup.address at.now.gpn at.now.private at.now.frame at.now.size }
    ensures inside { IsPlace result }
{
    Place {
        asid: asid_of(guests, walker.cpu.guest),
        gpn: at.gpn,
        slot: at.frame as usize % 512,
        index: index_of(walker.lookup.address) as usize,
        leaf: at.size,
        vmpl: walker.cpu.vmpl,
        private: at.private,
        table: false,
    }
}

// The event of the access itself, at the frame that its walks have come to.
#[inline(always)]
fn reach<P: Parts>(parts: &mut P, place: &Place, frame: u32, op: &Op, shown: &mut Shown)
    requires has { HasFrame (P.stock parts.old) frame }
    requires place { IsPlace place.now }
    requires slot { place.now.slot ≡ frame % 512 }
    ensures moves { (guests : List GuestSpec) (part : ActorPart) → let before = view_on (P.stock parts.old) guests in
        access_move before.contents part (Access place.now.gpn place.now.index frame place.now.private) (guest_verdict (before.contents.pages frame).facts place.now op.now) op.now frame place.now.index
        ≡ move_by shown.new (view_on (P.stock parts.new) guests) part.standing }
    ensures unlocked { shown.new.lock ≡ None }
    ensures locks { locks_of (P.stock parts.new) ≡ locks_of (P.stock parts.old) }
    ensures contexts { (P.stock parts.new).contexts ≡ (P.stock parts.old).contexts }
    ensures kept { P.kept parts.old parts.new }
{
    let outcome = guest_access(parts, frame, place, op);
    let deed = Deed::Access {
        gpn: place.gpn,
        index: place.index as u16,
        frame,
        private: place.private,
    };
    *shown = Shown::last(deed, outcome);
}

/// The next event of the walks of an item of a guest's processor, in memory of so many frames. Where they have come to a
/// page, there is none, and the page is what is answered. An item may be refused as it begins.
#[inline(always)]
#[tactic(auto, using(crate::proofs::CpuLaws::table_moves), unfolding(snp_model::specs::Moves::walked_move, snp_model::specs::Moves::need_move))]
pub fn walk<P: Parts>(
    parts: &P,
    frames: u32,
    guests: &[GuestSpec],
    actor: &ActorState,
    walker: &Walker,
    refusal: Option<Outcome>,
    stands: GuestEnd,
    shown: &mut Shown,
) -> Option<Arrived>
    requires cpu { IsCpu frames (length guests.now) walker.now.cpu.guest walker.now.cpu.vmpl walker.now.cpu.npt walker.now.cpu.paging }
    requires stands { IsBegun actor.now.deeds → stands ≡ guest_stands walker.now.cpu.paging walker.now.lookup (guest_words actor.now.deeds) }
    requires inside { IsGuestInside stands }
    requires has { HasTouched (walk_touches frames (processor_of walker.now.cpu) walker.now.lookup actor.now.deeds) (P.stock parts.now) }
    ensures moves { (arrives : Arrival) → let view = view_on (P.stock parts.now) guests.now in
        walked_move frames guests.now view.contents actor.now (processor_of walker.now.cpu) walker.now.lookup refusal arrives actor.now.deeds
        ≡ walk_shows result arrives shown.new view actor.now.standing }
    ensures arrived { result ≡ arrived_at (need_after frames (processor_of walker.now.cpu) walker.now.lookup actor.now.deeds) }
    ensures page { IfSome result (λ at. (at.gpn < 2 ^ 36) × HasFrame (P.stock parts.now) at.frame) }
    ensures begun { IsSome result → IsBegun actor.now.deeds }
    ensures unlocked { result ≡ None → shown.new.lock ≡ None }
{
    let cpu = walker.cpu;
    if actor.deeds().is_empty() {
        begin(parts, walker, refusal, shown);
        return None;
    }
    match walk_need(
        frames,
        cpu.npt,
        &walker.lookup,
        stands,
        actor.nested_words(),
    ) {
        Need::Nested { frame, index } => {
            read_nested(parts, frames, actor, walker, stands, frame, index, shown);
            None
        }
        Need::Table {
            gpn,
            index,
            frame,
            size,
        } => {
            let place = table_place(guests, cpu, gpn, index, frame, size);
            read_table(parts, actor, walker, &place, frame, shown);
            None
        }
        Need::Data {
            gpn,
            private,
            frame,
            size,
        } => Some(Arrived {
            gpn,
            private,
            frame,
            size,
        }),
        Need::Fault(_) => {
            *shown = Shown::faulted();
            None
        }
    }
}

/// The next event of an access of a guest's processor, in memory of so many frames.
#[inline(always)]
pub fn cpu_access<P: Parts>(
    parts: &mut P,
    frames: u32,
    guests: &[GuestSpec],
    actor: &ActorState,
    walker: &Walker,
    op: &Op,
    stands: GuestEnd,
    shown: &mut Shown,
)
    requires cpu { IsCpu frames (length guests.now) walker.now.cpu.guest walker.now.cpu.vmpl walker.now.cpu.npt walker.now.cpu.paging }
    requires stands { IsBegun actor.now.deeds → stands ≡ guest_stands walker.now.cpu.paging walker.now.lookup (guest_words actor.now.deeds) }
    requires inside { IsGuestInside stands }
    requires has { HasTouched (walk_touches frames (processor_of walker.now.cpu) walker.now.lookup actor.now.deeds) (P.stock parts.old) }
    ensures moves { let before = view_on (P.stock parts.old) guests.now in
        let cpu = processor_of walker.now.cpu in
        walked_move frames guests.now before.contents actor.now cpu walker.now.lookup None (data_move guests.now before.contents actor.now cpu walker.now.lookup.address op.now) actor.now.deeds
        ≡ move_by shown.new (view_on (P.stock parts.new) guests.now) actor.now.standing }
    ensures unlocked { shown.new.lock ≡ None }
    ensures locks { locks_of (P.stock parts.new) ≡ locks_of (P.stock parts.old) }
    ensures contexts { (P.stock parts.new).contexts ≡ (P.stock parts.old).contexts }
    ensures kept { P.kept parts.old parts.new }
{
    match walk(parts, frames, guests, actor, walker, None, stands, shown) {
        None => {}
        Some(at) => {
            let place = data_place(guests, walker, &at);
            reach(parts, &place, at.frame, op, shown)
        }
    }
}
