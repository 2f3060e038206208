ghost use Rattle.std.specs.Prelude.{◌≡◌, ℕ, ◌<◌, ◌≤◌, ◌^◌, Bool, [], ◌∷◌, ◌++◌};
ghost use Rattle.std.specs.Option.{option_map};
ghost use Rattle.snp_model.specs.declared.event.Outcome.TheVariants.{Npf, Pf};
ghost use Rattle.snp_model.specs.declared.walk.Lookup.{Lookup};
ghost use Rattle.snp_model.specs.Bounds.{IsPaging, IsGuestInside, IsNestedInside, IsNeedInside};
ghost use Rattle.snp_model.specs.GuestWalk.{guest_end, levels_of};
ghost use Rattle.snp_model.specs.InstructionStep.{page_lookup};
ghost use Rattle.snp_model.specs.Walking.{lookup_of, flat_gpn, guest_path, counting, guest_stands, table_path, data_path, table_need, data_need, walk_need, fault_of};
ghost use Rattle.machine_core.specs.Walks.{IsPagingRole, IsReading, no_walk, stands_of};

use guest_walk::{guest_end, guest_end_with};
use nested_walk::{nested_end, nested_end_after};
use snp_model::{
    GuestEnd, GuestPath, Item, Lookup, Need, NestedEnd, NestedPath, Op, Outcome, PageSize, Paging,
    Role,
};

/// The end that stands for a guest walk where there is none.
pub fn no_walk() -> GuestEnd
    ensures { result ≡ no_walk }
{
    GuestEnd::Fault(0)
}

/// What the walks of an access look up.
pub fn lookup_of(address: u64, op: &Op) -> Lookup
    ensures { result ≡ lookup_of address op.now }
{
    Lookup {
        address,
        write: op.writes(),
        c_bit: true,
    }
}

/// What the walks of PVALIDATE and RMPADJUST look up: a read, whose leaf's C bit is passed over.
pub fn page_lookup(address: u64) -> Lookup
    ensures { result ≡ page_lookup address }
{
    Lookup {
        address,
        write: false,
        c_bit: false,
    }
}

/// How many levels of guest tables there are. An address without guest tables is held to the rule of four.
pub fn levels_of(paging: Paging) -> u8
    ensures levels { result ≡ levels_of paging }
    ensures low { 4 ≤ result }
    ensures high { result ≤ 5 }
{
    match paging {
        Paging::Flat => 4,
        Paging::Four(_) => 4,
        Paging::Five(_) => 5,
    }
}

/// Where the guest walk of an actor's item stands that has read these words of guest tables.
pub fn item_stands(role: &Role, item: &Item, words: &[u64]) -> GuestEnd
    requires { IsPagingRole role.now }
    ensures stands { result ≡ stands_of role.now item.now words.now }
    ensures inside { IsGuestInside result }
{
    match role {
        Role::Cpu { paging, .. } => match item {
            Item::Access { address, op } => guest_stands(*paging, &lookup_of(*address, op), words),
            Item::Pvalidate { address, .. } => guest_stands(*paging, &page_lookup(*address), words),
            Item::Rmpadjust { address, .. } => guest_stands(*paging, &page_lookup(*address), words),
            Item::Rmpupdate(_) => no_walk(),
            Item::Psmash { .. } => no_walk(),
            Item::Firmware(_) => no_walk(),
            Item::Skip { .. } => no_walk(),
        },
        Role::Host => no_walk(),
        Role::Firmware => no_walk(),
    }
}

// Where an item stands in its guest walk, by the words of guest tables that it has read.
#[tactic(auto, unfolding(snp_model::specs::Walking::guest_stands))]
fn guest_stands(paging: Paging, lookup: &Lookup, words: &[u64]) -> GuestEnd
    requires { IsPaging paging }
    ensures stands { result ≡ guest_stands paging lookup.now words.now }
    ensures inside { IsGuestInside result }
{
    match paging {
        Paging::Flat => GuestEnd::Leaf {
            gpn: flat_gpn(lookup.address),
            private: true,
            size: PageSize::Small,
        },
        Paging::Four(root) => tables_stand(&guest_path(paging, root, lookup), lookup, words),
        Paging::Five(root) => tables_stand(&guest_path(paging, root, lookup), lookup, words),
    }
}

// Where it stands in the walk of a path.
fn tables_stand(path: &GuestPath, lookup: &Lookup, words: &[u64]) -> GuestEnd
    requires low { 0 < path.now.levels }
    requires high { path.now.levels ≤ 5 }
    requires root { path.now.root < 2 ^ 36 }
    ensures stands { result ≡ counting lookup.now.c_bit (guest_end path.now words.now) }
    ensures inside { IsGuestInside result }
{
    counting(lookup.c_bit, guest_end(path, words))
}

/// The code of the #PF that the guest walk of an item comes to by one word more, if it does. A nested walk that has read
/// no word yet has come to no fault.
#[inline(always)]
#[tactic(auto, using(crate::proofs::WalkingLaws::no_fault_yet), unfolding(snp_model::specs::Walking::guest_stands))]
pub fn fault_by_table(paging: Paging, lookup: &Lookup, words: &[u64], word: u64) -> Option<u64>
    requires { IsPaging paging }
    ensures { (frames npt : ℕ) → option_map Pf result ≡ fault_of (walk_need frames npt lookup.now (guest_stands paging lookup.now (words.now ++ word ∷ [])) []) }
{
    match paging {
        Paging::Flat => None,
        Paging::Four(root) => {
            tables_fault(&guest_path(paging, root, lookup), lookup, words, word)
        }
        Paging::Five(root) => {
            tables_fault(&guest_path(paging, root, lookup), lookup, words, word)
        }
    }
}

// So in the walk of a path.
fn tables_fault(path: &GuestPath, lookup: &Lookup, words: &[u64], word: u64) -> Option<u64>
    requires low { 0 < path.now.levels }
    requires high { path.now.levels ≤ 5 }
    requires root { path.now.root < 2 ^ 36 }
    ensures { (frames npt : ℕ) → option_map Pf result ≡ fault_of (walk_need frames npt lookup.now (counting lookup.now.c_bit (guest_end path.now (words.now ++ word ∷ []))) []) }
{
    guest_fault(counting(lookup.c_bit, guest_end_with(path, words, word)))
}

/// What an item needs next, where its guest walk stands here: by the words of nested tables that the nested walk under
/// way has read.
#[inline(always)]
#[tactic(auto, unfolding(snp_model::specs::Walking::walk_need))]
pub fn walk_need(frames: u32, npt: u32, lookup: &Lookup, stands: GuestEnd, words: &[u64]) -> Need
    requires npt { npt < frames }
    requires inside { IsGuestInside stands }
    ensures need { result ≡ walk_need frames npt lookup.now stands words.now }
    ensures inside { IsNeedInside frames result }
{
    match stands {
        GuestEnd::Read { gpn, index } => {
            table_need(gpn, index, nested_end(&table_path(frames, npt, gpn), words))
        }
        GuestEnd::Leaf { gpn, private, .. } => {
            let path = data_path(frames, npt, gpn, private, lookup);
            data_need(gpn, private, nested_end(&path, words))
        }
        GuestEnd::Fault(code) => Need::Fault(Outcome::Pf(code)),
    }
}

/// The code of the nested page fault that the nested walk under way comes to by the word that it reads, if it does.
#[inline(always)]
#[tactic(auto, using(crate::proofs::WalkingLaws::reads_table, crate::proofs::WalkingLaws::reads_data), unfolding(snp_model::specs::Walking::walk_need))]
pub fn fault_by_nested(
    frames: u32,
    npt: u32,
    lookup: &Lookup,
    stands: GuestEnd,
    words: &[u64],
    word: u64,
) -> Option<u64>
    requires npt { npt < frames }
    requires inside { IsGuestInside stands }
    requires reads { IsReading (walk_need frames npt lookup.now stands words.now) }
    ensures { option_map Npf result ≡ fault_of (walk_need frames npt lookup.now stands (words.now ++ word ∷ [])) }
{
    match stands {
        GuestEnd::Read { gpn, .. } => {
            let path = table_path(frames, npt, gpn);
            nested_fault(nested_end_after(&path, words, word))
        }
        GuestEnd::Leaf { gpn, private, .. } => {
            let path = data_path(frames, npt, gpn, private, lookup);
            nested_fault(nested_end_after(&path, words, word))
        }
        // A walk that has faulted reads nothing.
        GuestEnd::Fault(_) => None,
    }
}

// What a guest walk begins from.
fn guest_path(paging: Paging, root: u64, lookup: &Lookup) -> GuestPath
    ensures path { result ≡ guest_path paging root lookup.now }
    ensures low { 0 < result.levels }
    ensures high { result.levels ≤ 5 }
    ensures root { result.root ≡ root }
{
    GuestPath {
        levels: levels_of(paging),
        root,
        address: lookup.address,
        write: lookup.write,
    }
}

// Where a guest walk stands that counts the leaf's C bit or not.
fn counting(c_bit: bool, stands: GuestEnd) -> GuestEnd
    ensures stands { result ≡ counting c_bit stands }
    ensures inside { IsGuestInside stands → IsGuestInside result }
{
    match stands {
        GuestEnd::Read { gpn, index } => GuestEnd::Read { gpn, index },
        GuestEnd::Leaf { gpn, private, size } => GuestEnd::Leaf {
            gpn,
            private: private || !c_bit,
            size,
        },
        GuestEnd::Fault(code) => GuestEnd::Fault(code),
    }
}

// What the nested walk of a guest table begins from.
fn table_path(frames: u32, npt: u32, gpn: u64) -> NestedPath
    ensures { result ≡ table_path frames npt gpn }
{
    NestedPath {
        root: npt,
        frames,
        gpn,
        write: true,
        private: true,
        table: true,
    }
}

// What the final nested walk begins from.
fn data_path(frames: u32, npt: u32, gpn: u64, private: bool, lookup: &Lookup) -> NestedPath
    ensures { result ≡ data_path frames npt gpn private lookup.now }
{
    NestedPath {
        root: npt,
        frames,
        gpn,
        write: lookup.write,
        private,
        table: false,
    }
}

// The guest page number of an address without guest tables.
fn flat_gpn(address: u64) -> u64
    ensures gpn { result ≡ flat_gpn address }
    ensures below { result < 2 ^ 36 }
{
    address / 4096 % 0x10_0000_0000
}

// What is needed where the nested walk of a guest table stands here.
fn table_need(gpn: u64, index: u16, stands: NestedEnd) -> Need
    ensures need { result ≡ table_need gpn index stands }
    ensures inside { (frames : ℕ) → gpn < 2 ^ 36 → index < 512 → IsNestedInside frames stands → IsNeedInside frames result }
{
    match stands {
        NestedEnd::Read {
            frame,
            index: place,
        } => Need::Nested {
            frame,
            index: place,
        },
        NestedEnd::Leaf { frame, size } => Need::Table {
            gpn,
            index,
            frame,
            size,
        },
        NestedEnd::Fault(code) => Need::Fault(Outcome::Npf(code)),
    }
}

// What is needed where the final nested walk stands here.
fn data_need(gpn: u64, private: bool, stands: NestedEnd) -> Need
    ensures need { result ≡ data_need gpn private stands }
    ensures inside { (frames : ℕ) → gpn < 2 ^ 36 → IsNestedInside frames stands → IsNeedInside frames result }
{
    match stands {
        NestedEnd::Read { frame, index } => Need::Nested { frame, index },
        NestedEnd::Leaf { frame, size } => Need::Data {
            gpn,
            private,
            frame,
            size,
        },
        NestedEnd::Fault(code) => Need::Fault(Outcome::Npf(code)),
    }
}

// The code of the fault that a nested walk has come to, if it has.
fn nested_fault(stands: NestedEnd) -> Option<u64>
    ensures table { (gpn index : ℕ) → option_map Npf result ≡ fault_of (table_need gpn index stands) }
    ensures data { (gpn : ℕ) (private : Bool) → option_map Npf result ≡ fault_of (data_need gpn private stands) }
{
    match stands {
        NestedEnd::Read { .. } => None,
        NestedEnd::Leaf { .. } => None,
        NestedEnd::Fault(code) => Some(code),
    }
}

// The code of the fault that a guest walk has come to, if it has.
#[tactic(auto, using(crate::proofs::WalkingLaws::no_fault_read, crate::proofs::WalkingLaws::no_fault_yet, crate::proofs::WalkingLaws::fault_walked))]
fn guest_fault(stands: GuestEnd) -> Option<u64>
    ensures { (frames npt : ℕ) (lookup : Lookup) → option_map Pf result ≡ fault_of (walk_need frames npt lookup stands []) }
{
    match stands {
        GuestEnd::Read { .. } => None,
        GuestEnd::Leaf { .. } => None,
        GuestEnd::Fault(code) => Some(code),
    }
}
