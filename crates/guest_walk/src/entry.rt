ghost use Rattle.std.specs.Prelude.{◌≡◌, ◌≤◌, ◌<◌, ◌^◌, if◌then◌else◌};
ghost use Rattle.snp_model.specs.NestedWalk.{has_bit, is_large_leaf};
ghost use Rattle.snp_model.specs.GuestWalk as model;
ghost use Rattle.snp_model.specs.Bounds.{IsGuestInside};

use snp_model::{GuestEnd, GuestPath, PageSize};

// Where a walk stands once it has read a word at a level.
#[tactic(auto, unfolding(snp_model::specs::GuestWalk::after_guest_word))]
pub(crate) fn after_word(path: &GuestPath, level: usize, word: u64) -> GuestEnd
    requires low { 0 < level }
    requires high { level ≤ 5 }
    ensures value { result ≡ model.after_guest_word path.now level word }
    ensures inside { IsGuestInside result }
{
    let gpn = gpn_below(path, level, word);
    let private = is_private_leaf(word);
    if !has_bit(word, 0x1) {
        guest_fault(path, false)
    } else if path.write && !has_bit(word, 0x2) {
        guest_fault(path, true)
    } else if is_large_leaf(level, word) {
        GuestEnd::Leaf {
            gpn,
            private,
            size: PageSize::Large,
        }
    } else if level == 1 {
        GuestEnd::Leaf {
            gpn,
            private,
            size: PageSize::Small,
        }
    } else {
        GuestEnd::Read {
            gpn,
            index: guest_index(path.address, level - 1),
        }
    }
}

/// Whether an address is canonical for so many levels of tables: its bits 63:56 are all equal for five, and its bits 63:47
/// for four (APM volume 2, 5.3.1).
pub fn is_canonical(levels: u8, address: u64) -> bool
    ensures { result ≡ model.is_canonical levels address }
{
    if levels == 5 {
        let top = address / 0x100_0000_0000_0000;
        top == 0 || top == 0xFF
    } else {
        let top = address / 0x8000_0000_0000;
        top == 0 || top == 0x1_FFFF
    }
}

// The index of an address into the table of a level.
pub(crate) fn guest_index(address: u64, level: usize) -> u16
    requires low { 0 < level }
    requires high { level ≤ 5 }
    ensures value { result ≡ model.guest_index address level }
    ensures small { result < 512 }
{
    let pages = match level {
        1 => 1,
        2 => 512,
        3 => 512 * 512,
        4 => 512 * 512 * 512,
        _ => 512 * 512 * 512 * 512,
    };
    (address / 4096 / pages % 512) as u16
}

// The guest page number that an entry leads to.
fn gpn_below(path: &GuestPath, level: usize, word: u64) -> u64
    ensures value { result ≡ model.gpn_below path.now level word }
    ensures below { result < 2 ^ 36 }
{
    let address = word / 4096 % 0x10_0000_0000;
    if is_large_leaf(level, word) {
        address / 512 * 512 + u64::from(guest_index(path.address, 1))
    } else {
        address
    }
}

// Whether an entry's C bit is set.
fn is_private_leaf(word: u64) -> bool
    ensures { result ≡ model.is_private_leaf word }
{
    has_bit(word, 0x8_0000_0000_0000)
}

fn is_large_leaf(level: usize, word: u64) -> bool
    ensures { result ≡ is_large_leaf level word }
{
    level == 2 && has_bit(word, 0x80)
}

fn has_bit(word: u64, value: u64) -> bool
    requires { 0 < value }
    ensures { result ≡ has_bit word value }
{
    word / value % 2 == 1
}

fn guest_fault(path: &GuestPath, present: bool) -> GuestEnd
    ensures { result ≡ model.guest_fault path.now present }
{
    GuestEnd::Fault(bit_value(present, 0x1) + bit_value(path.write, 0x2))
}

// The value of a bit where it is set.
fn bit_value(set: bool, value: u64) -> u64
    ensures value { result ≡ (if set then value else 0) }
    ensures at_most { result ≤ value }
{
    if set { value } else { 0 }
}
