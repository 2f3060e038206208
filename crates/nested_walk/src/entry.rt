ghost use Rattle.std.specs.Prelude.{◌≡◌, ◌≤◌, ◌<◌, not, ◌||◌, nat_lt};
ghost use Rattle.snp_model.specs.NestedWalk as model;
ghost use Rattle.snp_model.specs.Bounds.{IsNestedInside};

use snp_model::{NestedEnd, NestedFault, NestedPath, PageSize};

// Where a walk stands once it has read a word at a level.
#[tactic(auto, unfolding(snp_model::specs::NestedWalk::after_word))]
pub(crate) fn after_word(path: &NestedPath, level: usize, word: u64) -> NestedEnd
    requires low { 0 < level }
    requires high { level ≤ 4 }
    ensures value { result ≡ model.after_word path.now level word }
    ensures inside { IsNestedInside path.now.frames result }
{
    let frame = frame_below(path, level, word);
    if is_absent(word, frame, path.frames) {
        walk_fault(path, false)
    } else if !has_bit(word, 0x4) {
        walk_fault(path, true)
    } else if (path.write || path.table) && !has_bit(word, 0x2) {
        walk_fault(path, true)
    } else if is_large_leaf(level, word) {
        NestedEnd::Leaf {
            frame: frame as u32,
            size: PageSize::Large,
        }
    } else if level == 1 {
        NestedEnd::Leaf {
            frame: frame as u32,
            size: PageSize::Small,
        }
    } else {
        NestedEnd::Read {
            frame: frame as u32,
            index: nested_index(path.gpn, level - 1),
        }
    }
}

// The index of a guest page number into the table of a level.
pub(crate) fn nested_index(gpn: u64, level: usize) -> u16
    requires low { 0 < level }
    requires high { level ≤ 4 }
    ensures value { result ≡ model.nested_index gpn level }
    ensures small { result < 512 }
{
    let pages = match level {
        1 => 1,
        2 => 512,
        3 => 512 * 512,
        _ => 512 * 512 * 512,
    };
    (gpn / pages % 512) as u16
}

// The frame that an entry leads to, which may be outside memory.
fn frame_below(path: &NestedPath, level: usize, word: u64) -> u64
    ensures { result ≡ model.frame_below path.now level word }
{
    let address = word / 4096 % 0x10_0000_0000;
    if is_large_leaf(level, word) {
        address / 512 * 512 + path.gpn % 512
    } else {
        address
    }
}

// Whether an entry isn't present: its bit says so, or what it leads to is outside memory.
fn is_absent(word: u64, frame: u64, frames: u32) -> bool
    ensures { result ≡ (not (model.has_bit word 0x1) || not (nat_lt frame frames)) }
{
    !has_bit(word, 0x1) || !(frame < u64::from(frames))
}

fn is_large_leaf(level: usize, word: u64) -> bool
    ensures { result ≡ model.is_large_leaf level word }
{
    level == 2 && has_bit(word, 0x80)
}

fn has_bit(word: u64, value: u64) -> bool
    requires { 0 < value }
    ensures { result ≡ model.has_bit word value }
{
    word / value % 2 == 1
}

fn walk_fault(path: &NestedPath, present: bool) -> NestedEnd
    ensures { result ≡ model.walk_fault path.now present }
{
    let fault = NestedFault {
        present,
        write: path.write,
        rmp: false,
        table: path.table,
        private: path.private,
        size: false,
        vmpl: false,
    };
    NestedEnd::Fault(fault.code())
}
