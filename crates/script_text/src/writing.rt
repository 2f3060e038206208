ghost use Rattle.std.specs.Prelude.{◌≡◌, ℕ, ◌+◌, ◌^◌, ◌<◌, ◌≤◌, [], ◌∷◌, ◌++◌, length, take, decimal, Ok};
ghost use Rattle.snp_model.specs.Bounds.{IsLineOf};
ghost use Rattle.snp_model.specs.EventText.{size_text};
ghost use Rattle.snp_model.specs.ItemLines.{item_line};
ghost use Rattle.snp_model.specs.Spelling.{
  behind,
  joined,
  numbers,
  flag_text,
  access_words,
  update_words,
  command_words,
  skip_words,
  item_said,
  retry_words,
  item_text,
};
ghost use Rattle.snp_model.specs.Spelled.{IsTriedBy, IsWide, IsWideCommand, IsWideTest};

use crate::pen::{put, put_named};
use snp_model::{Command, Item, Line, Op, PageSize, Role, SkipTest, Update};

// Writes a space and a number.
fn put_argument(out: &mut [u8], at: usize, number: u64) -> usize
    requires { at + 21 ≤ length out.old }
    ensures end { result ≤ at + 21 }
    ensures text { take result out.new ≡ take at out.old ++ (32 ∷ decimal number) }
{
    put_named(out, at, b" ", number)
}

/// Writes a space and the size of a page, and gives the place after them.
#[tactic(auto, unfolding(snp_model::specs::EventText::size_text))]
pub fn put_size(out: &mut [u8], at: usize, size: PageSize) -> usize
    requires { at + 3 ≤ length out.old }
    ensures end { result ≤ at + 3 }
    ensures text { take result out.new ≡ take at out.old ++ (32 ∷ size_text size) }
{
    match size {
        PageSize::Small => put(out, at, b" 4k"),
        PageSize::Large => put(out, at, b" 2m"),
    }
}

// Writes a space, and 0 or 1.
#[tactic(auto, unfolding(snp_model::specs::Spelling::flag_text))]
fn put_flag(out: &mut [u8], at: usize, flag: bool) -> usize
    requires { at + 2 ≤ length out.old }
    ensures end { result ≤ at + 2 }
    ensures text { take result out.new ≡ take at out.old ++ (32 ∷ flag_text flag) }
{
    if flag {
        put(out, at, b" 1")
    } else {
        put(out, at, b" 0")
    }
}

// Writes an access.
#[tactic(auto, unfolding(snp_model::specs::Spelling::access_words))]
fn put_access(out: &mut [u8], at: usize, address: u64, op: Op) -> usize
    requires { at + 141 ≤ length out.old }
    ensures end { result ≤ at + 141 }
    ensures text { take result out.new ≡ take at out.old ++ joined (access_words address op) }
{
    match op {
        Op::Load => put_named(out, at, b"load ", address),
        Op::Store(value) => {
            let end = put_named(out, at, b"store ", address);
            put_argument(out, end, value)
        }
        Op::Swap(value) => {
            let end = put_named(out, at, b"swap ", address);
            put_argument(out, end, value)
        }
        Op::Compare { expected, next } => {
            let end = put_named(out, at, b"cas ", address);
            let end = put_argument(out, end, expected);
            put_argument(out, end, next)
        }
        Op::Xor(value) => {
            let end = put_named(out, at, b"xor ", address);
            put_argument(out, end, value)
        }
    }
}

// Writes an RMPUPDATE.
#[tactic(auto, unfolding(snp_model::specs::Spelling::update_words))]
fn put_update(out: &mut [u8], at: usize, update: Update) -> usize
    requires { at + 141 ≤ length out.old }
    ensures end { result ≤ at + 141 }
    ensures wide { update.frame < 2 ^ 64 }
    ensures text { take result out.new ≡ take at out.old ++ joined (update_words update) }
{
    let end = put_named(out, at, b"rmpupdate ", update.frame);
    let end = put_size(out, end, update.size);
    let end = put_flag(out, end, update.assigned);
    let end = put_argument(out, end, u64::from(update.asid));
    let end = put_argument(out, end, update.gpn);
    put_flag(out, end, update.immutable)
}

// Writes a PVALIDATE.
#[tactic(auto, unfolding(snp_model::specs::Spelling::item_said))]
fn put_validate(out: &mut [u8], at: usize, address: u64, size: PageSize, validate: bool) -> usize
    requires { at + 141 ≤ length out.old }
    ensures end { result ≤ at + 141 }
    ensures text { take result out.new ≡ take at out.old ++ joined (item_said (Item.Pvalidate address size validate)) }
{
    let end = put_named(out, at, b"pvalidate ", address);
    let end = put_size(out, end, size);
    put_flag(out, end, validate)
}

/// Writes the permissions of three levels, each after a space, and gives the place after them.
#[tactic(auto, using(crate::proofs::SpellingLaws::behind_three))]
pub fn put_perms(out: &mut [u8], at: usize, perms: &[u8; 3]) -> usize
    requires { at + 63 ≤ length out.old }
    ensures end { result ≤ at + 63 }
    ensures text { take result out.new ≡ take at out.old ++ behind (numbers perms.now) }
{
    let end = put_argument(out, at, u64::from(perms[0]));
    let end = put_argument(out, end, u64::from(perms[1]));
    put_argument(out, end, u64::from(perms[2]))
}

// Writes a command of two frames of a guest.
fn put_move(out: &mut [u8], at: usize, name: &[u8], guest: u8, source: u64, target: u64) -> usize
    requires name { length name.now ≤ 13 }
    requires room { at + 141 ≤ length out.old }
    ensures end { result ≤ at + 76 }
    ensures text { take result out.new ≡ take at out.old ++ joined (name.now ∷ decimal guest ∷ decimal source ∷ decimal target ∷ []) }
{
    let end = put(out, at, name);
    let end = put_argument(out, end, u64::from(guest));
    let end = put_argument(out, end, source);
    put_argument(out, end, target)
}

// Writes the metadata page of a command and its entry.
fn put_entry(out: &mut [u8], at: usize, metadata: u64, entry: u8) -> usize
    requires { at + 42 ≤ length out.old }
    ensures end { result ≤ at + 42 }
    ensures text { take result out.new ≡ take at out.old ++ behind (decimal metadata ∷ decimal entry ∷ []) }
{
    let end = put_argument(out, at, metadata);
    put_argument(out, end, u64::from(entry))
}

// Writes a command of two frames of a guest, and of an entry of a metadata page.
#[tactic(auto, using(crate::proofs::SpellingLaws::joined_more))]
fn put_sealing(
    out: &mut [u8],
    at: usize,
    name: &[u8],
    guest: u8,
    source: u64,
    target: u64,
    metadata: u64,
    entry: u8,
) -> usize
    requires name { length name.now ≤ 8 }
    requires room { at + 141 ≤ length out.old }
    ensures end { result ≤ at + 141 }
    ensures text { take result out.new ≡ take at out.old
        ++ joined (name.now ∷ decimal guest ∷ decimal source ∷ decimal target ∷ decimal metadata ∷ decimal entry ∷ []) }
{
    let end = put_move(out, at, name, guest, source, target);
    put_entry(out, end, metadata, entry)
}

// Writes a launch of a page.
#[tactic(auto, unfolding(snp_model::specs::Spelling::command_words))]
fn put_launch(
    out: &mut [u8],
    at: usize,
    guest: u8,
    frame: u64,
    page_type: u8,
    imi: bool,
    perms: &[u8; 3],
) -> usize
    requires { at + 141 ≤ length out.old }
    ensures end { result ≤ at + 141 }
    ensures text { take result out.new ≡ take at out.old ++ joined (command_words (Command.LaunchUpdate guest frame page_type imi perms.now)) }
{
    let end = put_named(out, at, b"launch_update ", u64::from(guest));
    let end = put_argument(out, end, frame);
    let end = put_argument(out, end, u64::from(page_type));
    let end = put_flag(out, end, imi);
    put_perms(out, end, perms)
}

// Writes a gctx_create.
#[tactic(auto, unfolding(snp_model::specs::Spelling::command_words))]
fn put_create(out: &mut [u8], at: usize, guest: u8, frame: u64) -> usize
    requires { at + 141 ≤ length out.old }
    ensures end { result ≤ at + 141 }
    ensures text { take result out.new ≡ take at out.old ++ joined (command_words (Command.GctxCreate guest frame)) }
{
    let end = put_named(out, at, b"gctx_create ", u64::from(guest));
    put_argument(out, end, frame)
}

// Writes an activate.
#[tactic(auto, unfolding(snp_model::specs::Spelling::command_words))]
fn put_activate(out: &mut [u8], at: usize, guest: u8, asid: u16) -> usize
    requires { at + 141 ≤ length out.old }
    ensures end { result ≤ at + 141 }
    ensures text { take result out.new ≡ take at out.old ++ joined (command_words (Command.Activate guest asid)) }
{
    let end = put_named(out, at, b"activate ", u64::from(guest));
    put_argument(out, end, u64::from(asid))
}

// Writes a launch_start.
#[tactic(auto, unfolding(snp_model::specs::Spelling::command_words))]
fn put_start(out: &mut [u8], at: usize, guest: u8) -> usize
    requires { at + 141 ≤ length out.old }
    ensures end { result ≤ at + 141 }
    ensures text { take result out.new ≡ take at out.old ++ joined (command_words (Command.LaunchStart guest)) }
{
    put_named(out, at, b"launch_start ", u64::from(guest))
}

// Writes a launch_finish.
#[tactic(auto, unfolding(snp_model::specs::Spelling::command_words))]
fn put_finish(out: &mut [u8], at: usize, guest: u8) -> usize
    requires { at + 141 ≤ length out.old }
    ensures end { result ≤ at + 141 }
    ensures text { take result out.new ≡ take at out.old ++ joined (command_words (Command.LaunchFinish guest)) }
{
    put_named(out, at, b"launch_finish ", u64::from(guest))
}

// Writes an md_init.
#[tactic(auto, unfolding(snp_model::specs::Spelling::command_words))]
fn put_init(out: &mut [u8], at: usize, frame: u64) -> usize
    requires { at + 141 ≤ length out.old }
    ensures end { result ≤ at + 141 }
    ensures text { take result out.new ≡ take at out.old ++ joined (command_words (Command.MdInit frame)) }
{
    put_named(out, at, b"md_init ", frame)
}

// Writes a page_reclaim.
#[tactic(auto, unfolding(snp_model::specs::Spelling::command_words))]
fn put_reclaim(out: &mut [u8], at: usize, frame: u64) -> usize
    requires { at + 141 ≤ length out.old }
    ensures end { result ≤ at + 141 }
    ensures text { take result out.new ≡ take at out.old ++ joined (command_words (Command.Reclaim frame)) }
{
    put_named(out, at, b"page_reclaim ", frame)
}

// Writes a command.
#[tactic(auto, unfolding(snp_model::specs::Spelling::command_words))]
fn put_command(out: &mut [u8], at: usize, command: &Command) -> usize
    requires { at + 141 ≤ length out.old }
    ensures end { result ≤ at + 141 }
    ensures wide { IsWideCommand command.now }
    ensures text { take result out.new ≡ take at out.old ++ joined (command_words command.now) }
{
    match *command {
        Command::GctxCreate { guest, frame } => put_create(out, at, guest, frame),
        Command::Activate { guest, asid } => put_activate(out, at, guest, asid),
        Command::LaunchStart { guest } => put_start(out, at, guest),
        Command::LaunchUpdate {
            guest,
            frame,
            page_type,
            imi,
            perms,
        } => put_launch(out, at, guest, frame, page_type, imi, &perms),
        Command::LaunchFinish { guest } => put_finish(out, at, guest),
        Command::MdInit { frame } => put_init(out, at, frame),
        Command::PageMove {
            guest,
            source,
            target,
        } => put_move(out, at, b"page_move", guest, source, target),
        Command::SwapOut {
            guest,
            source,
            target,
            metadata,
            entry,
        } => put_sealing(out, at, b"swap_out", guest, source, target, metadata, entry),
        Command::SwapIn {
            guest,
            source,
            target,
            metadata,
            entry,
        } => put_sealing(out, at, b"swap_in", guest, source, target, metadata, entry),
        Command::Reclaim { frame } => put_reclaim(out, at, frame),
        Command::MdOut {
            guest,
            source,
            target,
            metadata,
            entry,
        } => put_sealing(out, at, b"md_out", guest, source, target, metadata, entry),
        Command::MdIn {
            guest,
            source,
            target,
            metadata,
            entry,
        } => put_sealing(out, at, b"md_in", guest, source, target, metadata, entry),
        Command::MdRootOut {
            guest,
            source,
            target,
        } => put_move(out, at, b"md_root_out", guest, source, target),
        Command::MdRootIn {
            guest,
            source,
            target,
        } => put_move(out, at, b"md_root_in", guest, source, target),
    }
}

// Writes an RMPADJUST.
#[tactic(auto, unfolding(snp_model::specs::Spelling::item_said))]
fn put_adjust(
    out: &mut [u8],
    at: usize,
    address: u64,
    size: PageSize,
    target: u8,
    mask: u8,
    vmsa: bool,
) -> usize
    requires { at + 141 ≤ length out.old }
    ensures end { result ≤ at + 141 }
    ensures text { take result out.new ≡ take at out.old ++ joined (item_said (Item.Rmpadjust address size target mask vmsa)) }
{
    let end = put_named(out, at, b"rmpadjust ", address);
    let end = put_size(out, end, size);
    let end = put_argument(out, end, u64::from(target));
    let end = put_argument(out, end, u64::from(mask));
    put_flag(out, end, vmsa)
}

// Writes a skip.
#[tactic(auto, unfolding(snp_model::specs::Spelling::skip_words))]
fn put_skip(out: &mut [u8], at: usize, count: u32, test: &SkipTest) -> usize
    requires { at + 141 ≤ length out.old }
    ensures end { result ≤ at + 141 }
    ensures wide { IsWideTest test.now }
    ensures text { take result out.new ≡ take at out.old ++ joined (skip_words count test.now) }
{
    let end = put_named(out, at, b"skip ", u64::from(count));
    match test {
        SkipTest::Good => put(out, end, b" if ok"),
        SkipTest::Bad => put(out, end, b" if bad"),
        SkipTest::Value(value) => put_named(out, end, b" if value ", *value),
    }
}

// Writes an item without its retries.
#[tactic(auto, unfolding(snp_model::specs::Spelling::item_said))]
fn put_item(out: &mut [u8], at: usize, item: &Item) -> usize
    requires { at + 141 ≤ length out.old }
    ensures end { result ≤ at + 141 }
    ensures wide { IsWide item.now }
    ensures text { take result out.new ≡ take at out.old ++ joined (item_said item.now) }
{
    match item {
        Item::Access { address, op } => put_access(out, at, *address, *op),
        Item::Pvalidate {
            address,
            size,
            validate,
        } => put_validate(out, at, *address, *size, *validate),
        Item::Rmpadjust {
            address,
            size,
            target,
            mask,
            vmsa,
        } => put_adjust(out, at, *address, *size, *target, *mask, *vmsa),
        Item::Rmpupdate(update) => put_update(out, at, *update),
        Item::Psmash { frame } => put_named(out, at, b"psmash ", *frame),
        Item::Firmware(command) => put_command(out, at, command),
        Item::Skip { count, test } => put_skip(out, at, *count, test),
    }
}

// Writes how many times an item is tried again, where it is.
#[tactic(auto, unfolding(snp_model::specs::Spelling::retry_words))]
fn put_retries(out: &mut [u8], at: usize, retries: u8) -> usize
    requires { at + 27 ≤ length out.old }
    ensures end { result ≤ at + 27 }
    ensures text { take result out.new ≡ take at out.old ++ behind (retry_words retries) }
{
    if retries == 0 {
        at
    } else {
        put_named(out, at, b" retry ", u64::from(retries))
    }
}

// Writes the line of an item into the front of a buffer.
#[tactic(auto, unfolding(snp_model::specs::Spelling::item_text))]
fn put_line(line: &Line, out: &mut [u8; 256]) -> usize
    ensures end { result ≤ 168 }
    ensures wide { IsWide line.now.item }
    ensures text { take result out.new ≡ item_text line.now }
{
    let end = put_item(out, 0, &line.item);
    put_retries(out, end, line.retries)
}

/// Writes the line of an item, without a line feed, into the front of a buffer, and gives its length. The rest of the
/// buffer may be anything. No line depends on the role of its actor. What is written of a line that the formats allow
/// for the role, in a memory of so many frames, is read again as that line.
pub fn write_item(role: &Role, line: &Line, out: &mut [u8; 256]) -> usize
    ensures end { result ≤ 168 }
    ensures text { take result out.new ≡ item_text line.now }
    ensures again { (frames : ℕ) → IsLineOf frames role.now line.now → IsTriedBy line.now.retries line.now.item
        → item_line role.now frames (take result out.new) ≡ Ok line.now }
{
    put_line(line, out)
}
