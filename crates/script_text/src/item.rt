ghost use Rattle.std.specs.Prelude.{◌≡◌, length};
ghost use Rattle.snp_model.specs.Lines.{ranged};
ghost use Rattle.snp_model.specs.ItemLines.{
  once,
  address_word,
  load_row,
  store_row,
  swap_row,
  cas_row,
  xor_row,
  skip_test,
  skip_row,
  skip_value_row,
  skip_item,
  access_item,
  cpu_item,
  host_item,
  sealing_item,
  firmware_item,
  item_words,
  item_line,
};

use crate::commands::{
    read_activate, read_create, read_finish, read_init, read_launch, read_move, read_reclaim,
    read_start, with_retries,
};
use crate::instructions::{read_adjust, read_smash, read_update, read_validate};
use crate::number::{is_word, multiple, read_below, read_fixed, read_number, read_ranged};
use crate::sealing::{
    read_metadata_in, read_metadata_out, read_root_in, read_root_out, read_swap_in, read_swap_out,
};
use crate::words::Words;
use snp_model::{Item, Line, Op, Reason, Role, SkipTest};

// An item without retries.
fn once(item: Item) -> Line
    ensures { result ≡ once item }
{
    Line { item, retries: 0 }
}

// The address of an access: any for a guest processor, and one in memory for a hypervisor's.
#[tactic(auto, unfolding(snp_model::specs::ItemLines::address_word))]
fn read_address(role: &Role, frames: u32, word: &[u8]) -> Result<u64, Reason>
    ensures { result ≡ address_word role.now frames word.now }
{
    match role {
        Role::Cpu { .. } => {
            let place = read_number(word)?;
            multiple(8, place)
        }
        Role::Host => {
            let place = read_below(4096 * u64::from(frames), word)?;
            multiple(8, place)
        }
        Role::Firmware => Err(Reason::Form),
    }
}

// `load A`
#[tactic(auto, unfolding(snp_model::specs::ItemLines::load_row))]
fn read_load(role: &Role, frames: u32, words: &Words<'_>) -> Result<Line, Reason>
    requires { length words.now ≡ 2 }
    ensures { result ≡ load_row role.now frames words.now }
{
    let address = read_address(role, frames, words.at(1))?;
    Ok(once(Item::Access {
        address,
        op: Op::Load,
    }))
}

// `store A V`
#[tactic(auto, unfolding(snp_model::specs::ItemLines::store_row))]
fn read_store(role: &Role, frames: u32, words: &Words<'_>) -> Result<Line, Reason>
    requires { length words.now ≡ 3 }
    ensures { result ≡ store_row role.now frames words.now }
{
    let address = read_address(role, frames, words.at(1))?;
    let value = read_number(words.at(2))?;
    Ok(once(Item::Access {
        address,
        op: Op::Store(value),
    }))
}

// `swap A V`
#[tactic(auto, unfolding(snp_model::specs::ItemLines::swap_row))]
fn read_swap(role: &Role, frames: u32, words: &Words<'_>) -> Result<Line, Reason>
    requires { length words.now ≡ 3 }
    ensures { result ≡ swap_row role.now frames words.now }
{
    let address = read_address(role, frames, words.at(1))?;
    let value = read_number(words.at(2))?;
    Ok(once(Item::Access {
        address,
        op: Op::Swap(value),
    }))
}

// `cas A OLD NEW`
#[tactic(auto, unfolding(snp_model::specs::ItemLines::cas_row))]
fn read_cas(role: &Role, frames: u32, words: &Words<'_>) -> Result<Line, Reason>
    requires { length words.now ≡ 4 }
    ensures { result ≡ cas_row role.now frames words.now }
{
    let address = read_address(role, frames, words.at(1))?;
    let expected = read_number(words.at(2))?;
    let next = read_number(words.at(3))?;
    Ok(once(Item::Access {
        address,
        op: Op::Compare { expected, next },
    }))
}

// `xor A V`
#[tactic(auto, unfolding(snp_model::specs::ItemLines::xor_row))]
fn read_xor(role: &Role, frames: u32, words: &Words<'_>) -> Result<Line, Reason>
    requires { length words.now ≡ 3 }
    ensures { result ≡ xor_row role.now frames words.now }
{
    let address = read_address(role, frames, words.at(1))?;
    let value = read_number(words.at(2))?;
    Ok(once(Item::Access {
        address,
        op: Op::Xor(value),
    }))
}

// How many items a skip passes over.
fn read_count(word: &[u8]) -> Result<u32, Reason>
    ensures { result ≡ ranged 1 8192 word.now }
{
    let count = read_ranged(1, 8192, word)?;
    Ok(count as u32)
}

// The test of a skip that names no value.
#[tactic(auto, unfolding(snp_model::specs::ItemLines::skip_test))]
fn read_skip_test(word: &[u8]) -> Result<SkipTest, Reason>
    ensures { result ≡ skip_test word.now }
{
    if is_word(word, b"ok") {
        Ok(SkipTest::Good)
    } else if is_word(word, b"bad") {
        Ok(SkipTest::Bad)
    } else {
        Err(Reason::Form)
    }
}

// `skip N if ok`, `skip N if bad`
#[tactic(auto, unfolding(snp_model::specs::ItemLines::skip_row))]
fn read_skip(words: &Words<'_>) -> Result<Line, Reason>
    requires { length words.now ≡ 4 }
    ensures { result ≡ skip_row words.now }
{
    let count = read_count(words.at(1))?;
    read_fixed(words.at(2), b"if")?;
    let test = read_skip_test(words.at(3))?;
    Ok(once(Item::Skip { count, test }))
}

// `skip N if value V`
#[tactic(auto, unfolding(snp_model::specs::ItemLines::skip_value_row))]
fn read_skip_value(words: &Words<'_>) -> Result<Line, Reason>
    requires { length words.now ≡ 5 }
    ensures { result ≡ skip_value_row words.now }
{
    let count = read_count(words.at(1))?;
    read_fixed(words.at(2), b"if")?;
    read_fixed(words.at(3), b"value")?;
    let value = read_number(words.at(4))?;
    Ok(once(Item::Skip {
        count,
        test: SkipTest::Value(value),
    }))
}

// The items of every role.
#[tactic(auto, unfolding(snp_model::specs::ItemLines::skip_item))]
fn read_skip_item(words: &Words<'_>) -> Result<Line, Reason>
    ensures { result ≡ skip_item words.now }
{
    if words.is_row(b"skip", 4) {
        read_skip(words)
    } else if words.is_row(b"skip", 5) {
        read_skip_value(words)
    } else {
        Err(Reason::Form)
    }
}

// The items of a guest processor and of a hypervisor processor.
#[tactic(auto, unfolding(snp_model::specs::ItemLines::access_item))]
fn read_access_item(role: &Role, frames: u32, words: &Words<'_>) -> Result<Line, Reason>
    ensures { result ≡ access_item role.now frames words.now }
{
    if words.is_row(b"load", 2) {
        read_load(role, frames, words)
    } else if words.is_row(b"store", 3) {
        read_store(role, frames, words)
    } else if words.is_row(b"swap", 3) {
        read_swap(role, frames, words)
    } else if words.is_row(b"cas", 4) {
        read_cas(role, frames, words)
    } else if words.is_row(b"xor", 3) {
        read_xor(role, frames, words)
    } else {
        read_skip_item(words)
    }
}

// The items of a guest processor.
#[tactic(auto, unfolding(snp_model::specs::ItemLines::cpu_item))]
fn read_cpu_item(role: &Role, frames: u32, words: &Words<'_>) -> Result<Line, Reason>
    ensures { result ≡ cpu_item role.now frames words.now }
{
    if words.is_retry_row(b"pvalidate", 4) {
        read_validate(words)
    } else if words.is_retry_row(b"rmpadjust", 6) {
        read_adjust(words)
    } else {
        read_access_item(role, frames, words)
    }
}

// The items of a hypervisor processor.
#[tactic(auto, unfolding(snp_model::specs::ItemLines::host_item))]
fn read_host_item(frames: u32, words: &Words<'_>) -> Result<Line, Reason>
    ensures { result ≡ host_item frames words.now }
{
    if words.is_retry_row(b"rmpupdate", 7) {
        read_update(words)
    } else if words.is_retry_row(b"psmash", 2) {
        read_smash(words)
    } else {
        read_access_item(&Role::Host, frames, words)
    }
}

// The commands that seal or open a page, and the items of every role.
#[tactic(auto, unfolding(snp_model::specs::ItemLines::sealing_item))]
fn read_sealing_item(words: &Words<'_>) -> Result<Line, Reason>
    ensures { result ≡ sealing_item words.now }
{
    if words.is_retry_row(b"swap_out", 6) {
        with_retries(words, 6, read_swap_out(words))
    } else if words.is_retry_row(b"swap_in", 6) {
        with_retries(words, 6, read_swap_in(words))
    } else if words.is_retry_row(b"md_out", 6) {
        with_retries(words, 6, read_metadata_out(words))
    } else if words.is_retry_row(b"md_in", 6) {
        with_retries(words, 6, read_metadata_in(words))
    } else if words.is_retry_row(b"md_root_out", 4) {
        with_retries(words, 4, read_root_out(words))
    } else if words.is_retry_row(b"md_root_in", 4) {
        with_retries(words, 4, read_root_in(words))
    } else {
        read_skip_item(words)
    }
}

// The items of a firmware actor.
#[tactic(auto, unfolding(snp_model::specs::ItemLines::firmware_item))]
fn read_firmware_item(words: &Words<'_>) -> Result<Line, Reason>
    ensures { result ≡ firmware_item words.now }
{
    if words.is_retry_row(b"gctx_create", 3) {
        with_retries(words, 3, read_create(words))
    } else if words.is_retry_row(b"activate", 3) {
        with_retries(words, 3, read_activate(words))
    } else if words.is_retry_row(b"launch_start", 2) {
        with_retries(words, 2, read_start(words))
    } else if words.is_retry_row(b"launch_update", 8) {
        with_retries(words, 8, read_launch(words))
    } else if words.is_retry_row(b"launch_finish", 2) {
        with_retries(words, 2, read_finish(words))
    } else if words.is_retry_row(b"md_init", 2) {
        with_retries(words, 2, read_init(words))
    } else if words.is_retry_row(b"page_move", 4) {
        with_retries(words, 4, read_move(words))
    } else if words.is_retry_row(b"page_reclaim", 2) {
        with_retries(words, 2, read_reclaim(words))
    } else {
        read_sealing_item(words)
    }
}

/// The item that the words of a line say, for an actor with this role, in a memory of `frames` frames.
pub fn read_item_words(role: &Role, frames: u32, words: &Words<'_>) -> Result<Line, Reason>
    ensures { result ≡ item_words role.now frames words.now }
{
    match role {
        Role::Cpu { .. } => read_cpu_item(role, frames, words),
        Role::Host => read_host_item(frames, words),
        Role::Firmware => read_firmware_item(words),
    }
}

/// The item that a line says, for an actor with this role, in a memory of `frames` frames.
#[tactic(auto, unfolding(snp_model::specs::ItemLines::item_line))]
pub fn read_item(role: &Role, line: &[u8], frames: u32) -> Result<Line, Reason>
    ensures { result ≡ item_line role.now frames line.now }
{
    let mut words = Words::new();
    if words.split(line) {
        read_item_words(role, frames, &words)
    } else {
        Err(Reason::Form)
    }
}
