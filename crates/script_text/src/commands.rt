ghost use Rattle.std.specs.Prelude.{◌≡◌, ◌⊎◌, ◌+◌, ◌≤◌, length};
ghost use Rattle.snp_model.specs.ItemLines.{
  guest_word,
  create_operands,
  activate_operands,
  start_operands,
  launch_operands,
  finish_operands,
  init_operands,
  move_operands,
  reclaim_operands,
  command_row,
};

use crate::instructions::{read_flag, read_retries};
use crate::number::{read_below, read_number, read_ranged};
use crate::words::Words;
use snp_model::{Command, Item, Line, Reason};

/// The guest of a command, which may be an undeclared one.
#[tactic(auto, unfolding(snp_model::specs::ItemLines::guest_word))]
pub fn read_guest(word: &[u8]) -> Result<u8, Reason>
    ensures { result ≡ guest_word word.now }
{
    let guest = read_ranged(1, 8, word)?;
    Ok(guest as u8)
}

/// `gctx_create G F`
#[tactic(auto, unfolding(snp_model::specs::ItemLines::create_operands))]
pub fn read_create(words: &Words<'_>) -> Result<Command, Reason>
    requires { 3 ≤ length words.now }
    ensures { result ≡ create_operands words.now }
{
    let guest = read_guest(words.at(1))?;
    let frame = read_number(words.at(2))?;
    Ok(Command::GctxCreate { guest, frame })
}

/// `activate G A`
#[tactic(auto, unfolding(snp_model::specs::ItemLines::activate_operands))]
pub fn read_activate(words: &Words<'_>) -> Result<Command, Reason>
    requires { 3 ≤ length words.now }
    ensures { result ≡ activate_operands words.now }
{
    let guest = read_guest(words.at(1))?;
    let asid = read_below(1024, words.at(2))?;
    Ok(Command::Activate {
        guest,
        asid: asid as u16,
    })
}

/// `launch_start G`
#[tactic(auto, unfolding(snp_model::specs::ItemLines::start_operands))]
pub fn read_start(words: &Words<'_>) -> Result<Command, Reason>
    requires { 2 ≤ length words.now }
    ensures { result ≡ start_operands words.now }
{
    let guest = read_guest(words.at(1))?;
    Ok(Command::LaunchStart { guest })
}

/// `launch_update G F T I X Y Z`
#[tactic(auto, unfolding(snp_model::specs::ItemLines::launch_operands))]
pub fn read_launch(words: &Words<'_>) -> Result<Command, Reason>
    requires { 8 ≤ length words.now }
    ensures { result ≡ launch_operands words.now }
{
    let guest = read_guest(words.at(1))?;
    let frame = read_number(words.at(2))?;
    let page_type = read_below(256, words.at(3))?;
    let imi = read_flag(words.at(4))?;
    let first = read_below(16, words.at(5))?;
    let second = read_below(16, words.at(6))?;
    let third = read_below(16, words.at(7))?;
    Ok(Command::LaunchUpdate {
        guest,
        frame,
        page_type: page_type as u8,
        imi,
        perms: [first as u8, second as u8, third as u8],
    })
}

/// `launch_finish G`
#[tactic(auto, unfolding(snp_model::specs::ItemLines::finish_operands))]
pub fn read_finish(words: &Words<'_>) -> Result<Command, Reason>
    requires { 2 ≤ length words.now }
    ensures { result ≡ finish_operands words.now }
{
    let guest = read_guest(words.at(1))?;
    Ok(Command::LaunchFinish { guest })
}

/// `md_init F`
#[tactic(auto, unfolding(snp_model::specs::ItemLines::init_operands))]
pub fn read_init(words: &Words<'_>) -> Result<Command, Reason>
    requires { 2 ≤ length words.now }
    ensures { result ≡ init_operands words.now }
{
    let frame = read_number(words.at(1))?;
    Ok(Command::MdInit { frame })
}

/// `page_move G SRC DST`
#[tactic(auto, unfolding(snp_model::specs::ItemLines::move_operands))]
pub fn read_move(words: &Words<'_>) -> Result<Command, Reason>
    requires { 4 ≤ length words.now }
    ensures { result ≡ move_operands words.now }
{
    let guest = read_guest(words.at(1))?;
    let source = read_number(words.at(2))?;
    let target = read_number(words.at(3))?;
    Ok(Command::PageMove {
        guest,
        source,
        target,
    })
}

/// `page_reclaim F`
#[tactic(auto, unfolding(snp_model::specs::ItemLines::reclaim_operands))]
pub fn read_reclaim(words: &Words<'_>) -> Result<Command, Reason>
    requires { 2 ≤ length words.now }
    ensures { result ≡ reclaim_operands words.now }
{
    let frame = read_number(words.at(1))?;
    Ok(Command::Reclaim { frame })
}

/// A command with so many words of its own, which `retry N` may end.
#[tactic(auto, unfolding(snp_model::specs::ItemLines::command_row))]
pub fn with_retries(
    words: &Words<'_>,
    count: usize,
    command: Result<Command, Reason>,
) -> Result<Line, Reason>
    requires few { count ≤ 15 }
    requires count { (length words.now ≡ count) ⊎ (length words.now ≡ count + 2) }
    ensures { result ≡ command_row words.now count command }
{
    let command = command?;
    let retries = read_retries(words, count)?;
    Ok(Line {
        item: Item::Firmware(command),
        retries,
    })
}
