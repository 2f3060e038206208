ghost use Rattle.std.specs.Prelude.{◌≡◌, ◌≤◌, length};
ghost use Rattle.snp_model.specs.ItemLines.{
  frames_words,
  place_words,
  swap_out_operands,
  swap_in_operands,
  metadata_out_operands,
  metadata_in_operands,
  root_out_operands,
  root_in_operands,
};

use crate::commands::read_guest;
use crate::number::{read_below, read_number};
use crate::words::Words;
use snp_model::{Command, Reason};

// `G SRC DST`: the guest of a command, and the frames that it reads and fills.
#[tactic(auto, unfolding(snp_model::specs::ItemLines::frames_words))]
fn read_frames(words: &Words<'_>) -> Result<(u8, u64, u64), Reason>
    requires { 4 ≤ length words.now }
    ensures { result ≡ frames_words words.now }
{
    let guest = read_guest(words.at(1))?;
    let source = read_number(words.at(2))?;
    let target = read_number(words.at(3))?;
    Ok((guest, source, target))
}

// `MD E`: a metadata page and an entry of it.
#[tactic(auto, unfolding(snp_model::specs::ItemLines::place_words))]
fn read_place(words: &Words<'_>) -> Result<(u64, u8), Reason>
    requires { 6 ≤ length words.now }
    ensures { result ≡ place_words words.now }
{
    let metadata = read_number(words.at(4))?;
    let entry = read_below(64, words.at(5))?;
    Ok((metadata, entry as u8))
}

/// `swap_out G SRC DST MD E`
#[tactic(auto, unfolding(snp_model::specs::ItemLines::swap_out_operands))]
pub fn read_swap_out(words: &Words<'_>) -> Result<Command, Reason>
    requires { 6 ≤ length words.now }
    ensures { result ≡ swap_out_operands words.now }
{
    let (guest, source, target) = read_frames(words)?;
    let (metadata, entry) = read_place(words)?;
    Ok(Command::SwapOut {
        guest,
        source,
        target,
        metadata,
        entry,
    })
}

/// `swap_in G SRC DST MD E`
#[tactic(auto, unfolding(snp_model::specs::ItemLines::swap_in_operands))]
pub fn read_swap_in(words: &Words<'_>) -> Result<Command, Reason>
    requires { 6 ≤ length words.now }
    ensures { result ≡ swap_in_operands words.now }
{
    let (guest, source, target) = read_frames(words)?;
    let (metadata, entry) = read_place(words)?;
    Ok(Command::SwapIn {
        guest,
        source,
        target,
        metadata,
        entry,
    })
}

/// `md_out G SRC DST MD E`
#[tactic(auto, unfolding(snp_model::specs::ItemLines::metadata_out_operands))]
pub fn read_metadata_out(words: &Words<'_>) -> Result<Command, Reason>
    requires { 6 ≤ length words.now }
    ensures { result ≡ metadata_out_operands words.now }
{
    let (guest, source, target) = read_frames(words)?;
    let (metadata, entry) = read_place(words)?;
    Ok(Command::MdOut {
        guest,
        source,
        target,
        metadata,
        entry,
    })
}

/// `md_in G SRC DST MD E`
#[tactic(auto, unfolding(snp_model::specs::ItemLines::metadata_in_operands))]
pub fn read_metadata_in(words: &Words<'_>) -> Result<Command, Reason>
    requires { 6 ≤ length words.now }
    ensures { result ≡ metadata_in_operands words.now }
{
    let (guest, source, target) = read_frames(words)?;
    let (metadata, entry) = read_place(words)?;
    Ok(Command::MdIn {
        guest,
        source,
        target,
        metadata,
        entry,
    })
}

/// `md_root_out G SRC DST`
#[tactic(auto, unfolding(snp_model::specs::ItemLines::root_out_operands))]
pub fn read_root_out(words: &Words<'_>) -> Result<Command, Reason>
    requires { 4 ≤ length words.now }
    ensures { result ≡ root_out_operands words.now }
{
    let (guest, source, target) = read_frames(words)?;
    Ok(Command::MdRootOut {
        guest,
        source,
        target,
    })
}

/// `md_root_in G SRC DST`
#[tactic(auto, unfolding(snp_model::specs::ItemLines::root_in_operands))]
pub fn read_root_in(words: &Words<'_>) -> Result<Command, Reason>
    requires { 4 ≤ length words.now }
    ensures { result ≡ root_in_operands words.now }
{
    let (guest, source, target) = read_frames(words)?;
    Ok(Command::MdRootIn {
        guest,
        source,
        target,
    })
}
