ghost use Rattle.std.specs.Prelude.{◌≡◌, ◌+◌, ◌<◌, ◌≤◌, length, drop, IfOk};
ghost use Rattle.report_text.specs.EventLines.{
  access_of,
  bare_deed_of,
  begins,
  commit_context_of,
  commit_of,
  deed_of,
  host_of,
  lock_context_of,
  lock_of,
  nested_of,
  table_of,
};

use crate::pieces::{
    at, begins, read_frame, read_gpn, read_hex, read_one_of, read_read, read_u8, read_u32,
};
use script_text::instructions::read_size;
use script_text::number::read_decimal;
use script_text::words::Words;
use snp_model::{Deed, Reason};

// `npt FRAME:INDEX VALUE`
#[tactic(auto, unfolding(crate::specs::EventLines::nested_of))]
fn read_nested(words: &Words<'_>, from: usize) -> Result<(Deed, usize), Reason>
    requires near { from ≤ 7 }
    requires words { from + 3 ≤ length words.now }
    ensures read { result ≡ nested_of (drop from words.now) }
    ensures within { IfOk result (λ deed. (deed.1 ≤ 4) × (from + deed.1 ≤ length words.now)) }
{
    let (frame, index) = read_frame(at(words, from, 1))?;
    let value = read_hex(at(words, from, 2))?;
    let deed = Deed::Nested {
        frame,
        index,
        value,
    };
    Ok((deed, 3))
}

// `gpt GPN:INDEX FRAME VALUE`
#[tactic(auto, unfolding(crate::specs::EventLines::table_of))]
fn read_table(words: &Words<'_>, from: usize) -> Result<(Deed, usize), Reason>
    requires near { from ≤ 7 }
    requires words { from + 4 ≤ length words.now }
    ensures read { result ≡ table_of (drop from words.now) }
    ensures within { IfOk result (λ deed. (deed.1 ≤ 4) × (from + deed.1 ≤ length words.now)) }
{
    let (gpn, index) = read_gpn(at(words, from, 1))?;
    let frame = read_u32(at(words, from, 2))?;
    let value = read_read(at(words, from, 3))?;
    let deed = Deed::Table {
        gpn,
        index,
        frame,
        value,
    };
    Ok((deed, 4))
}

// `data GPN:INDEX FRAME p`, `data GPN:INDEX FRAME s`
#[tactic(auto, unfolding(crate::specs::EventLines::access_of))]
fn read_access(words: &Words<'_>, from: usize) -> Result<(Deed, usize), Reason>
    requires near { from ≤ 7 }
    requires words { from + 4 ≤ length words.now }
    ensures read { result ≡ access_of (drop from words.now) }
    ensures within { IfOk result (λ deed. (deed.1 ≤ 4) × (from + deed.1 ≤ length words.now)) }
{
    let (gpn, index) = read_gpn(at(words, from, 1))?;
    let frame = read_u32(at(words, from, 2))?;
    let private = read_one_of(at(words, from, 3), b"p", b"s")?;
    let deed = Deed::Access {
        gpn,
        index,
        frame,
        private,
    };
    Ok((deed, 4))
}

// `host FRAME:INDEX`
#[tactic(auto, unfolding(crate::specs::EventLines::host_of))]
fn read_host(words: &Words<'_>, from: usize) -> Result<(Deed, usize), Reason>
    requires near { from ≤ 7 }
    requires words { from + 2 ≤ length words.now }
    ensures read { result ≡ host_of (drop from words.now) }
    ensures within { IfOk result (λ deed. (deed.1 ≤ 4) × (from + deed.1 ≤ length words.now)) }
{
    let (frame, index) = read_frame(at(words, from, 1))?;
    Ok((Deed::Host { frame, index }, 2))
}

// `lock FRAME`
#[tactic(auto, unfolding(crate::specs::EventLines::lock_of))]
fn read_lock(words: &Words<'_>, from: usize) -> Result<(Deed, usize), Reason>
    requires near { from ≤ 7 }
    requires words { from + 2 ≤ length words.now }
    ensures read { result ≡ lock_of (drop from words.now) }
    ensures within { IfOk result (λ deed. (deed.1 ≤ 4) × (from + deed.1 ≤ length words.now)) }
{
    let frame = read_decimal(at(words, from, 1))?;
    Ok((Deed::Lock { frame }, 2))
}

// `lockg GUEST`
#[tactic(auto, unfolding(crate::specs::EventLines::lock_context_of))]
fn read_lock_context(words: &Words<'_>, from: usize) -> Result<(Deed, usize), Reason>
    requires near { from ≤ 7 }
    requires words { from + 2 ≤ length words.now }
    ensures read { result ≡ lock_context_of (drop from words.now) }
    ensures within { IfOk result (λ deed. (deed.1 ≤ 4) × (from + deed.1 ≤ length words.now)) }
{
    let guest = read_u8(at(words, from, 1))?;
    Ok((Deed::LockContext { guest }, 2))
}

// `commit FRAME GPN SIZE`
#[tactic(auto, unfolding(crate::specs::EventLines::commit_of))]
fn read_commit(words: &Words<'_>, from: usize) -> Result<(Deed, usize), Reason>
    requires near { from ≤ 7 }
    requires words { from + 4 ≤ length words.now }
    ensures read { result ≡ commit_of (drop from words.now) }
    ensures within { IfOk result (λ deed. (deed.1 ≤ 4) × (from + deed.1 ≤ length words.now)) }
{
    let frame = read_u32(at(words, from, 1))?;
    let gpn = read_hex(at(words, from, 2))?;
    let size = read_size(at(words, from, 3))?;
    Ok((Deed::Commit { frame, gpn, size }, 4))
}

// `commitg GUEST`
#[tactic(auto, unfolding(crate::specs::EventLines::commit_context_of))]
fn read_commit_context(words: &Words<'_>, from: usize) -> Result<(Deed, usize), Reason>
    requires near { from ≤ 7 }
    requires words { from + 2 ≤ length words.now }
    ensures read { result ≡ commit_context_of (drop from words.now) }
    ensures within { IfOk result (λ deed. (deed.1 ≤ 4) × (from + deed.1 ≤ length words.now)) }
{
    let guest = read_u8(at(words, from, 1))?;
    Ok((Deed::CommitContext { guest }, 2))
}

// A deed of one word.
#[tactic(auto, unfolding(crate::specs::EventLines::bare_deed_of))]
fn read_bare(words: &Words<'_>, from: usize) -> Result<(Deed, usize), Reason>
    requires near { from ≤ 7 }
    requires words { from < length words.now }
    ensures read { result ≡ bare_deed_of (drop from words.now) }
    ensures within { IfOk result (λ deed. (deed.1 ≤ 4) × (from + deed.1 ≤ length words.now)) }
{
    if begins(words, from, b"begin", 1) {
        Ok((Deed::Begin, 1))
    } else if begins(words, from, b"compute", 1) {
        Ok((Deed::Compute, 1))
    } else if begins(words, from, b"skip", 1) {
        Ok((Deed::Control, 1))
    } else {
        Err(Reason::Form)
    }
}

/// What an event does, with the count of its words.
#[tactic(auto, unfolding(crate::specs::EventLines::deed_of))]
pub fn read_deed(words: &Words<'_>, from: usize) -> Result<(Deed, usize), Reason>
    requires near { from ≤ 7 }
    requires words { from < length words.now }
    ensures read { result ≡ deed_of (drop from words.now) }
    ensures within { IfOk result (λ deed. (deed.1 ≤ 4) × (from + deed.1 ≤ length words.now)) }
{
    if begins(words, from, b"npt", 3) {
        read_nested(words, from)
    } else if begins(words, from, b"gpt", 4) {
        read_table(words, from)
    } else if begins(words, from, b"data", 4) {
        read_access(words, from)
    } else if begins(words, from, b"host", 2) {
        read_host(words, from)
    } else if begins(words, from, b"lock", 2) {
        read_lock(words, from)
    } else if begins(words, from, b"lockg", 2) {
        read_lock_context(words, from)
    } else if begins(words, from, b"commit", 4) {
        read_commit(words, from)
    } else if begins(words, from, b"commitg", 2) {
        read_commit_context(words, from)
    } else {
        read_bare(words, from)
    }
}
