//! Which outcomes can belong to an item.

ghost use Rattle.std.specs.Prelude.{◌≡◌};
ghost use Rattle.snp_model.specs.Verdicts.{same_size};
ghost use Rattle.guest_memory.specs.Uses.{asked_by, can_belong, is_commit, is_compare, is_exchange, is_load, is_store, may_belong, op_of};

use snp_model::{Deed, Item, Op, Outcome, PageSize};

/// Whether an outcome, if there is one, can belong to an item at a deed.
pub fn may_belong(outcome: &Option<Outcome>, deed: &Deed, item: &Item) -> bool
    ensures { result ≡ may_belong outcome.now deed.now item.now }
{
    match outcome {
        None => true,
        Some(outcome) => can_belong(outcome, deed, item),
    }
}

// Whether an outcome can belong to an item at a deed.
fn can_belong(outcome: &Outcome, deed: &Deed, item: &Item) -> bool
    ensures { result ≡ can_belong outcome.now deed.now item.now }
{
    match outcome {
        Outcome::Loaded(_) => is_load(op_of(item)),
        Outcome::Stored => is_store(op_of(item)),
        Outcome::Swapped(_) => is_exchange(op_of(item)),
        Outcome::Compared { found, written } => is_compare(*found, *written, op_of(item)),
        Outcome::Carry(_) => is_commit(asked_by(item), deed),
        Outcome::Opaque
        | Outcome::Gp
        | Outcome::Pf(_)
        | Outcome::Npf(_)
        | Outcome::Vc(_)
        | Outcome::Offline
        | Outcome::Status(_)
        | Outcome::StatusInUse { .. }
        | Outcome::Firmware(_)
        | Outcome::FirmwareInUse { .. }
        | Outcome::BadTag { .. }
        | Outcome::Next
        | Outcome::Skipped(_) => true,
    }
}

// The operation of an access.
fn op_of(item: &Item) -> Option<Op>
    ensures { result ≡ op_of item.now }
{
    match item {
        Item::Access { op, .. } => Some(*op),
        Item::Pvalidate { .. }
        | Item::Rmpadjust { .. }
        | Item::Rmpupdate(_)
        | Item::Psmash { .. }
        | Item::Firmware(_)
        | Item::Skip { .. } => None,
    }
}

// The size that a PVALIDATE asks.
fn asked_by(item: &Item) -> Option<PageSize>
    ensures { result ≡ asked_by item.now }
{
    match item {
        Item::Pvalidate { size, .. } => Some(*size),
        Item::Access { .. }
        | Item::Rmpadjust { .. }
        | Item::Rmpupdate(_)
        | Item::Psmash { .. }
        | Item::Firmware(_)
        | Item::Skip { .. } => None,
    }
}

// Whether it is a load.
fn is_load(op: Option<Op>) -> bool
    ensures { result ≡ is_load op }
{
    matches!(op, Some(Op::Load))
}

// Whether it is a store.
fn is_store(op: Option<Op>) -> bool
    ensures { result ≡ is_store op }
{
    matches!(op, Some(Op::Store(_)))
}

// Whether it gives the old word and always writes.
fn is_exchange(op: Option<Op>) -> bool
    ensures { result ≡ is_exchange op }
{
    matches!(op, Some(Op::Swap(_) | Op::Xor(_)))
}

// Whether it is a compare that finds this word, and writes exactly where it is the expected one.
fn is_compare(word: u64, wrote: bool, op: Option<Op>) -> bool
    ensures { result ≡ is_compare word wrote op }
{
    match op {
        Some(Op::Compare { expected, .. }) => { if word == expected { wrote } else { !wrote } }
        Some(Op::Load | Op::Store(_) | Op::Swap(_) | Op::Xor(_)) | None => false,
    }
}

// Whether a deed is a commit of a page of the size that is asked.
fn is_commit(asked: Option<PageSize>, deed: &Deed) -> bool
    ensures { result ≡ is_commit asked deed.now }
{
    match asked {
        None => false,
        Some(asked) => match deed {
            Deed::Commit { size, .. } => same_size(*size, asked),
            Deed::Begin
            | Deed::Nested { .. }
            | Deed::Table { .. }
            | Deed::Access { .. }
            | Deed::Host { .. }
            | Deed::Lock { .. }
            | Deed::LockContext { .. }
            | Deed::Compute
            | Deed::CommitContext { .. }
            | Deed::Control => false,
        },
    }
}

/// Whether two sizes are the same.
pub(crate) fn same_size(size: PageSize, other: PageSize) -> bool
    ensures { result ≡ same_size size other }
{
    match size {
        PageSize::Small => matches!(other, PageSize::Small),
        PageSize::Large => matches!(other, PageSize::Large),
    }
}
