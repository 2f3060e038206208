ghost use Rattle.std.specs.Prelude.{◌≡◌, ◌⊎◌, ◌+◌, ◌≤◌, length};
ghost use Rattle.snp_model.specs.ItemLines.{
  size_word,
  flag_word,
  retries_word,
  update_operands,
  update_row,
  smash_row,
  validate_row,
  adjust_operands,
  adjust_row,
};

use crate::number::{is_word, read_below, read_fixed, read_number, read_ranged};
use crate::words::Words;
use snp_model::{Item, Line, PageSize, Reason, Update};

/// The size of a page: `4k` or `2m`.
#[tactic(auto, unfolding(snp_model::specs::ItemLines::size_word))]
pub fn read_size(word: &[u8]) -> Result<PageSize, Reason>
    ensures { result ≡ size_word word.now }
{
    if is_word(word, b"4k") {
        Ok(PageSize::Small)
    } else if is_word(word, b"2m") {
        Ok(PageSize::Large)
    } else {
        Err(Reason::Form)
    }
}

/// 0 or 1.
#[tactic(auto, unfolding(snp_model::specs::ItemLines::flag_word))]
pub fn read_flag(word: &[u8]) -> Result<bool, Reason>
    ensures { result ≡ flag_word word.now }
{
    let flag = read_below(2, word)?;
    Ok(flag == 1)
}

/// How many times an item is tried again, whose own words are so many.
#[tactic(auto, unfolding(snp_model::specs::ItemLines::retries_word))]
pub fn read_retries(words: &Words<'_>, count: usize) -> Result<u8, Reason>
    requires few { count ≤ 15 }
    requires count { (length words.now ≡ count) ⊎ (length words.now ≡ count + 2) }
    ensures { result ≡ retries_word words.now count }
{
    if words.count() == count {
        Ok(0)
    } else {
        read_fixed(words.at(count), b"retry")?;
        let retries = read_ranged(1, 255, words.at(count + 1))?;
        Ok(retries as u8)
    }
}

// `F S B A P I`: the operands of RMPUPDATE.
#[tactic(auto, unfolding(snp_model::specs::ItemLines::update_operands))]
fn read_update_operands(words: &Words<'_>) -> Result<Update, Reason>
    requires { 7 ≤ length words.now }
    ensures { result ≡ update_operands words.now }
{
    let frame = read_number(words.at(1))?;
    let size = read_size(words.at(2))?;
    let assigned = read_flag(words.at(3))?;
    let asid = read_below(1024, words.at(4))?;
    let gpn = read_below(1 << 36, words.at(5))?;
    let immutable = read_flag(words.at(6))?;
    Ok(Update {
        frame,
        size,
        assigned,
        asid: asid as u16,
        gpn,
        immutable,
    })
}

/// `rmpupdate F S B A P I`, `rmpupdate F S B A P I retry N`
#[tactic(auto, unfolding(snp_model::specs::ItemLines::update_row))]
pub fn read_update(words: &Words<'_>) -> Result<Line, Reason>
    requires { (length words.now ≡ 7) ⊎ (length words.now ≡ 9) }
    ensures { result ≡ update_row words.now }
{
    let update = read_update_operands(words)?;
    let retries = read_retries(words, 7)?;
    Ok(Line {
        item: Item::Rmpupdate(update),
        retries,
    })
}

/// `psmash F`, `psmash F retry N`
#[tactic(auto, unfolding(snp_model::specs::ItemLines::smash_row))]
pub fn read_smash(words: &Words<'_>) -> Result<Line, Reason>
    requires { (length words.now ≡ 2) ⊎ (length words.now ≡ 4) }
    ensures { result ≡ smash_row words.now }
{
    let frame = read_number(words.at(1))?;
    let retries = read_retries(words, 2)?;
    Ok(Line {
        item: Item::Psmash { frame },
        retries,
    })
}

/// `pvalidate VA S B`, `pvalidate VA S B retry N`
#[tactic(auto, unfolding(snp_model::specs::ItemLines::validate_row))]
pub fn read_validate(words: &Words<'_>) -> Result<Line, Reason>
    requires { (length words.now ≡ 4) ⊎ (length words.now ≡ 6) }
    ensures { result ≡ validate_row words.now }
{
    let address = read_number(words.at(1))?;
    let size = read_size(words.at(2))?;
    let validate = read_flag(words.at(3))?;
    let retries = read_retries(words, 4)?;
    Ok(Line {
        item: Item::Pvalidate {
            address,
            size,
            validate,
        },
        retries,
    })
}

// `VA S T M W`: the operands of RMPADJUST.
#[tactic(auto, unfolding(snp_model::specs::ItemLines::adjust_operands))]
fn read_adjust_operands(words: &Words<'_>) -> Result<Item, Reason>
    requires { 6 ≤ length words.now }
    ensures { result ≡ adjust_operands words.now }
{
    let address = read_number(words.at(1))?;
    let size = read_size(words.at(2))?;
    let target = read_below(256, words.at(3))?;
    let mask = read_below(256, words.at(4))?;
    let vmsa = read_flag(words.at(5))?;
    Ok(Item::Rmpadjust {
        address,
        size,
        target: target as u8,
        mask: mask as u8,
        vmsa,
    })
}

/// `rmpadjust VA S T M W`, `rmpadjust VA S T M W retry N`
#[tactic(auto, unfolding(snp_model::specs::ItemLines::adjust_row))]
pub fn read_adjust(words: &Words<'_>) -> Result<Line, Reason>
    requires { (length words.now ≡ 6) ⊎ (length words.now ≡ 8) }
    ensures { result ≡ adjust_row words.now }
{
    let item = read_adjust_operands(words)?;
    let retries = read_retries(words, 6)?;
    Ok(Line { item, retries })
}
