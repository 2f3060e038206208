ghost use Rattle.std.specs.Prelude.{◌≡◌, ℕ, ◌+◌, ◌≤◌, ◌<◌, ◌^◌, true, IsTrue, IfOk, length, map, Ok, Err};
ghost use Rattle.scenario_text.specs.Pages.{Knows};
ghost use Rattle.std.specs.List.{list_all, list_any, range_with_len};
ghost use Rattle.snp_model.specs.Lines.{is_hex_digit};
ghost use Rattle.snp_model.specs.ScenarioLines.{
  frames_of,
  version_of,
  version_row,
  regions_row,
  next_number,
  opening,
  key_byte,
  key_of,
  has_asid,
  guest_row,
  is_declared,
  is_opened,
  page_unit,
  validity,
  collide,
  apart,
  page_row,
  word_row,
  cpu_row,
  has_five_levels,
  tables_at,
  tables_row,
  role_word,
  role_row,
  turn_from,
  turn_of,
};

use crate::taken::Taken;
use script_text::instructions::read_size;
use script_text::number::{
    all_hex, digit_value, is_word, multiple, read_below, read_decimal, read_fixed, read_number,
    read_ranged,
};
use script_text::words::{Words, cut};
use snp_model::{GuestSpec, PageSpec, Paging, Reason, Role, Scenario, Turn, WordSpec};

// The version of a text.
#[tactic(auto, unfolding(snp_model::specs::ScenarioLines::version_of))]
fn version_of(word: &[u8]) -> Result<u8, Reason>
    ensures { result ≡ version_of word.now }
{
    if is_word(word, b"1") {
        Ok(1)
    } else if is_word(word, b"2") {
        Ok(2)
    } else {
        Err(Reason::Form)
    }
}

/// `snp 1`, `snp 2`
#[tactic(auto, unfolding(snp_model::specs::ScenarioLines::version_row))]
pub fn read_version(words: &Words<'_>) -> Result<u8, Reason>
    ensures { result ≡ version_row words.now }
{
    if words.is_row(b"snp", 2) {
        version_of(words.at(1))
    } else {
        Err(Reason::Form)
    }
}

/// `regions N`
#[tactic(auto, unfolding(snp_model::specs::ScenarioLines::regions_row))]
pub fn read_regions(words: &Words<'_>) -> Result<u64, Reason>
    requires { length words.now ≡ 2 }
    ensures { result ≡ regions_row words.now }
{
    read_ranged(1, u64::MAX, words.at(1))
}

// A next number: one more than there are.
#[tactic(auto, unfolding(snp_model::specs::ScenarioLines::next_number))]
fn read_next(count: usize, word: &[u8]) -> Result<u64, Reason>
    requires { count < 2 ^ 32 }
    ensures { result ≡ next_number count word.now }
{
    let next = count as u64 + 1;
    read_ranged(next, next, word)
}

// Whether a guest is opened, or new.
#[tactic(auto, unfolding(snp_model::specs::ScenarioLines::opening))]
fn read_opening(word: &[u8]) -> Result<bool, Reason>
    ensures { result ≡ opening word.now }
{
    if is_word(word, b"opened") {
        Ok(true)
    } else if is_word(word, b"new") {
        Ok(false)
    } else {
        Err(Reason::Form)
    }
}

// A key of 64 digits.
#[tactic(auto, unfolding(snp_model::specs::ScenarioLines::key_of))]
fn read_key(word: &[u8]) -> Result<[u8; 32], Reason>
    ensures { result ≡ key_of word.now }
{
    if word.len() == 64 && all_hex(word) {
        Ok(key_bytes(word))
    } else {
        Err(Reason::Form)
    }
}

// The bytes that 64 digits spell.
fn key_bytes(word: &[u8]) -> [u8; 32]
    requires digits { length word.now ≡ 64 }
    requires hex { list_all is_hex_digit word.now ≡ true }
    ensures { result ≡ map (key_byte word.now) (range_with_len 0 32) }
{
    let mut key = [0; 32];
    for k in 0..32 {
        key[k] = key_byte(word, k);
    }
    key
}

fn key_byte(word: &[u8], k: usize) -> u8
    requires digits { length word.now ≡ 64 }
    requires hex { list_all is_hex_digit word.now ≡ true }
    requires place { k < 32 }
    ensures { result ≡ key_byte word.now k }
{
    16 * digit_value(word[2 * k]) + digit_value(word[2 * k + 1])
}

fn has_asid(guests: &[GuestSpec], asid: u64) -> bool
    ensures { result ≡ list_any (has_asid asid) guests.now }
{
    guests.iter().any(|guest| u64::from(guest.asid) == asid)
}

/// `guest G opened asid A iv N key K`, `guest G new asid A iv N key K`
#[tactic(auto, unfolding(snp_model::specs::ScenarioLines::guest_row))]
pub fn read_guest(scenario: &Scenario, words: &Words<'_>) -> Result<GuestSpec, Reason>
    requires count { length words.now ≡ 9 }
    requires few { length scenario.now.guests ≤ 8 }
    ensures { result ≡ guest_row scenario.now words.now }
{
    read_next(scenario.guests.len(), words.at(1))?;
    let opened = read_opening(words.at(2))?;
    read_fixed(words.at(3), b"asid")?;
    let asid = read_ranged(1, 1023, words.at(4))?;
    read_fixed(words.at(5), b"iv")?;
    let iv = read_number(words.at(6))?;
    read_fixed(words.at(7), b"key")?;
    let key = read_key(words.at(8))?;
    if has_asid(scenario.guests.as_slice(), asid) {
        return Err(Reason::Repeat);
    }
    Ok(GuestSpec {
        opened,
        asid: asid as u16,
        iv,
        key,
    })
}

fn is_declared(guests: &[GuestSpec], guest: u64) -> bool
    ensures declared { result ≡ is_declared guests.now guest }
    ensures bound { IsTrue result → guest ≤ length guests.now }
{
    0 < guest && guest <= guests.len() as u64
}

#[tactic(auto, unfolding(snp_model::specs::ScenarioLines::is_opened))]
fn is_opened(guests: &[GuestSpec], guest: u64) -> bool
    ensures opened { result ≡ is_opened guests.now guest }
    ensures bound { IsTrue result → guest ≤ length guests.now }
{
    if guest == 0 {
        return false;
    }
    match guests.get((guest - 1) as usize) {
        Some(spec) => spec.opened,
        None => false,
    }
}

// What the frame and the guest page number of a page are multiples of, by the word for its size.
fn page_unit(word: &[u8]) -> u64
    ensures unit { result ≡ page_unit word.now }
    ensures some { 0 < result }
{
    if is_word(word, b"2m") { 512 } else { 1 }
}

// Whether a page is validated.
#[tactic(auto, unfolding(snp_model::specs::ScenarioLines::validity))]
fn read_validity(word: &[u8]) -> Result<bool, Reason>
    ensures { result ≡ validity word.now }
{
    if is_word(word, b"valid") {
        Ok(true)
    } else if is_word(word, b"invalid") {
        Ok(false)
    } else {
        Err(Reason::Form)
    }
}

// A page that collides with none of these, which are taken.
#[tactic(auto, unfolding(snp_model::specs::ScenarioLines::apart))]
fn keep_apart(pages: &[PageSpec], taken: &Taken, page: PageSpec) -> Result<PageSpec, Reason>
    requires known { Knows taken.now pages.now }
    requires gpn { page.gpn < 2 ^ 36 }
    ensures apart { result ≡ apart pages.now page }
    ensures same { IfOk result (λ kept. kept ≡ page) }
{
    if taken.has(&page) {
        Err(Reason::Repeat)
    } else {
        Ok(page)
    }
}

/// `page F of G at P S V X Y Z`
#[tactic(auto, unfolding(snp_model::specs::ScenarioLines::page_row))]
pub fn read_page(scenario: &Scenario, taken: &Taken, words: &Words<'_>) -> Result<PageSpec, Reason>
    requires known { Knows taken.now scenario.now.pages }
    requires count { length words.now ≡ 11 }
    requires regions { scenario.now.regions ≤ 16 }
    requires few { length scenario.now.guests ≤ 8 }
    ensures row { result ≡ page_row scenario.now words.now }
    ensures gpn { IfOk result (λ page. page.gpn < 2 ^ 36) }
{
    let first_frame = read_below(u64::from(512 * scenario.regions), words.at(1))?;
    let frame = multiple(page_unit(words.at(6)), first_frame)?;
    read_fixed(words.at(2), b"of")?;
    let guest = read_number(words.at(3))?;
    read_fixed(words.at(4), b"at")?;
    let first_gpn = read_below(1 << 36, words.at(5))?;
    let gpn = multiple(page_unit(words.at(6)), first_gpn)?;
    let size = read_size(words.at(6))?;
    let valid = read_validity(words.at(7))?;
    let first = read_below(16, words.at(8))?;
    let second = read_below(16, words.at(9))?;
    let third = read_below(16, words.at(10))?;
    if !is_opened(scenario.guests.as_slice(), guest) {
        return Err(Reason::Guest);
    }
    let page = PageSpec {
        frame: frame as u32,
        guest: guest as u8,
        gpn,
        size,
        valid,
        perms: [first as u8, second as u8, third as u8],
    };
    keep_apart(scenario.pages.as_slice(), taken, page)
}

/// `word F I V`
#[tactic(auto, unfolding(snp_model::specs::ScenarioLines::word_row))]
pub fn read_word(scenario: &Scenario, words: &Words<'_>) -> Result<WordSpec, Reason>
    requires count { length words.now ≡ 4 }
    requires regions { scenario.now.regions ≤ 16 }
    ensures { result ≡ word_row scenario.now words.now }
{
    let frame = read_below(u64::from(512 * scenario.regions), words.at(1))?;
    let index = read_below(512, words.at(2))?;
    let value = read_number(words.at(3))?;
    Ok(WordSpec {
        frame: frame as u32,
        index: index as u16,
        value,
    })
}

/// `actor N cpu G vmpl V npt F flat`
#[tactic(auto, unfolding(snp_model::specs::ScenarioLines::cpu_row))]
pub fn read_cpu(scenario: &Scenario, words: &Words<'_>) -> Result<Role, Reason>
    requires count { length words.now ≡ 9 }
    requires regions { scenario.now.regions ≤ 16 }
    requires few { length scenario.now.guests ≤ 8 }
    requires actors { length scenario.now.actors ≤ 32 }
    ensures { result ≡ cpu_row scenario.now words.now }
{
    read_next(scenario.actors.len(), words.at(1))?;
    read_fixed(words.at(2), b"cpu")?;
    let guest = read_number(words.at(3))?;
    read_fixed(words.at(4), b"vmpl")?;
    let vmpl = read_below(4, words.at(5))?;
    read_fixed(words.at(6), b"npt")?;
    let npt = read_below(u64::from(512 * scenario.regions), words.at(7))?;
    read_fixed(words.at(8), b"flat")?;
    if !is_declared(scenario.guests.as_slice(), guest) {
        return Err(Reason::Guest);
    }
    Ok(Role::Cpu {
        guest: guest as u8,
        vmpl: vmpl as u8,
        npt: npt as u32,
        paging: Paging::Flat,
    })
}

// Whether guest tables have five levels and not four.
#[tactic(auto, unfolding(snp_model::specs::ScenarioLines::has_five_levels))]
fn has_five_levels(version: u8, word: &[u8]) -> Result<bool, Reason>
    ensures { result ≡ has_five_levels version word.now }
{
    if is_word(word, b"gcr3") {
        Ok(false)
    } else if is_word(word, b"la57") && version == 2 {
        Ok(true)
    } else {
        Err(Reason::Form)
    }
}

// Guest tables that begin at this guest page number.
fn tables_at(five: bool, root: u64) -> Paging
    ensures { result ≡ tables_at five root }
{
    if five {
        Paging::Five(root)
    } else {
        Paging::Four(root)
    }
}

/// `actor N cpu G vmpl V npt F gcr3 P`, and in version 2 `actor N cpu G vmpl V npt F la57 P`
#[tactic(auto, unfolding(snp_model::specs::ScenarioLines::tables_row))]
pub fn read_tables(scenario: &Scenario, words: &Words<'_>) -> Result<Role, Reason>
    requires count { length words.now ≡ 10 }
    requires regions { scenario.now.regions ≤ 16 }
    requires few { length scenario.now.guests ≤ 8 }
    requires actors { length scenario.now.actors ≤ 32 }
    ensures { result ≡ tables_row scenario.now words.now }
{
    read_next(scenario.actors.len(), words.at(1))?;
    read_fixed(words.at(2), b"cpu")?;
    let guest = read_number(words.at(3))?;
    read_fixed(words.at(4), b"vmpl")?;
    let vmpl = read_below(4, words.at(5))?;
    read_fixed(words.at(6), b"npt")?;
    let npt = read_below(u64::from(512 * scenario.regions), words.at(7))?;
    let five = has_five_levels(scenario.version, words.at(8))?;
    let root = read_below(1 << 36, words.at(9))?;
    if !is_declared(scenario.guests.as_slice(), guest) {
        return Err(Reason::Guest);
    }
    Ok(Role::Cpu {
        guest: guest as u8,
        vmpl: vmpl as u8,
        npt: npt as u32,
        paging: tables_at(five, root),
    })
}

// `host` or `fw`
#[tactic(auto, unfolding(snp_model::specs::ScenarioLines::role_word))]
fn role_of(word: &[u8]) -> Result<Role, Reason>
    ensures { result ≡ role_word word.now }
{
    if is_word(word, b"host") {
        Ok(Role::Host)
    } else if is_word(word, b"fw") {
        Ok(Role::Firmware)
    } else {
        Err(Reason::Form)
    }
}

/// `actor N host`, `actor N fw`
#[tactic(auto, unfolding(snp_model::specs::ScenarioLines::role_row))]
pub fn read_role(scenario: &Scenario, words: &Words<'_>) -> Result<Role, Reason>
    requires count { length words.now ≡ 3 }
    requires actors { length scenario.now.actors ≤ 32 }
    ensures { result ≡ role_row scenario.now words.now }
{
    read_next(scenario.actors.len(), words.at(1))?;
    role_of(words.at(2))
}

// A run of a schedule.
#[tactic(auto, unfolding(snp_model::specs::ScenarioLines::turn_from))]
fn turn_from(actor: u64, count: u64) -> Result<Turn, Reason>
    ensures { result ≡ turn_from actor count }
{
    if actor < 1 << 32 && 1 <= count && count <= 262_144 {
        Ok(Turn {
            actor: actor as u32,
            count: count as u32,
        })
    } else {
        Err(Reason::Range)
    }
}

/// `A`, or `A*C`
#[tactic(auto, unfolding(snp_model::specs::ScenarioLines::turn_of))]
pub fn read_turn(word: &[u8]) -> Result<Turn, Reason>
    ensures { result ≡ turn_of word.now }
{
    match cut(word, b'*') {
        None => {
            let actor = read_decimal(word)?;
            turn_from(actor, 1)
        }
        Some((before, behind)) => {
            let actor = read_decimal(before)?;
            let count = read_decimal(behind)?;
            turn_from(actor, count)
        }
    }
}
