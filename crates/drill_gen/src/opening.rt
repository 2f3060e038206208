ghost use Rattle.std.specs.Prelude.{◌≡◌, ◌<◌, ◌≤◌, [], ◌∷◌, ◌++◌, map, IfOk, OnOk};
ghost use Rattle.std.specs.List.{range_with_len};
ghost use Rattle.snp_model.specs.Generated.{guest_spec, leaf_word, page_spec, pages_for, processor, roles, table_word, words_for};

use crate::items::mapping;
use snp_model::{GuestSpec, Listed, PageSize, PageSpec, Paging, Role, WordSpec};
use std::alloc::{AllocError, Global};

// A guest that runs.
#[tactic(auto, unfolding(snp_model::specs::Generated::guest_spec))]
fn guest_spec(guest: u8) -> GuestSpec
    requires { guest ≤ 2 }
    ensures { result ≡ guest_spec guest }
{
    GuestSpec {
        opened: true,
        asid: u16::from(guest),
        iv: 0,
        key: [17 * guest; 32],
    }
}

/// The guests.
pub fn guests(alloc: Global) -> Result<Listed<GuestSpec>, AllocError>
    ensures { IfOk result (λ guests. guests ≡ guest_spec 1 ∷ guest_spec 2 ∷ []) }
{
    Listed::from_slice(alloc, &[guest_spec(1), guest_spec(2)])
}

// A page that a guest has from the start.
#[tactic(auto, unfolding(snp_model::specs::Generated::page_spec))]
fn page_spec(guest: u8, gpn: u32) -> PageSpec
    requires { (guest ≤ 2) × (gpn < 8) }
    ensures { result ≡ page_spec guest gpn }
{
    PageSpec {
        frame: 64 * u32::from(guest) + gpn,
        guest,
        gpn: u64::from(gpn),
        size: PageSize::Small,
        valid: true,
        perms: [0; 3],
    }
}

// Adds the pages of a guest.
#[tactic(auto, unfolding(snp_model::specs::Generated::pages_for))]
fn add_pages(pages: &mut Listed<PageSpec>, guest: u8) -> Result<(), AllocError>
    requires { guest ≤ 2 }
    ensures { OnOk result (pages.new ≡ pages.old ++ pages_for guest) }
{
    'pages: for gpn in 0..8 {
        pages.push(page_spec(guest, gpn))?;
    }
    Ok(())
}

/// The pages of both guests.
pub fn pages(alloc: Global) -> Result<Listed<PageSpec>, AllocError>
    ensures { IfOk result (λ pages. pages ≡ pages_for 1 ++ pages_for 2) }
{
    let mut pages = Listed::new(alloc);
    add_pages(&mut pages, 1)?;
    add_pages(&mut pages, 2)?;
    Ok(pages)
}

// The word of a table that leads to the next table.
#[tactic(auto, unfolding(snp_model::specs::Generated::table_word))]
fn table_word(guest: u8, level: u32) -> WordSpec
    requires { (guest ≤ 2) × (level < 3) }
    ensures { result ≡ table_word guest level }
{
    let frame = 16 * u32::from(guest) + level;
    WordSpec {
        frame,
        index: 0,
        value: mapping(frame + 1),
    }
}

// The word of the last table that maps a page.
#[tactic(auto, unfolding(snp_model::specs::Generated::leaf_word))]
fn leaf_word(guest: u8, gpn: u32) -> WordSpec
    requires { (guest ≤ 2) × (gpn < 16) }
    ensures { result ≡ leaf_word guest gpn }
{
    WordSpec {
        frame: 16 * u32::from(guest) + 3,
        index: gpn as u16,
        value: mapping(64 * u32::from(guest) + gpn),
    }
}

// Adds the words of the tables that lead to a guest's last one.
fn add_table_words(words: &mut Listed<WordSpec>, guest: u8) -> Result<(), AllocError>
    requires { guest ≤ 2 }
    ensures { OnOk result (words.new ≡ words.old ++ map (table_word guest) (range_with_len 0 3)) }
{
    'tables: for level in 0..3 {
        words.push(table_word(guest, level))?;
    }
    Ok(())
}

// Adds the words of a guest's last table.
fn add_leaf_words(words: &mut Listed<WordSpec>, guest: u8) -> Result<(), AllocError>
    requires { guest ≤ 2 }
    ensures { OnOk result (words.new ≡ words.old ++ map (leaf_word guest) (range_with_len 0 16)) }
{
    'leaves: for gpn in 0..16 {
        words.push(leaf_word(guest, gpn))?;
    }
    Ok(())
}

// Adds the words of a guest's tables.
fn add_words(words: &mut Listed<WordSpec>, guest: u8) -> Result<(), AllocError>
    requires { guest ≤ 2 }
    ensures { OnOk result (words.new ≡ words.old ++ words_for guest) }
{
    add_table_words(words, guest)?;
    add_leaf_words(words, guest)?;
    Ok(())
}

/// The words of both guests' tables.
pub fn words(alloc: Global) -> Result<Listed<WordSpec>, AllocError>
    ensures { IfOk result (λ words. words ≡ words_for 1 ++ words_for 2) }
{
    let mut words = Listed::new(alloc);
    add_words(&mut words, 1)?;
    add_words(&mut words, 2)?;
    Ok(words)
}

// A processor of a guest.
fn processor(guest: u8) -> Role
    requires { guest ≤ 2 }
    ensures { result ≡ processor guest }
{
    Role::Cpu {
        guest,
        vmpl: 0,
        npt: 16 * u32::from(guest),
        paging: Paging::Flat,
    }
}

/// What the actors are.
#[tactic(auto, unfolding(snp_model::specs::Generated::roles))]
pub fn roles() -> [Role; 8]
    ensures { result ≡ roles }
{
    [
        processor(1),
        processor(1),
        processor(2),
        processor(2),
        Role::Host,
        Role::Host,
        Role::Firmware,
        Role::Firmware,
    ]
}
