ghost use Rattle.std.specs.Prelude.{◌≡◌, true, ◌<◌, ◌^◌, length, IfOk};
ghost use Rattle.snp_model.specs.Measurement.{digest_after};
ghost use Rattle.snp_model.specs.MeasureText.{content_row, is_launched, launch_row, launch_type, title_row};
ghost use Rattle.measure_text.specs.Steps.{Contains};

use launch_digest::Digest;
use script_text::instructions::read_flag;
use script_text::number::{read_below, read_fixed, read_number};
use script_text::words::Words;
use snp_model::Reason;
use std::marker::Model;

/// The page type ZERO, whose words stay zero.
const ZERO: u8 = 3;

/// A page of a measure text with the words that it has so far; contracts see the page that is launched.
#[derive(Drop)]
pub struct Page {
    page_type: u8,
    imi: bool,
    perms: [u8; 3],
    gpn: u64,
    words: [u64; 512],
    ghost launched: { is_launched page_type ≡ true },
    ghost in_range: { gpn < 2 ^ 36 },
}

impl Model for Page {
    ghost use Rattle.snp_model.specs.Measurement.{LaunchedPage};

    ghost Value = { LaunchedPage };

    ghost view = { λ page. record {
      page_type = page.page_type;
      imi = page.imi;
      perms = page.perms;
      gpn = page.gpn;
      words = page.words;
    } };
}

impl Page {
    /// `page T P I X Y Z`
    #[tactic(auto, unfolding(snp_model::specs::MeasureText::launch_row))]
    pub fn read(words: &Words<'_>) -> Result<Page, Reason>
        requires { length words.now ≡ 7 }
        ensures { result ≡ launch_row words.now }
    {
        let page_type = read_launch_type(words.at(1))?;
        let gpn = read_below(1 << 36, words.at(2))?;
        let imi = read_flag(words.at(3))?;
        let first = read_below(16, words.at(4))?;
        let second = read_below(16, words.at(5))?;
        let third = read_below(16, words.at(6))?;
        Ok(Page {
            page_type,
            imi,
            perms: [first as u8, second as u8, third as u8],
            gpn,
            words: [0; 512],
        })
    }

    /// `word I V`
    #[tactic(auto, unfolding(snp_model::specs::MeasureText::content_row))]
    pub fn read_word(&mut self, words: &Words<'_>) -> Result<(), Reason>
        requires { length words.now ≡ 3 }
        ensures { Contains result self.new (content_row self.old words.now) }
    {
        let index = read_below(512, words.at(1))?;
        let value = read_number(words.at(2))?;
        if self.page_type != ZERO {
            self.words[index as usize] = value;
        }
        Ok(())
    }

    /// Takes the page into the digest of those before it.
    pub fn add_to(&self, digest: &mut Digest)
        ensures { digest.new ≡ digest_after digest.old self.now }
    {
        digest.extend(self.page_type, self.imi, self.perms, self.gpn, &self.words);
    }
}

// Whether pages of a type are launched.
fn is_launched(page_type: u64) -> bool
    ensures { result ≡ is_launched page_type }
{
    page_type == 1 || (page_type == 3 || page_type == 4)
}

// The type of a page that is launched.
#[tactic(auto, unfolding(snp_model::specs::MeasureText::launch_type))]
fn read_launch_type(word: &[u8]) -> Result<u8, Reason>
    ensures read { result ≡ launch_type word.now }
    ensures launched { IfOk result (λ n. is_launched n ≡ true) }
{
    let n = read_number(word)?;
    if is_launched(n) {
        Ok(n as u8)
    } else {
        Err(Reason::Range)
    }
}

/// `snp-measure 1`
#[tactic(auto, unfolding(snp_model::specs::MeasureText::title_row))]
pub fn read_title(words: &Words<'_>) -> Result<(), Reason>
    ensures { result ≡ title_row words.now }
{
    if words.is_row(b"snp-measure", 2) {
        read_fixed(words.at(1), b"1")
    } else {
        Err(Reason::Form)
    }
}
