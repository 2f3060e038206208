ghost use Rattle.std.specs.Prelude.{◌≡◌, length};
ghost use Rattle.snp_model.specs.MeasureText.{add_content, add_launch, hashing, is_ended, measure_line, measure_words, with_last};
ghost use Rattle.measure_text.specs.Steps.{Changes, Grows, made_of};

use crate::page::{Page, read_title};
use launch_digest::Digest;
use script_text::words::{Words, is_passed_over};
use snp_model::Reason;

/// The pages that are read so far.
#[derive(Drop)]
pub struct Tally {
    /// The digest of all pages but the last.
    pub digest: Digest,
    /// The last one, with the words that it has so far.
    pub last: Option<Page>,
}

/// What is made so far.
#[derive(Drop)]
pub enum Made {
    /// Nothing before the line that says the version.
    Untitled,
    /// Pages.
    Paged(Tally),
    /// The digest of a text that ended.
    Ended(Digest),
}

// The digest of all pages.
fn with_last(tally: &Tally) -> Digest
    ensures { result ≡ with_last hashing tally.now.digest tally.now.last }
{
    let mut digest = tally.digest;
    if let Some(page) = &tally.last {
        page.add_to(&mut digest);
    }
    digest
}

impl Tally {
    /// `page T P I X Y Z`, behind which the last page is whole.
    pub fn add_page(&mut self, words: &Words<'_>) -> Result<(), Reason>
        requires { length words.now ≡ 7 }
        ensures { Grows result self.new (add_launch hashing self.old.digest self.old.last words.now) }
    {
        let page = Page::read(words)?;
        self.digest = with_last(self);
        self.last = Some(page);
        Ok(())
    }

    /// `word I V`, of the last page.
    pub fn add_word(&mut self, words: &Words<'_>) -> Result<(), Reason>
        requires { length words.now ≡ 3 }
        ensures { Grows result self.new (add_content self.old.digest self.old.last words.now) }
    {
        match &mut self.last {
            Some(page) => page.read_word(words),
            None => Err(Reason::Form),
        }
    }
}

// What the words of a line make of the pages so far.
#[tactic(auto, unfolding(snp_model::specs::MeasureText::add_measured))]
fn add_words(made: &mut Made, words: &Words<'_>) -> Result<(), Reason>
    ensures { Changes result made.new (measure_words hashing (made_of made.old) words.now) }
{
    match made {
        Made::Untitled => {
            read_title(words)?;
            *made = Made::Paged(Tally {
                digest: Digest::zero(),
                last: None,
            });
            Ok(())
        }
        Made::Paged(tally) => {
            if words.is_row(b"page", 7) {
                tally.add_page(words)
            } else if words.is_row(b"word", 3) {
                tally.add_word(words)
            } else if words.is_row(b"end", 1) {
                *made = Made::Ended(with_last(tally));
                Ok(())
            } else {
                Err(Reason::Form)
            }
        }
        Made::Ended(_) => Err(Reason::After),
    }
}

/// What a line makes of what is made so far, or why it doesn't fit. Its words are kept in a place that serves every line.
#[tactic(auto, unfolding(snp_model::specs::MeasureText::measure_line))]
pub fn fit<'a>(made: &mut Made, words: &mut Words<'a>, line: &'a [u8]) -> Result<(), Reason>
    ensures { Changes result made.new (measure_line hashing (made_of made.old) line.now) }
{
    if made.is_ended() {
        return Err(Reason::After);
    }
    if is_passed_over(line) {
        return Ok(());
    }
    if words.split(line) {
        add_words(made, words)
    } else {
        Err(Reason::Form)
    }
}

impl Made {
    // Whether the line `end` has come.
    fn is_ended(&self) -> bool
        ensures { result ≡ is_ended (made_of self.now) }
    {
        match self {
            Made::Untitled => false,
            Made::Paged(_) => false,
            Made::Ended(_) => true,
        }
    }
}
