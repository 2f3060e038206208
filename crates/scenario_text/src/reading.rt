ghost use Rattle.std.specs.Prelude.{◌≡◌, ◌==◌, ◌||◌, ◌&&◌, length, slice_index, nat_le, not, bytes_eq, Result};
ghost use Rattle.snp_model.specs.Lines.{word, is_row};
ghost use Rattle.snp_model.specs.declared.scenario.Scenario.{Scenario};
ghost use Rattle.snp_model.specs.ScenarioLines.{
  has_no,
  before_orders,
  before_actors,
  before_words,
  before_pages,
  first_scenario,
  version_row,
  is_order_row,
};
ghost use Rattle.snp_model.specs.Reading.{add_words, fit_words, fit_line, fit, by_rule, nothing, reading, closed};
ghost use Rattle.snp_model.specs.Reading as says;
ghost use Rattle.scenario_text.specs.Steps.{made_of, Grows, Continues, Changes, IsClosed};
ghost use Rattle.scenario_text.specs.declared.draft.Made.TheVariants.{Nothing};

use crate::draft::{Draft, Made, Next};
use crate::fault::LineFault;
use crate::rows::{read_cpu, read_role, read_tables, read_version};
use script_text::number::is_word;
use script_text::words::{Words, is_passed_over};
use snp_model::{Reason, Scenario};
use std::alloc::Global;
use std::mem;

// Whether nothing stands yet that comes after the orders.
fn before_orders(scenario: &Scenario) -> bool
    ensures { result ≡ before_orders scenario.now }
{
    scenario.regions != 0 && scenario.order.is_empty()
}

// The same of actors.
fn before_actors(scenario: &Scenario) -> bool
    ensures { result ≡ before_actors scenario.now }
{
    before_orders(scenario) && scenario.actors.is_empty()
}

// The same of words.
fn before_words(scenario: &Scenario) -> bool
    ensures { result ≡ before_words scenario.now }
{
    before_actors(scenario) && scenario.words.is_empty()
}

// The same of pages.
fn before_pages(scenario: &Scenario) -> bool
    ensures { result ≡ before_pages scenario.now }
{
    before_words(scenario) && scenario.pages.is_empty()
}

// Whether the words are of the row with this first word and count, and it may stand here.
fn stands(words: &Words<'_>, name: &[u8], count: usize, here: bool) -> bool
    ensures { result ≡ (is_row words.now name.now count && here) }
{
    words.is_row(name, count) && here
}

// The same of the line `order`.
fn order_stands(words: &Words<'_>, here: bool) -> bool
    ensures { result ≡ (is_order_row words.now && here) }
{
    words.count() >= 2 && is_word(words.at(0), b"order") && here
}

// A line that was added, after which the text goes on.
fn goes_on(grown: Result<(), LineFault>) -> Result<Next, LineFault>
    ensures { (scenario : Scenario) (answer : Result says.Made says.Fault) → Grows grown scenario answer → Continues result scenario answer }
{
    match grown {
        Ok(()) => Ok(Next::Goes),
        Err(fault) => Err(fault),
    }
}

// What the words of a line make of a scenario.
#[tactic(auto, unfolding(snp_model::specs::Reading::add_words))]
fn add_words(draft: &mut Draft, alloc: Global, words: &Words<'_>) -> Result<Next, LineFault>
    ensures { Continues result draft.new.scenario (add_words draft.old.scenario words.now) }
{
    let scenario = &draft.scenario;
    if stands(words, b"regions", 2, scenario.regions == 0) {
        goes_on(draft.add_regions(words))
    } else if stands(words, b"guest", 9, before_pages(scenario)) {
        goes_on(draft.add_guest(words))
    } else if stands(words, b"page", 11, before_words(scenario)) {
        goes_on(draft.add_page(alloc, words))
    } else if stands(words, b"word", 4, before_actors(scenario)) {
        goes_on(draft.add_word(words))
    } else if stands(words, b"actor", 9, before_orders(scenario)) {
        let role = read_cpu(scenario, words);
        goes_on(draft.add_actor(alloc, role))
    } else if stands(words, b"actor", 10, before_orders(scenario)) {
        let role = read_tables(scenario, words);
        goes_on(draft.add_actor(alloc, role))
    } else if stands(words, b"actor", 3, before_orders(scenario)) {
        let role = read_role(scenario, words);
        goes_on(draft.add_actor(alloc, role))
    } else if order_stands(words, scenario.regions != 0) {
        goes_on(draft.add_order(words))
    } else if stands(words, b"end", 1, scenario.regions != 0) {
        Ok(Next::Ends)
    } else {
        goes_on(draft.add_item(alloc, words))
    }
}

// What a line makes where no line has said the version yet.
#[tactic(auto, unfolding(snp_model::specs::Reading::fit_line))]
fn fit_first<'a>(
    made: &mut Made,
    alloc: Global,
    words: &mut Words<'a>,
    line: &'a [u8],
) -> Result<(), LineFault>
    requires { made.old ≡ Nothing }
    ensures { Changes result made.new (fit_line nothing line.now) }
{
    if is_passed_over(line) {
        return Ok(());
    }
    if !words.split(line) {
        return Err(LineFault::Refused(Reason::Form));
    }
    let version = read_version(words)?;
    *made = Made::Reading(Draft::new(alloc, version));
    Ok(())
}

// What a line makes of a scenario.
#[tactic(auto, unfolding(snp_model::specs::Reading::fit_line))]
fn fit_next<'a>(
    draft: &mut Draft,
    alloc: Global,
    words: &mut Words<'a>,
    line: &'a [u8],
) -> Result<Next, LineFault>
    ensures { Continues result draft.new.scenario (fit_line (reading draft.old.scenario) line.now) }
{
    if is_passed_over(line) {
        return Ok(Next::Goes);
    }
    if words.split(line) {
        add_words(draft, alloc, words)
    } else {
        Err(LineFault::Refused(Reason::Form))
    }
}

// Closes a scenario that was being read.
fn close(made: &mut Made)
    ensures { IsClosed made.old made.new }
{
    match mem::replace(made, Made::Nothing) {
        Made::Nothing => {}
        Made::Reading(draft) => *made = Made::Closed(draft.scenario),
        Made::Closed(scenario) => *made = Made::Closed(scenario),
    }
}

/// What a line makes of what is made so far, or why it doesn't fit. Its words are kept in a place that serves every line.
#[tactic(auto, unfolding(snp_model::specs::Reading::fit))]
pub fn fit<'a>(
    alloc: Global,
    made: &mut Made,
    words: &mut Words<'a>,
    line: &'a [u8],
) -> Result<(), LineFault>
    ensures { Changes result made.new (fit (made_of made.old) line.now) }
{
    match made {
        Made::Nothing => fit_first(made, alloc, words, line),
        Made::Reading(draft) => match fit_next(draft, alloc, words, line) {
            Ok(Next::Goes) => Ok(()),
            Ok(Next::Ends) => {
                close(made);
                Ok(())
            }
            Err(fault) => Err(fault),
        },
        Made::Closed(_) => Err(LineFault::Refused(Reason::After)),
    }
}
