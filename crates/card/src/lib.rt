// The card: 8 configuration words, the map, the places. The formatter, and the number of a configuration.

#![tactic(auto)]

ghost use Rattle.std.specs.Prelude.{◌≡◌, cond, ◌&&◌, ◌≤◌, ltb, eqb};
ghost use Rattle.pair.specs.Tests.{first_of};
ghost use Rattle.block.specs.Block.{block_size_most};
ghost use Rattle.card.specs.Layout.{place_count_most, width_of, card_length, in_limits, format_number, formatted};
ghost use Rattle.card.specs.Sound.{configuration_conditions};
ghost use Rattle.refusal.specs.Refusal.{number_of};

use layout::{
    BOUNDARY_POSITION_AT, BOUNDARY_TERM_AT, CONFIGURATION_WORDS, Configuration, FORMAT_AT,
    NEW_LENGTH_AT, OLD_LENGTH_AT, OLD_START_AT, PLACES_AT, SIZE_AT,
};
use refusal::Refusal;

pub mod layout; // where the parts of a card stand

const FORMAT: u32 = 1;

const BLOCK_SIZE_LEAST: u32 = 8;

const BLOCK_SIZE_MOST: u32 = 1024;

const PLACE_COUNT_LEAST: u32 = 2;

const PLACE_COUNT_MOST: u32 = 1024;

// Whether a block size and a count of places are within their limits.
fn in_limits(b: u32, n: u32) -> bool
    ensures { result ≡ in_limits b n }
{
    (BLOCK_SIZE_LEAST..=BLOCK_SIZE_MOST).contains(&b)
        && (PLACE_COUNT_LEAST..=PLACE_COUNT_MOST).contains(&n)
}

// The words of a card of a format.
fn card_length(format: u32, b: u32, n: u32) -> usize
    requires { (b ≤ block_size_most) × (n ≤ place_count_most) }
    ensures { result ≡ card_length (width_of format) b n }
{
    let width = layout::width_of(format);
    CONFIGURATION_WORDS + width as usize * n as usize + n as usize * b as usize
}

// Writes the configuration of an empty card, and nothing else.
#[tactic(auto, unfolding(pair::specs::Tests::first_of, crate::specs::Layout::format_number, crate::specs::Layout::formatted, crate::specs::code::Configuration::put))]
pub fn format(card: &mut [u32], b: u32, n: u32) -> Result<(), Refusal>
    ensures number { number_of result ≡ format_number card.old b n }
    ensures written { card.new ≡ formatted card.old b n }
{
    if !in_limits(b, n) {
        return Err(Refusal::OutsideLimits);
    }
    if card.len() != card_length(FORMAT, b, n) {
        return Err(Refusal::WrongLength);
    }
    let fresh = Configuration {
        format: FORMAT,
        size: b as u16,
        places: n as u16,
        old_start: 0,
        old_length: 0,
        new_length: 0,
        boundary: 0,
    };
    fresh.put(card);
    Ok(())
}

// Whether the boundary words agree with the length of the new segment: both 0 where it is 0, a pair where it is not.
fn boundary_agrees(new_length: u32, term: u32, position: u32) -> bool
    ensures { result ≡ cond (eqb new_length 0) (eqb term 0 && eqb position 0) (ltb 0 term && ltb 0 position) }
{
    if new_length == 0 {
        term == 0 && position == 0
    } else {
        pair::is_pair(term, position)
    }
}

// Refuses a card whose length or configuration words are not in order.
#[tactic(auto, unfolding(pair::specs::Tests::first_of, crate::specs::Sound::boundary_agrees))]
pub fn check_configuration(card: &[u32]) -> Result<(), Refusal>
    ensures { number_of result ≡ first_of (configuration_conditions card.now) }
{
    if card.len() < CONFIGURATION_WORDS {
        return Err(Refusal::WrongLength);
    }
    let format = card[FORMAT_AT];
    if format != FORMAT {
        return Err(Refusal::UnknownFormat);
    }
    let b = card[SIZE_AT];
    let n = card[PLACES_AT];
    if !in_limits(b, n) {
        return Err(Refusal::BadConfiguration);
    }
    if card.len() != card_length(format, b, n) {
        return Err(Refusal::WrongLength);
    }
    if n <= card[OLD_START_AT] {
        return Err(Refusal::BadConfiguration);
    }
    let live = card[OLD_LENGTH_AT] as u64 + card[NEW_LENGTH_AT] as u64;
    let most = (n - 1) as u64;
    if most < live {
        return Err(Refusal::BadConfiguration);
    }
    if !boundary_agrees(
        card[NEW_LENGTH_AT],
        card[BOUNDARY_TERM_AT],
        card[BOUNDARY_POSITION_AT],
    ) {
        return Err(Refusal::BadConfiguration);
    }
    Ok(())
}
