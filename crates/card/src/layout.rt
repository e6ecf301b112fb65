// Where the parts of a card stand: its configuration read once, its map entries and its places. Every function takes any words whatever.
ghost use Rattle.std.specs.Prelude.{◌≡◌, take, drop};
ghost use Rattle.card.specs.Layout.{word, width_of, entry_at, entry, first_pair, place_at, place};
ghost use Rattle.card.specs.code.Configuration.{short, ConfigurationOf, put, place_on};

use pair::Pair;

// The words before the map.
pub const CONFIGURATION_WORDS: usize = 8;

// Where each of them stands.
pub(crate) const FORMAT_AT: usize = 0;

pub(crate) const SIZE_AT: usize = 1;

pub(crate) const PLACES_AT: usize = 2;

pub(crate) const OLD_START_AT: usize = 3;

pub(crate) const OLD_LENGTH_AT: usize = 4;

pub(crate) const NEW_LENGTH_AT: usize = 5;

pub(crate) const BOUNDARY_TERM_AT: usize = 6;

pub(crate) const BOUNDARY_POSITION_AT: usize = 7;

// What the configuration words say. A field of 16 bits is its word's remainder by 65,536: of a sound card, the word.
#[derive(Clone, Copy)]
pub struct Configuration {
    pub format: u32,
    pub size: u16,
    pub places: u16,
    pub old_start: u16,
    pub old_length: u16,
    pub new_length: u16,
    pub boundary: u64,
}

// A word of a card, 0 beyond its end.
fn word(card: &[u32], at: usize) -> u32
    ensures { result ≡ word card.now at }
{
    card.get(at).copied().unwrap_or(0)
}

// Its remainder by 65,536.
fn short(card: &[u32], at: usize) -> u16
    ensures { result ≡ short (word card.now at) }
{
    (word(card, at) % 65536) as u16
}

impl Configuration {
    // What the configuration words of a card say.
    pub fn of(card: &[u32]) -> Configuration
        ensures { ConfigurationOf card.now result }
    {
        let boundary = Pair {
            term: word(card, BOUNDARY_TERM_AT),
            position: word(card, BOUNDARY_POSITION_AT),
        };
        Configuration {
            format: word(card, FORMAT_AT),
            size: short(card, SIZE_AT),
            places: short(card, PLACES_AT),
            old_start: short(card, OLD_START_AT),
            old_length: short(card, OLD_LENGTH_AT),
            new_length: short(card, NEW_LENGTH_AT),
            boundary: boundary.rank(),
        }
    }

    // Writes the configuration words, where there are words enough.
    #[tactic(auto, unfolding(crate::specs::code::Configuration::put))]
    pub fn put(self, words: &mut [u32])
        ensures { words.new ≡ put words.old self }
    {
        if words.len() < CONFIGURATION_WORDS {
            return;
        }
        let bound = Pair::of_rank(self.boundary);
        words[FORMAT_AT] = self.format;
        words[SIZE_AT] = self.size as u32;
        words[PLACES_AT] = self.places as u32;
        words[OLD_START_AT] = self.old_start as u32;
        words[OLD_LENGTH_AT] = self.old_length as u32;
        words[NEW_LENGTH_AT] = self.new_length as u32;
        words[BOUNDARY_TERM_AT] = bound.term;
        words[BOUNDARY_POSITION_AT] = bound.position;
    }

    // The place j places on from a place, around the circle; 0 where there are no places.
    #[tactic(auto, unfolding(crate::specs::code::Configuration::place_on))]
    pub fn place_on(self, start: u16, j: u16) -> u16
        ensures { result ≡ place_on self.places start j }
    {
        let places = self.places as u32;
        if places == 0 {
            return 0;
        }
        ((start as u32 + j as u32) % places) as u16
    }

    // The first place of the new segment.
    pub fn new_start(self) -> u16
        ensures { result ≡ place_on self.places self.old_start self.old_length }
    {
        self.place_on(self.old_start, self.old_length)
    }

    // The place after the new segment.
    pub fn due_place(self) -> u16
        ensures { result ≡ place_on self.places (place_on self.places self.old_start self.old_length) self.new_length }
    {
        self.place_on(self.new_start(), self.new_length)
    }
}

// The words of a map entry in a format.
#[tactic(auto, unfolding(crate::specs::Layout::width_of))]
pub fn width_of(format: u32) -> u16
    ensures { result ≡ width_of format }
{
    2
}

// Where the map entry of a place starts.
pub fn entry_start(card: &[u32], i: u16) -> usize
    ensures { result ≡ entry_at card.now i }
{
    let width = width_of(word(card, FORMAT_AT));
    CONFIGURATION_WORDS + width as usize * i as usize
}

// The rank of the map's pair for a place.
#[tactic(auto, unfolding(crate::specs::Layout::first_pair, crate::specs::Layout::width_of))]
pub fn first_pair(card: &[u32], i: u16) -> u64
    ensures { result ≡ first_pair card.now i }
{
    let at = entry_start(card, i);
    let pair = Pair {
        term: word(card, at),
        position: word(card, at + 1),
    };
    pair.rank()
}

// Where a place starts.
pub fn place_start(card: &[u32], i: u16) -> usize
    ensures { result ≡ place_at card.now i }
{
    let width = width_of(word(card, FORMAT_AT));
    let size = word(card, SIZE_AT) as usize;
    let places = word(card, PLACES_AT) as usize;
    CONFIGURATION_WORDS + width as usize * places + i as usize * size
}

// So many words from one on, as far as the card has them.
fn part(card: &[u32], start: usize, count: usize) -> &[u32]
    ensures { result.now ≡ take count (drop start card.now) }
{
    let rest = &card[start.min(card.len())..];
    &rest[..count.min(rest.len())]
}

// The words of a map entry.
pub fn entry(card: &[u32], i: u16) -> &[u32]
    ensures { result.now ≡ entry card.now i }
{
    let width = width_of(word(card, FORMAT_AT));
    part(card, entry_start(card, i), width as usize)
}

// The words of a place.
#[tactic(auto, unfolding(crate::specs::Layout::place))]
pub fn place(card: &[u32], i: u16) -> &[u32]
    ensures { result.now ≡ place card.now i }
{
    let size = word(card, SIZE_AT);
    part(card, place_start(card, i), size as usize)
}
