// The rounds that a batch annuls: its leading records of kind 3. They start anew in every term, so where they reach to is worked out once in a
// step, and how many start at or below a position is sought by halving, unless it is as many as at the last question, or one more.
ghost use Rattle.std.specs.Prelude.{◌≡◌, ◌&&◌, leb, ltb, ◌≤◌, ◌<◌, min, get_or, length, take};
ghost use Rattle.std.specs.List.{list_any};
ghost use Rattle.std.proofs.lemmas.List.Edits.{sets};
ghost use Rattle.batch.specs.Batch.{updates};
ghost use Rattle.batch.specs.code.Records.{record_of, updates_of};
ghost use Rattle.batch.specs.code.Rounds.{starts, round_reaches, halving, stands, begun, reached};
ghost use Rattle.batch.specs.code.Untouched.{before_round};

use crate::reading::{Record, RecordWords, records_of};

// Writes, for each leading record of kind 3, the greatest position that it and those before it reach to, as far as there is room; says how
// many it wrote.
pub fn fill_reaches(batch: &[u32], reaches: &mut [u32]) -> usize
    ensures { (result ≡ min (length reaches.old) (length (round_reaches (updates batch.now)))) × (reaches.new ≡ sets reaches.old 0 (round_reaches (updates batch.now))) }
{
    let records = records_of(batch);
    let mut reach: u32 = 0;
    for (n, words) in records.iter().enumerate() {
        let u = Record::of(words);
        if n == reaches.len() || !u.is_round() {
            return n;
        }
        reach = reach.max(u.to);
        reaches[n] = reach;
    }
    records.len()
}

// Records that may be rounds, and where these reach to: for each the greatest position that it and those before it reach to.
#[derive(Clone, Copy)]
pub(crate) struct Rounds<'a> {
    pub(crate) records: &'a [RecordWords],
    pub(crate) reaches: &'a [u32],
    ghost paired: { length records.now ≡ length reaches.now },
}

impl<'a> Rounds<'a> {
    // As many records as there are places that they reach to.
    pub(crate) fn of(records: &'a [RecordWords], reaches: &'a [u32]) -> Rounds<'a>
        ensures records { result.records.now ≡ take (min (length reaches.now) (length records.now)) records.now }
        ensures reaches { result.reaches.now ≡ take (min (length reaches.now) (length records.now)) reaches.now }
    {
        let count = reaches.len().min(records.len());
        Rounds {
            records: &records[..count],
            reaches: &reaches[..count],
        }
    }

    // The first so many of them.
    pub(crate) fn first(self, count: usize) -> Rounds<'a>
        requires { count ≤ length self.records.now }
        ensures records { result.records.now ≡ take count self.entry.records.now }
        ensures reaches { result.reaches.now ≡ take count self.entry.reaches.now }
    {
        Rounds {
            records: &self.records[..count],
            reaches: &self.reaches[..count],
        }
    }

    // Where one of them starts.
    fn start(self, n: usize) -> u64
        requires { n < length self.records.now }
        ensures { result ≡ get_or (starts (updates_of self.entry.records.now)) n 0 }
    {
        Record::of(&self.records[n]).first_rank()
    }

    // How many of them start at or below a position, found by halving: partition_point says nothing of records that are out of order.
    fn halve(self, position: u32) -> usize
        ensures { result ≡ halving (starts (updates_of self.entry.records.now)) position (length self.entry.records.now) 0 (length self.entry.records.now) }
    {
        let position = u64::from(position);
        let mut low: usize = 0;
        let mut high = self.records.len();
        while low < high {
            let middle = low + (high - low) / 2;
            if self.start(middle) <= position {
                low = middle + 1;
            } else {
                high = middle;
            }
        }
        low
    }

    // Whether just so many of them start at or below a position, by the two beside that place.
    #[tactic(auto, unfolding(crate::specs::code::Rounds::stands))]
    fn stands(self, at: usize, position: u32) -> bool
        ensures { result ≡ stands (starts (updates_of self.entry.records.now)) (length self.entry.records.now) at position }
    {
        let position = u64::from(position);
        let count = self.records.len();
        at <= count
            && (at == 0 || self.start(at - 1) <= position)
            && (at == count || position < self.start(at))
    }

    // How many of them start at or below a position; at is how many did at the last question.
    pub(crate) fn begun(self, at: usize, position: u32) -> usize
        ensures value { result ≡ begun (starts (updates_of self.entry.records.now)) (length self.entry.records.now) at position }
        ensures few { result ≤ length self.entry.records.now }
    {
        if self.stands(at, position) {
            return at;
        }
        if at < self.records.len() && self.stands(at + 1, position) {
            return at + 1;
        }
        self.halve(position)
    }

    // Whether they reach to a position.
    pub(crate) fn reach_to(self, position: u32) -> bool
        ensures { result ≡ reached self.entry.reaches.now (length self.entry.reaches.now) position }
    {
        match self.reaches.last() {
            Some(&reach) => position <= reach,
            None => false,
        }
    }

    // Whether one of them reaches to a position and arrived after an addition.
    pub(crate) fn annul_later(self, position: u32, arrived: u32) -> bool
        ensures { result ≡ list_any (λ ws. leb position (record_of ws).to && ltb arrived (record_of ws).arrival) self.entry.records.now }
    {
        self.records.iter().any(|words| {
            let u = Record::of(words);
            position <= u.to && arrived < u.arrival
        })
    }

    // Up to which position, and to another at most, they leave positions behind one: up to where the next of them starts; 0 where one reaches
    // to it.
    pub(crate) fn before(self, at: usize, position: u32, to: u32) -> u32
        ensures { result ≡ before_round (starts (updates_of self.entry.records.now)) self.entry.reaches.now (length self.entry.records.now) at position to }
    {
        let begun = self.begun(at, position);
        if self.first(begun).reach_to(position) {
            return 0;
        }
        if begun == self.records.len() {
            return to;
        }
        let start = self.start(begun);
        u64::from(to).min(start.saturating_sub(1)) as u32
    }
}
