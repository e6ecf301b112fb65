// A batch of updates: records of five words, kind, term, from, to and arrival number.

#![tactic(auto)]

ghost use Rattle.std.specs.Prelude.{◌≡◌, ◌≤◌, ◌<◌, [], ◌∷◌, eqb, length};
ghost use Rattle.std.proofs.lemmas.List.Edits.{sets};
ghost use Rattle.refusal.specs.Refusal.{number_of};
ghost use Rattle.pair.specs.Rank.{position};
ghost use Rattle.pair.specs.Rising.{any};
ghost use Rattle.batch.specs.Batch.{updates, any_update, ill_formed, arrivals, ill_numbered, falls, batch_number};
ghost use Rattle.batch.specs.code.Records.{updates_of};
ghost use Rattle.batch.specs.code.Search.{update_of, next_addition, behind, latest_with, latest_of, none, passing, renewed, removal, annulled, decided};
ghost use Rattle.batch.specs.code.Untouched.{untouched, quiet_before};

use pair::Pair;
use reading::{Kind, RECORD_WORDS, Record, RecordWords, records_of};
use refusal::Refusal;
use rounds::Rounds;

mod reading;
pub mod rounds;

// The most records of a batch.
pub const RECORDS_MOST: usize = 4_096;

// Writes the arrival numbers of the records into a memory that has room for them; says whether one is 0.
fn fill_arrivals(records: &[RecordWords], numbers: &mut [u32]) -> bool
    requires { length records.now ≤ length numbers.old }
    ensures value { result ≡ any (eqb 0) (arrivals (updates_of records.now)) }
    ensures numbers_after { numbers.new ≡ sets numbers.old 0 (arrivals (updates_of records.now)) }
{
    let mut unnumbered = false;
    for (n, words) in records.iter().enumerate() {
        let arrival = Record::of(words).arrival;
        unnumbered = unnumbered | (0 == arrival);
        numbers[n] = arrival;
    }
    unnumbered
}

// Whether an arrival number is 0 or used twice. Its tables are not a part of what a refusal before it takes of the stack.
#[inline(never)]
fn ill_numbered(records: &[RecordWords]) -> bool
    requires { length records.now ≤ 4096 }
    ensures { result ≡ ill_numbered (updates_of records.now) }
{
    let mut numbers = [0u32; RECORDS_MOST];
    if fill_arrivals(records, &mut numbers) {
        return true;
    }
    repeat::repeats(&numbers, records.len())
}

// What a walk over the records tells: whether one is ill formed, and whether one starts before the one before it.
#[derive(Clone, Copy)]
struct Seen {
    ill_formed: bool,
    falls: bool,
}

// Looks at each record once. It goes over all of them, so that it is vectorised.
fn survey(records: &[RecordWords]) -> Seen
    ensures formed { result.ill_formed ≡ any_update ill_formed (updates_of records.now) }
    ensures ordered { result.falls ≡ falls 0 (updates_of records.now) }
{
    let mut ill_formed = false;
    let mut falls = false;
    let mut before: u64 = 0;
    for words in records {
        let u = Record::of(words);
        let rank = u.first_rank();
        ill_formed = ill_formed | u.is_ill_formed();
        falls = falls | (rank < before);
        before = rank;
    }
    Seen { ill_formed, falls }
}

// Checks that a batch is in order.
pub fn check(batch: &[u32]) -> Result<(), Refusal>
    ensures { number_of result ≡ batch_number batch.now }
{
    let records = records_of(batch);
    if batch.len() % RECORD_WORDS != 0 || RECORDS_MOST < records.len() {
        return Err(Refusal::IllFormed);
    }
    let seen = survey(records);
    if seen.ill_formed {
        return Err(Refusal::IllFormed);
    }
    if ill_numbered(records) {
        return Err(Refusal::IllNumbered);
    }
    if seen.falls {
        return Err(Refusal::OrderFalls);
    }
    Ok(())
}

// Where a search for an addition ended: the number of its record, and its pair's rank; behind the records where there is none.
#[derive(Clone, Copy)]
pub struct Addition {
    pub at: usize,
    pub rank: Option<u64>,
}

// The first addition above a rank, from a record on.
pub fn next_addition(batch: &[u32], from: usize, above: u64) -> Addition
    ensures { result ≡ next_addition batch.now from above }
{
    let records = records_of(batch);
    for n in from..records.len() {
        let u = Record::of(&records[n]);
        if u.adds_above(above) {
            return Addition {
                at: n,
                rank: Some(u.first_rank()),
            };
        }
    }
    Addition {
        at: from.max(records.len()),
        rank: None,
    }
}

// Records passed by questions with rising ranks: the next record, how many there are up to the last removal of a term before it, the greatest
// rank that these reach to, the greatest arrival number of the rounds before it, the rank of the last addition before it, and the greatest
// arrival number of the additions of that rank.
#[derive(Clone, Copy)]
pub struct Passed {
    pub next: usize,
    pub rounds: u32,
    pub removals: usize,
    pub reach: u64,
    pub added: u64,
    pub arrived: u32,
}

impl Passed {
    // With one record more.
    fn with(self, u: Record) -> Passed
        requires { self.next < usize.MAX }
        ensures { result ≡ behind self (update_of u ∷ []) }
    {
        let next = self.next + 1;
        match u.kind() {
            Some(Kind::Adds) => {
                let added = u.first_rank();
                let arrived = if added == self.added {
                    self.arrived.max(u.arrival)
                } else {
                    u.arrival
                };
                Passed {
                    next,
                    added,
                    arrived,
                    ..self
                }
            }
            Some(Kind::Removes) => Passed {
                next,
                removals: next,
                reach: self.reach.max(u.last_rank()),
                ..self
            },
            Some(Kind::Annuls) => Passed {
                next,
                rounds: self.rounds.max(u.arrival),
                ..self
            },
            None => Passed { next, ..self },
        }
    }
}

// The latest of some removals of a term: the rank that it reaches to, and its arrival number, 0 where there is none.
#[derive(Clone, Copy)]
pub struct Latest {
    pub reach: u64,
    pub arrival: u32,
}

impl Latest {
    // Of no removals.
    const NONE: Latest = Latest {
        reach: 0,
        arrival: 0,
    };

    // The latest removal that reaches to a pair, with one record more.
    #[tactic(auto, unfolding(crate::specs::code::Search::latest_with))]
    fn with(self, u: Record, rank: u64) -> Latest
        ensures { result ≡ latest_with rank (update_of u) self }
    {
        if self.arrival < u.arrival && u.reaches_to(rank) {
            Latest {
                reach: u.last_rank(),
                arrival: u.arrival,
            }
        } else {
            self
        }
    }

    // The latest of some records that is a removal of a term and reaches to a pair. It is called seldom, and kept out of the way of decisions.
    #[cold]
    fn of(records: &[RecordWords], rank: u64) -> Latest
        ensures { result ≡ latest_of rank none (updates_of records.now) }
    {
        let mut latest = Latest::NONE;
        for words in records {
            latest = latest.with(Record::of(words), rank);
        }
        latest
    }
}

// A place in the batch for questions with rising ranks: the records passed, the latest removal of those that may reach to a pair, and how many
// rounds start at or below the last position.
#[derive(Clone, Copy)]
pub struct Cursor {
    pub passed: Passed,
    pub latest: Latest,
    pub begun: usize,
}

pub const START: Cursor = Cursor {
    passed: Passed {
        next: 0,
        rounds: 0,
        removals: 0,
        reach: 0,
        added: 0,
        arrived: 0,
    },
    latest: Latest::NONE,
    begun: 0,
};

impl Cursor {
    // Passes the records that start at or below a pair.
    fn pass_to(self, records: &[RecordWords], rank: u64) -> Cursor
        ensures { result ≡ passing (updates_of records.now) self rank }
    {
        let mut cursor = self;
        while let Some(words) = records.get(cursor.passed.next) {
            let u = Record::of(words);
            if rank < u.first_rank() {
                break;
            }
            cursor.latest = cursor.latest.with(u, rank);
            cursor.passed = cursor.passed.with(u);
        }
        cursor
    }

    // The latest removal of those passed that reaches to a pair: it is sought anew only where the one in hand arrived after the pair's
    // addition and does not reach to the pair, so that it never will again. A step makes no more such searches than its batch has removals.
    #[tactic(auto, unfolding(crate::specs::code::Search::renewed))]
    fn renewed(self, records: &[RecordWords], rank: u64) -> Latest
        ensures { result ≡ renewed (updates_of records.now) self.passed.removals self.latest rank self.passed.arrived }
    {
        let falls_short = self.latest.reach < rank;
        if self.passed.arrived < self.latest.arrival && falls_short {
            Latest::of(&records[..self.passed.removals.min(records.len())], rank)
        } else {
            self.latest
        }
    }

    // Where no record adds the pair: whether a removal of its term begun at or below it reaches to it. Where one does: whether such a removal
    // arrived after it.
    #[tactic(auto, unfolding(crate::specs::code::Search::removal))]
    fn removal(self, records: &[RecordWords], rank: u64) -> Removal
        ensures { result ≡ removal (updates_of records.now) self rank }
    {
        let latest = self.latest;
        if self.passed.reach < rank {
            return Removal {
                latest,
                removed: false,
            };
        }
        if rank != self.passed.added {
            return Removal {
                latest,
                removed: true,
            };
        }
        let latest = self.renewed(records, rank);
        Removal {
            latest,
            removed: self.passed.arrived < latest.arrival,
        }
    }
}

// Whether a removal of its term takes a pair away, and the latest removal in hand behind it.
#[derive(Clone, Copy)]
struct Removal {
    latest: Latest,
    removed: bool,
}

// Whether one of the rounds begun at or below a position takes its pair away: where no record adds the pair, one that reaches to it; where one
// does, such a round that arrived after it.
#[tactic(auto, unfolding(crate::specs::code::Search::annulled))]
fn annulled(begun: Rounds, position: u32, added: bool, passed: Passed) -> bool
    ensures { result ≡ annulled (updates_of begun.entry.records.now) begun.entry.reaches.now (length begun.entry.records.now) position added passed }
{
    begun.reach_to(position)
        && (!added
            || (passed.arrived < passed.rounds && begun.annul_later(position, passed.arrived)))
}

// Whether the batch withdraws a pair, and the cursor behind it.
#[derive(Clone, Copy)]
pub struct Decision {
    pub cursor: Cursor,
    pub withdrawn: bool,
}

// Decides a pair, with where the rounds reach to: whether a removal takes it away. Rounds are looked at where no removal of its term does.
pub fn decide(batch: &[u32], reaches: &[u32], cursor: Cursor, rank: u64) -> Decision
    ensures { result ≡ decided batch.now reaches.now cursor rank }
{
    let records = records_of(batch);
    let at = cursor.pass_to(records, rank);
    let removal = at.removal(records, rank);
    let cursor = Cursor {
        latest: removal.latest,
        ..at
    };
    if removal.removed {
        return Decision {
            cursor,
            withdrawn: true,
        };
    }
    let position = Pair::of_rank(rank).position;
    let rounds = Rounds::of(records, reaches);
    let begun = rounds.begun(cursor.begun, position);
    let added = rank == cursor.passed.added;
    Decision {
        cursor: Cursor { begun, ..cursor },
        withdrawn: annulled(rounds.first(begun), position, added, cursor.passed),
    }
}

// Up to which position no record touches a pair of the same term behind a pair, at the cursor behind it and with where the rounds reach to; 0 where
// that is not known.
pub fn untouched(batch: &[u32], reaches: &[u32], cursor: Cursor, rank: u64) -> u32
    ensures { result ≡ untouched batch.now reaches.now cursor rank }
{
    if rank <= cursor.passed.reach {
        return 0;
    }
    let records = records_of(batch);
    let to = match records.get(cursor.passed.next) {
        Some(words) => Record::of(words).leaves_to(rank),
        None => u32::MAX,
    };
    if reaches.is_empty() {
        return to;
    }
    Rounds::of(records, reaches).before(cursor.begun, Pair::of_rank(rank).position, to)
}

// The rank of a pair before which no record touches the pairs behind a pair, of any term, at the cursor behind it; 0 where that is not known, as
// with rounds. No pair stands above the greatest rank, which it is behind the last record.
pub fn quiet_before(batch: &[u32], reaches: &[u32], cursor: Cursor, rank: u64) -> u64
    ensures { result ≡ quiet_before batch.now reaches.now cursor rank }
{
    if !reaches.is_empty() || rank <= cursor.passed.reach {
        return 0;
    }
    match records_of(batch).get(cursor.passed.next) {
        Some(words) => Record::of(words).first_rank(),
        None => u64::MAX,
    }
}
