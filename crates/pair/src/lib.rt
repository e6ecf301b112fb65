// A pair of a term and a position, ordered by term, then position. Its rank is the pair as one number in the same order.

#![tactic(auto)]

ghost use Rattle.std.specs.Prelude.{◌≡◌};
ghost use Rattle.pair.specs.Bounds.{lowest, highest, is_pair};
ghost use Rattle.pair.specs.Rank.{rank, term, position};

// Ranks of one term lie in one stretch of this many numbers.
const TERM_STRETCH: u64 = 4_294_967_296;

#[derive(Clone, Copy)]
pub struct Pair {
    pub term: u32,
    pub position: u32,
}

impl Pair {
    pub const LOWEST: Pair = Pair {
        term: 1,
        position: 1,
    };

    pub const HIGHEST: Pair = Pair {
        term: 4_294_967_295,
        position: 4_294_967_295,
    };

    // The pair as one number.
    pub fn rank(self) -> u64
        ensures { result ≡ rank self.term self.position }
    {
        self.term as u64 * TERM_STRETCH + self.position as u64
    }

    // The pair that has a rank.
    pub fn of_rank(rank: u64) -> Pair
        ensures { result ≡ record { term = term rank; position = position rank } }
    {
        Pair {
            term: (rank / TERM_STRETCH) as u32,
            position: (rank % TERM_STRETCH) as u32,
        }
    }
}

// The lowest pair, which the constant is.
pub fn lowest() -> Pair
    ensures { result ≡ lowest }
{
    Pair::LOWEST
}

// The highest pair, which the constant is.
pub fn highest() -> Pair
    ensures { result ≡ highest }
{
    Pair::HIGHEST
}

// Whether two words are a term and a position: each from the lowest pair's to the highest pair's.
pub fn is_pair(term: u32, position: u32) -> bool
    ensures { result ≡ is_pair term position }
{
    let low = Pair::LOWEST;
    let high = Pair::HIGHEST;
    (low.term..=high.term).contains(&term) && (low.position..=high.position).contains(&position)
}
