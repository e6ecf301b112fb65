// Whether a number stands twice among many: each goes to a slot of its own if it can, and only those that find another there are looked at again.

#![tactic(auto)]

ghost use Rattle.std.specs.Prelude.{◌≡◌, ◌≤◌, ◌<◌, length, take};
ghost use Rattle.repeat.specs.Repeats.{repeats};
ghost use Rattle.repeat.specs.code.Rounds.{slot_of, Empty, Leaves};

// The most numbers, and the slots of a round.
pub const NUMBERS_MOST: usize = 4_096;

const SLOTS: usize = 4_096;

// A round, by the bits of a number that it leaves out below those of its slot.
#[derive(Clone, Copy)]
struct Round {
    bits: u32,
    ghost bits_bound: { bits < 32 },
}

const FIRST: Round = Round { bits: 0 };

const SECOND: Round = Round { bits: 12 };

const THIRD: Round = Round { bits: 20 };

impl Round {
    // The slot of a number.
    fn slot_of(self, x: u32) -> usize
        ensures value { result ≡ slot_of self.bits x }
        ensures upper_bound { result < 4096 }
    {
        ((x >> self.bits) % 4_096) as usize
    }

    // The round over slots that are empty: each number goes to its slot. One that finds itself there stands twice, one that finds another is left
    // over. Answers how many are left over, or nothing where one stands twice. A slot holds one more than its number, 0 for none.
    fn fill_slots(self, numbers: &[u32], slots: &mut [u64], rest: &mut [u32]) -> Option<usize>
        requires empty { Empty slots.old }
        requires numbers_in_bounds { length numbers.now ≤ length rest.old }
        ensures { Leaves numbers.now rest.new result }
    {
        let mut left: usize = 0;
        for &x in numbers {
            let slot = self.slot_of(x);
            let mark = u64::from(x) + 1;
            let held = slots[slot];
            if held == 0 {
                slots[slot] = mark;
                continue;
            }
            if held == mark {
                return None;
            }
            rest[left] = x;
            left += 1;
        }
        Some(left)
    }

    // The round, with slots of its own.
    fn leave_over(self, numbers: &[u32], rest: &mut [u32]) -> Option<usize>
        requires { length numbers.now ≤ length rest.old }
        ensures { Leaves numbers.now rest.new result }
    {
        let mut slots = [0u64; SLOTS];
        self.fill_slots(numbers, &mut slots, rest)
    }
}

// Whether a number stands twice, by sorting: then they rise strictly, unless one does.
fn repeats_sorted(numbers: &mut [u32]) -> bool
    ensures { result ≡ repeats numbers.old }
{
    numbers.sort_unstable();
    !numbers.is_sorted_by(|a, b| a < b)
}

// Whether a number stands twice among those that the first round left over.
fn repeats_later(numbers: &[u32]) -> bool
    requires { length numbers.now ≤ 4096 }
    ensures { result ≡ repeats numbers.now }
{
    let mut rest = [0u32; NUMBERS_MOST];
    let Some(left) = SECOND.leave_over(numbers, &mut rest) else {
        return true;
    };
    let mut last = [0u32; NUMBERS_MOST];
    let Some(left) = THIRD.leave_over(&rest[..left], &mut last) else {
        return true;
    };
    repeats_sorted(&mut last[..left])
}

// Whether a number stands twice among these.
#[tactic(auto, using(crate::proofs::Rounds::none_left))]
fn repeats_among(numbers: &[u32]) -> bool
    requires { length numbers.now ≤ 4096 }
    ensures { result ≡ repeats numbers.now }
{
    let mut rest = [0u32; NUMBERS_MOST];
    let Some(left) = FIRST.leave_over(numbers, &mut rest) else {
        return true;
    };
    left != 0 && repeats_later(&rest[..left])
}

// Whether a number stands twice among the first so many.
pub fn repeats(numbers: &[u32; NUMBERS_MOST], count: usize) -> bool
    ensures { result ≡ repeats (take count numbers.now) }
{
    repeats_among(&numbers[..count.min(NUMBERS_MOST)])
}
