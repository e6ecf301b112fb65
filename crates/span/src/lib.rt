// Where a write of a step stands in the card, for whoever brings it to a medium.

#![tactic(auto)]

ghost use Rattle.std.specs.Prelude.{◌≡◌};
ghost use Rattle.span.specs.Span.{write_span, answered};

use card::layout;
use card::layout::{CONFIGURATION_WORDS, Configuration};
use refusal::Refusal;

// So many words of the card, from one on.
#[derive(Clone, Copy)]
pub struct Span {
    pub start: usize,
    pub count: usize,
}

// Where a write of a step stands in the card that the step left; no words for a write that is none of the three.
#[tactic(auto, using(crate::proofs::Spans::spans), unfolding(crate::specs::Span::write_span))]
pub fn write_span(card: &[u32], write: u32) -> Result<Span, Refusal>
    ensures { answered result ≡ write_span card.now write }
{
    judge::judge(card)?;
    let k = Configuration::of(card);
    let place = k.due_place();
    let block = layout::place_start(card, place);
    let entry = layout::entry_start(card, place);
    let (start, count) = match write {
        1 => (block, k.size as usize),
        2 => (entry, layout::width_of(k.format) as usize),
        3 => (0, CONFIGURATION_WORDS),
        _ => (0, 0),
    };
    Ok(Span { start, count })
}
