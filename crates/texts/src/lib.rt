// Texts: reads a plan typed in signs.
#![tactic(auto)]

ghost use Rattle.std.specs.Prelude.{◌≡◌};
ghost use Rattle.texts.specs.Text.{TextOutcome, text_outcome};

use refusals::{Reason, Refusal};

mod characters;
mod readers;
mod units;
mod words;

// Reads a text under tables: its plan into the area, zeros behind. Where it is refused the area is untouched, since the words are first put into
// an array of our own, as many as a plan may have.
pub fn read_text(tables: &[u8], text: &[u8], plan: &mut [u8]) -> Result<usize, Refusal>
    ensures whole { ◌≡◌ {A = TextOutcome} (record { answer = result; plan = plan.new })
        (text_outcome tables.now text.now plan.old) }
{
    tables::judge_tables(tables)?;
    let n = tables::actions_of(tables);
    let mut held = [0u8; areas::MOST_WORDS];
    let words = readers::read_whole(n, text, &mut held)?;
    if plan.len() < words || areas::MOST_WORDS < words {
        return Err(Refusal::from(Reason::TextTooLong));
    }
    areas::put_whole(&held[..words], plan);
    Ok(words)
}
