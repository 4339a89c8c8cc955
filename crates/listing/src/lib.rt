// What the program prints for a station file.
#![tactic(auto)]

ghost use Rattle.std.specs.Prelude.{◌≡◌, ◌*◌, ◌≤◌, length, take};
ghost use Rattle.tables.specs.Tables.{actions};
ghost use Rattle.areas.specs.Reached.{even?, reached_part};
ghost use Rattle.rewritings.specs.Moves.{moves_of};
ghost use Rattle.demands.specs.Reports.{own_rewriting};
ghost use Rattle.listing.specs.Listing.{ending, plan_listing, listing};
ghost use Rattle.listing.specs.Endings.{Endings};
ghost use Rattle.listing.specs.Ended.{Ended};
ghost use Rattle.listing.specs.Written.{written};
ghost use Rattle.listing.specs.Writing.{ListOutcome, list_outcome, most};

pub use text::LONGEST;
use text::Text;
use unfolding::Unfolded;

mod lines;
mod text;

// 01: "allowance 5,000, plan area and areas A and B 8,192 each, list 15,000".
const ALLOWANCE: u32 = 5000;

const AREA: usize = 8192;

const LIST: usize = 15000;

// 01: "One slice of 2,305 bytes".
const TABLES: usize = 2305;

// How an unfolding ended: its number, 0 where it finished, the steps made and the size of the plan reached.
#[derive(Clone, Copy)]
struct End {
    number: u8,
    steps: usize,
    size: usize,
}

impl From<Unfolded> for End {
    ghost from_gives = { λ unfolded end. Ended unfolded end.number end.steps end.size };

    fn from(unfolded: Unfolded) -> End {
        match unfolded {
            Unfolded::Finished { steps, size } => End {
                number: 0,
                steps,
                size,
            },
            Unfolded::Stopped {
                number,
                steps,
                size,
            } => End {
                number,
                steps,
                size,
            },
        }
    }
}

// Lists an unfolding by how it ended, with its list and areas.
fn put_ending(tables: &[u8], end: End, list: &[u8], a: &[u8], b: &[u8], text: &mut Text)
    requires { (actions tables.now ≤ 31) × (length a.now ≡ 8192) × (length b.now ≡ 8192)
        × (3 * end.steps ≤ length list.now) × (length list.now ≡ 15000) × (text.old.size ≡ 0) }
    ensures { written text.new ≡ ending (actions tables.now) end.number end.steps
        (reached_part (even? end.steps) end.size a.now b.now) (moves_of (own_rewriting end.steps list.now)) }
{
    let plan = aberulwy::reached(a, b, end.steps, end.size);
    let counts = plans::count_orders(tables::actions_of(tables), plan);
    text.put_first(end.number as usize, end.steps, plan.len(), counts);
    text.put_words(plan);
    let used = 3 * end.steps;
    text.put_steps(&list[..used]);
}

// Lists a plan: its unfolding within the program's limits, or why it was refused.
fn put_plan(tables: &[u8], plan: &[u8], text: &mut Text)
    requires { text.old.size ≡ 0 }
    ensures { written text.new ≡ plan_listing tables.now plan.now }
{
    let mut list = [0u8; LIST];
    let mut a = [0u8; AREA];
    let mut b = [0u8; AREA];
    match aberulwy::unfold(tables, plan, ALLOWANCE, &mut list, &mut a, &mut b) {
        Err(refusal) => text.put_refusal(refusal),
        Ok(unfolded) => put_ending(tables, End::from(unfolded), &list, &a, &b, text),
    }
}

// Lists what a station file holds, or why it was refused.
fn put_station(file: &[u8], text: &mut Text)
    requires { text.old.size ≡ 0 }
    ensures { written text.new ≡ listing file.now }
{
    let mut tables = [0u8; TABLES];
    let mut plan = [0u8; AREA];
    match aberulwy::read_station(file, &mut tables, &mut plan) {
        Err(refusal) => text.put_refusal(refusal),
        Ok(size) => put_plan(&tables, &plan[..size], text),
    }
}

// Lists a station file: everything that the program prints for it, with zeros behind, or `None` where the area is too short for it, which then
// keeps its bytes. No listing is longer than 93,000 bytes, and the number behind `end` is 0, 34 or 36;
// under 34 and 36 orders and stuck are both 0.
pub fn list_station(file: &[u8], out: &mut [u8]) -> Option<usize>
    ensures whole { ◌≡◌ {A = ListOutcome} (record { answer = result; out = out.new }) (list_outcome file.now out.old) }
    ensures bounded { length (listing file.now) ≤ most }
    ensures endings { Endings file.now }
{
    let mut text = Text {
        bytes: [0u8; LONGEST],
        size: 0,
    };
    put_station(file, &mut text);
    if out.len() < text.size {
        return None;
    }
    areas::put_whole(&text.bytes[..text.size], out);
    Some(text.size)
}
