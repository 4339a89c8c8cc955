// Steps made on a graph of terms one after another, each recorded in the list, until the run ends or no node is left.
#![tactic(auto)]

ghost use Rattle.std.specs.Prelude.{◌≡◌, ◌+◌, ◌≤◌, ◌<◌, length};
ghost use Rattle.areas.specs.Area.{overwrite, most_words};
ghost use Rattle.tables.specs.Tables.{actions};
ghost use Rattle.tables.specs.Lawful.{Lawful};
ghost use Rattle.rewritings.specs.Moves.{record_of};
ghost use Rattle.graphsteps.specs.Holding.{arrays, Fits, SomePlan};
ghost use Rattle.recording.specs.Recording.{MadeOn};

use areas::{MOST_WORDS, StepState};
use graphsteps::{Cut, NextEntry, Reading, Stop};

// How the steps on a graph end: the run is over, since no law fits any more or for what stops it; or no node is left.
#[derive(Clone, Copy)]
pub enum Ending {
    Over(Option<Stop>),
    NoNode,
}

// How far the steps on a graph have come, the last of them and the step state after it, the steps still allowed, how much of the list is used,
// and how the steps end.
#[derive(Clone, Copy)]
pub struct StepsMade {
    pub reading: Reading,
    pub cut: Cut,
    pub state: StepState,
    pub allowed: usize,
    pub used: usize,
    pub ending: Ending,
}

// Records a step in three bytes: law, then place, low byte first.
fn put_record(list: &mut [u8], used: usize, law: u8, place: usize)
    requires { (used + 3 ≤ length list.old) × (place < 65536) }
    ensures { list.new ≡ overwrite list.old used (record_of law place) }
{
    let [low, high] = (place as u16).to_le_bytes();
    list[used..used + 3].copy_from_slice(&[law, low, high]);
}

// Reads the entries and makes steps until all are read, a step is not made or no node is left. Each step goes into the step state and off the
// steps allowed, and its record to the list, from place `used` on.
pub fn make_steps(
    tables: &[u8],
    n: u8,
    list: &mut [u8],
    used: usize,
    own: &mut [u8],
    first: &mut [u16],
    second: &mut [u16],
    sizes: &mut [u16],
    stack: &mut [u16],
    todo: &mut [u16],
    reading: Reading,
    state: StepState,
    allowed: usize,
    limit: usize,
) -> StepsMade
    requires n_value { (n ≡ actions tables.now) × Lawful tables.now × (limit ≤ most_words) × (used ≤ length list.old)
        × (state.steps + allowed < 18446744073709551615) }
    requires fits { Fits (arrays own.old first.old second.old sizes.old stack.old todo.old) reading
        × SomePlan tables.now limit (arrays own.old first.old second.old sizes.old stack.old todo.old) reading }
    ensures { MadeOn tables.now limit allowed used list.old list.new
        (arrays own.old first.old second.old sizes.old stack.old todo.old)
        (arrays own.new first.new second.new sizes.new stack.new todo.new)
        reading state result }
{
    let mut here = reading;
    let mut cut = Cut {
        at: 0,
        old: 0,
        new: 0,
        word: 0,
        a: 0,
        b: 0,
    };
    let mut reached = state;
    let mut left: usize = allowed;
    let mut end: usize = used;
    while here.rest < MOST_WORDS {
        let room = list.len() - end;
        let place = here.read;
        let entry = graphsteps::advance(
            tables,
            n,
            &mut *own,
            &mut *first,
            &mut *second,
            &mut *sizes,
            &mut *stack,
            &mut *todo,
            here,
            left,
            room,
            limit,
        );
        match entry {
            NextEntry::Read(next) => {
                here = next;
            }
            NextEntry::Step(law, next, last) => {
                put_record(&mut *list, end, law, place);
                here = next;
                cut = last;
                reached = reached.after_step(last.at, last.old, last.new);
                left -= 1;
                end += 3;
            }
            NextEntry::Stopped(stop) => {
                return StepsMade {
                    reading: here,
                    cut,
                    state: reached,
                    allowed: left,
                    used: end,
                    ending: Ending::Over(Some(stop)),
                };
            }
            NextEntry::NoNode => {
                return StepsMade {
                    reading: here,
                    cut,
                    state: reached,
                    allowed: left,
                    used: end,
                    ending: Ending::NoNode,
                };
            }
        }
    }
    StepsMade {
        reading: here,
        cut,
        state: reached,
        allowed: left,
        used: end,
        ending: Ending::Over(None),
    }
}
