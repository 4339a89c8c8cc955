// Three readers, for a sum, a product and a unit, that call each other: a sum is products, a product is units, and a unit may hold a sum.
// Each reads from a place on, where `depth` brackets are open.
ghost use Rattle.texts.specs.Readers.{Ready, SumDone, ProductDone, UnitDone, WholeDone};

use super::units::{Begun, Behind, Fault, expect};
use super::{characters, units, words};
use grammar::Bracket;

// How far reading has come: the place in the text, and how many words stand in the array.
#[derive(Clone, Copy)]
pub struct Progress {
    pub at: usize,
    pub words: usize,
}

// Reads a sum: products with `+` between them, grouping to the left. Inlined, as the product is: so a bracket takes one frame of the stack, not three.
#[inline(always)]
#[cycle(read_product_read_sum_read_unit)]
fn read_sum(
    n: u8,
    text: &[u8],
    from: Progress,
    depth: usize,
    out: &mut [u8],
) -> Result<Progress, Fault>
    requires { Ready text.now from.at depth from.words }
    ensures { SumDone n depth text.now from.at out.old out.new from.words result }
{
    let mut here = read_product(n, text, from, depth, &mut *out)?;
    while characters::next_is(text, here.at, b'+') {
        here.at += 1;
        here = read_product(n, text, here, depth, &mut *out)?;
        here.words = words::store(plans::CHOICE, &mut *out, here.words);
    }
    Ok(here)
}

// Reads a product: units with `.` between them, grouping to the left. It is its own function beside `read_sum`, as the grammar has both:
// one over the two would need a further one that chooses what it reads.
#[inline(always)]
#[cycle(read_product_read_sum_read_unit)]
fn read_product(
    n: u8,
    text: &[u8],
    from: Progress,
    depth: usize,
    out: &mut [u8],
) -> Result<Progress, Fault>
    requires { Ready text.now from.at depth from.words }
    ensures { ProductDone n depth text.now from.at out.old out.new from.words result }
{
    let mut here = read_unit(n, text, from, depth, &mut *out)?;
    while characters::next_is(text, here.at, b'.') {
        here.at += 1;
        here = read_unit(n, text, here, depth, &mut *out)?;
        here.words = words::store(plans::SEQUENCE, &mut *out, here.words);
    }
    Ok(here)
}

// Reads a unit: an action, or one or two sums in a bracket.
#[cycle(read_product_read_sum_read_unit)]
fn read_unit(
    n: u8,
    text: &[u8],
    from: Progress,
    depth: usize,
    out: &mut [u8],
) -> Result<Progress, Fault>
    requires { Ready text.now from.at depth from.words }
    ensures { UnitDone n depth text.now from.at out.old out.new from.words result }
{
    match units::begin(n, text, from.at, depth)? {
        Begun::Action { action, next } => Ok(Progress {
            at: next,
            words: words::store(action, out, from.words),
        }),
        Begun::Opened { bracket, next } => {
            let inner = Progress {
                at: next,
                words: from.words,
            };
            let first = read_sum(n, text, inner, depth + 1, &mut *out)?;
            match units::after_sum(text, first.at, bracket)? {
                Behind::Closed => Ok(Progress {
                    at: first.at + 1,
                    words: words::close(bracket, out, first.words),
                }),
                Behind::Sign(sign) => {
                    let behind = Progress {
                        at: first.at + 3,
                        words: first.words,
                    };
                    let second = read_sum(n, text, behind, depth + 1, &mut *out)?;
                    expect(text, second.at, b')')?;
                    Ok(Progress {
                        at: second.at + 1,
                        words: words::close(Bracket::Second(sign), out, second.words),
                    })
                }
            }
        }
    }
}

// Reads a whole text: how many words it has, which stand in the array as far as it reaches; or its first fault.
pub fn read_whole(n: u8, text: &[u8], out: &mut [u8]) -> Result<usize, Fault>
    ensures { WholeDone n text.now out.old out.new result }
{
    let end = read_sum(n, text, Progress { at: 0, words: 0 }, 0, out)?;
    if end.at < text.len() {
        Err(Fault::no_text(end.at))
    } else {
        Ok(end.words)
    }
}
