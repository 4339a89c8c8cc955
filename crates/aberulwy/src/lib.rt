// Aberulwy: the public calls. Each takes slices of any length and asks nothing of its caller. Under each call, `whole` says its answer,
// refusals included, and every lent byte at exit; where the answer has a number in docs/NUMBERS.md, `numbers` says it by that number; further
// clauses say what is claimed of it.
//
// How a contract reads: `ensures NAME { .. }` is proved of whatever `result` the call returns. `x.now` is what a lent slice `x` that is only read
// holds, as a list of numbers; `x.old` and `x.new` are what one that is written holds when the call begins and when it ends (of a lent `bool`, true
// or false); a number's name is its value. `≡` is equality, `×` is "and", and `↔` is "exactly when". `ghost use` brings in the definitions that
// contracts cite: those of `Rattle.NAME.specs` stand in crates/NAME/specs, and those of this crate are `Rattle.aberulwy.specs`; `declared` holds
// the enums and structs of the code.
// `◌≡◌ {A = R} x y` is `x ≡ y` between records of type R. Of answers, `Ok tt` says that a call which only judges accepts, `Ok x` that one answers x,
// and `Err r` that it refuses, by the number and at the place of r; `Some x` is an x that is there, and `None` says that there is none. (In proofs/ and
// specs/ these are of `Maybe`, the code's Option; `some` and `none` are of the definitions' own `Option`.)
#![tactic(auto)]

ghost use Rattle.std.specs.Prelude.{◌≡◌, true, [], ◌↔◌, length, take};
ghost use Rattle.refusals.specs.Refusal.{judged, report, reported};
ghost use Rattle.tables.specs.Judging.{table_refusal};
ghost use Rattle.tables.specs.Lawful.{Lawful};
ghost use Rattle.plans.specs.Judging.{plan_refusal};
ghost use Rattle.plans.specs.Accepted.{AcceptedPlan, BasicPlan};
ghost use Rattle.stations.specs.File.{station_outcome, station_report, station_reported, StationOutcome};
ghost use Rattle.writing.specs.Writing.{write_outcome, written_report, write_reported, WriteOutcome};
ghost use Rattle.writing.specs.Claims.{WriteClaims, ReadClaims};
ghost use Rattle.texts.specs.Text.{text_outcome, text_report, text_reported, TextOutcome};
ghost use Rattle.texts.specs.Claims.{TextClaims};
ghost use Rattle.walks.specs.Outcome.{WalkOutcome, not_walkable_refusal, fresh_outcome, walk_refusal, walk_outcome};
ghost use Rattle.walks.specs.Claims.{FreshClaims, WalkClaims};
ghost use Rattle.precedence.specs.Outcome.{precedence_answer, precedence_report, precedence_reported};
ghost use Rattle.precedence.specs.Claims.{PrecedenceClaims};
ghost use Rattle.fixing.specs.Outcome.{form_outcome, fixed_report, form_reported, FormOutcome};
ghost use Rattle.fixing.specs.Claims.{FormClaims};
ghost use Rattle.areas.specs.Reached.{even?, reached_part};
ghost use Rattle.unfolding.specs.Unfolding.{unfold_outcome, UnfoldOutcome};
ghost use Rattle.checking.specs.Checking.{check_outcome, CheckOutcome};
ghost use Rattle.demands.specs.Reports.{Reports, own_rewriting, unfold_given};
ghost use Rattle.demands.specs.Claims.{check_given, UnfoldClaims, CheckClaims, StepClaims};
ghost use Rattle.aberulwy.specs.Judging.{basic_answer, basic_report, basic_reported};
ghost use Rattle.aberulwy.specs.Judging.{orders_answer, orders_report, orders_reported, OrdersClaims};
ghost use Rattle.aberulwy.specs.Rewriting.{unfold_report, unfold_reported, check_report, check_reported, own_report, own_reported};
ghost use Rattle.aberulwy.specs.Rewriting.{both_outcome, BothOutcome, OwnAccepted};

use checking::Checked;
use plans::Counts;
use refusals::Refusal;
use unfolding::Unfolded;

// Judges tables: accepted, or the first of refusals 1 to 8. They are accepted exactly when they are well formed and meet the published laws
// of communication and of priority.
pub fn judge_tables(tables: &[u8]) -> Result<(), Refusal>
    ensures whole { result ≡ judged (table_refusal tables.now) }
    ensures numbers { report result ≡ reported (table_refusal tables.now) [] }
    ensures accepts { (result ≡ Ok tt) ↔ Lawful tables.now }
{
    tables::judge_tables(tables)
}

// Judges tables and then a plan: accepted, or the first of refusals 1 to 8, 11 to 14. It is accepted exactly when the tables are and its
// words are those of one term.
pub fn judge_plan(tables: &[u8], plan: &[u8]) -> Result<(), Refusal>
    ensures whole { result ≡ judged (plan_refusal tables.now plan.now) }
    ensures numbers { report result ≡ reported (plan_refusal tables.now plan.now) [] }
    ensures accepts { (result ≡ Ok tt) ↔ AcceptedPlan tables.now plan.now }
{
    plans::judge_plan(tables, plan)
}

// Whether a plan is basic; refusals 1 to 8, 11 to 14 first.
pub fn is_basic(tables: &[u8], plan: &[u8]) -> Result<bool, Refusal>
    ensures whole { result ≡ basic_answer tables.now plan.now }
    ensures numbers { basic_report result ≡ basic_reported tables.now plan.now }
    ensures accepts { (result ≡ Ok true) ↔ BasicPlan tables.now plan.now }
{
    plans::judge_plan(tables, plan)?;
    let n = tables::actions_of(tables);
    Ok(plans::basic_words(n, plan))
}

// Counts the paths of a basic plan by its words: orders, which finish, and stuck ones, which lead into a dead stop; 0 of both for a plan that is not
// basic. Refusals 1 to 8, 11 to 14 first.
pub fn count_orders(tables: &[u8], plan: &[u8]) -> Result<Counts, Refusal>
    ensures whole { result ≡ orders_answer tables.now plan.now }
    ensures numbers { orders_report result ≡ orders_reported tables.now plan.now }
    ensures claims { OrdersClaims tables.now plan.now result }
{
    plans::judge_plan(tables, plan)?;
    let n = tables::actions_of(tables);
    Ok(plans::count_orders(n, plan))
}

// Unfolds a plan with an allowance of steps: the records go to the list, the plan reached and the one before it to the areas. Refusals 1 to 8,
// 11 to 15 leave list and areas as they are. Every plan finishes after a number of steps of its own, where allowance, list and areas hold them; what a
// larger allowance changes is claimed too.
pub fn unfold(
    tables: &[u8],
    plan: &[u8],
    allowance: u32,
    list: &mut [u8],
    a: &mut [u8],
    b: &mut [u8],
) -> Result<Unfolded, Refusal>
    ensures whole { ◌≡◌ {A = UnfoldOutcome} (record { answer = result; list = list.new; a = a.new; b = b.new })
        (unfold_outcome tables.now plan.now allowance list.old a.old b.old) }
    ensures numbers { unfold_report result
        ≡ unfold_reported tables.now plan.now allowance list.old a.old b.old }
    ensures claims { UnfoldClaims
        (unfold_given tables.now plan.now allowance list.old a.old b.old)
        (record { answer = result; list = list.new; a = a.new; b = b.new }) }
{
    unfolding::unfold(tables, plan, allowance, list, a, b)
}

// Checks a rewriting from a start plan to a claimed end plan: accepted, or turned back by how far it had come (31 to 33); the plan reached and
// the one before it go to the areas. A record is a step from left to right, in three bytes, or one from right to left, which carries the left side of
// its law. Refusals 1 to 8, 11 to 18, then 75 for a left side that is no accepted plan, leave the areas as they are. A single step is a rewriting of
// one record.
pub fn check_rewriting(
    tables: &[u8],
    start: &[u8],
    claimed: &[u8],
    rewriting: &[u8],
    a: &mut [u8],
    b: &mut [u8],
) -> Result<Checked, Refusal>
    ensures whole { ◌≡◌ {A = CheckOutcome} (record { answer = result; a = a.new; b = b.new })
        (check_outcome tables.now start.now claimed.now rewriting.now
        a.old b.old) }
    ensures numbers { check_report result
        ≡ check_reported tables.now start.now claimed.now rewriting.now
        a.old b.old }
    ensures claims { CheckClaims
        (check_given tables.now start.now claimed.now rewriting.now
        a.old b.old)
        (record { answer = result; a = a.new; b = b.new }) }
    ensures single { StepClaims
        (check_given tables.now start.now claimed.now rewriting.now
        a.old b.old)
        (record { answer = result; a = a.new; b = b.new }) }
{
    checking::check_rewriting(tables, start, claimed, rewriting, a, b)
}

// The first words of an area, or all of it where it has fewer.
fn first_words(area: &[u8], size: usize) -> &[u8]
    ensures { result.now ≡ take size area.now }
{
    &area[..size.min(area.len())]
}

// The part of area A or B that holds the plan reached, by the parity of the steps made.
pub fn reached<'a>(a: &'a [u8], b: &'a [u8], steps: usize, size: usize) -> &'a [u8]
    ensures whole { result.now ≡ reached_part (even? steps) size a.now b.now }
{
    let area = if steps % 2 == 0 { a } else { b };
    first_words(area, size)
}

// Reads a station file into a tables area and a plan area: the plan's length, or refusals 51 to 55, then 1 to 8, 11 to 14, which leave the areas
// as they are. A file is read, in areas that hold it, exactly when it is the one that `write_station` writes from some tables and some plan.
pub fn read_station(file: &[u8], tables: &mut [u8], plan: &mut [u8]) -> Result<usize, Refusal>
    ensures whole { ◌≡◌ {A = StationOutcome} (record { answer = result; tables = tables.new; plan = plan.new })
        (station_outcome file.now tables.old plan.old) }
    ensures numbers { station_report result ≡ station_reported file.now tables.old plan.old }
    ensures claims { ReadClaims file.now tables.old plan.old
        (record { answer = result; tables = tables.new; plan = plan.new }) }
{
    stations::read_station(file, tables, plan)
}

// Writes the station file of tables and a plan into an area, zeros after: the file's length. Refusals 1 to 8, 11 to 14, then 74 for an area shorter
// than the file, leave the area as it is. What `read_station` takes from the file, into areas that hold it, is those tables and that plan.
pub fn write_station(tables: &[u8], plan: &[u8], area: &mut [u8]) -> Result<usize, Refusal>
    ensures whole { ◌≡◌ {A = WriteOutcome} (record { answer = result; area = area.new })
        (write_outcome tables.now plan.now area.old) }
    ensures numbers { written_report result ≡ write_reported tables.now plan.now (length area.old) }
    ensures claims { WriteClaims tables.now plan.now area.old
        (record { answer = result; area = area.new }) }
{
    writing::write_station(tables, plan, area)
}

// Reads a text, a plan typed in signs, into a plan area: the plan's length, or refusals 1 to 8, then the first of 61 and 62 in the text, then 63,
// which leave the area as it is. It is read exactly when it belongs to the grammar within the limits, and as one plan only.
pub fn read_text(tables: &[u8], text: &[u8], plan: &mut [u8]) -> Result<usize, Refusal>
    ensures whole { ◌≡◌ {A = TextOutcome} (record { answer = result; plan = plan.new })
        (text_outcome tables.now text.now plan.old) }
    ensures numbers { text_report result ≡ text_reported tables.now text.now plan.old }
    ensures claims { TextClaims tables.now text.now plan.old
        (record { answer = result; plan = plan.new }) }
{
    texts::read_text(tables, text, plan)
}

// Begins a walk through a basic plan: the marks, one byte for each word, are all zero but the last, which is 1, and no finish is reached. Refusals 1
// to 8, 11 to 14, then 70 for a plan that is not basic or marks of another length, leave marks and finish as they are. What is claimed of every list
// of messages that follows is claimed here.
pub fn fresh_walk(
    tables: &[u8],
    plan: &[u8],
    marks: &mut [u8],
    finished: &mut bool,
) -> Result<(), Refusal>
    ensures whole { ◌≡◌ {A = WalkOutcome}
        (record { answer = result; progress = record { marks = marks.new; finish = finished.new } })
        (fresh_outcome tables.now plan.now
        (record { marks = marks.old; finish = finished.old })) }
    ensures numbers { report result ≡ reported (not_walkable_refusal tables.now plan.now marks.old) [] }
    ensures claims { FreshClaims tables.now plan.now
        (record { marks = marks.old; finish = finished.old })
        (record { answer = result; progress = record { marks = marks.new; finish = finished.new } }) }
{
    walks::fresh_walk(tables, plan, marks, finished)
}

// Brings a message to a walk, where any marks and any finish are a progress: it is taken, and what stands afterwards is what it leads to from the
// marked subplans; or it is refused, as `fresh_walk` is, or with 71 for an action outside 1 to n, or 72 where no path goes on with it, and changes
// nothing.
pub fn walk(
    tables: &[u8],
    plan: &[u8],
    marks: &mut [u8],
    message: u8,
    finished: &mut bool,
) -> Result<(), Refusal>
    ensures whole { ◌≡◌ {A = WalkOutcome}
        (record { answer = result; progress = record { marks = marks.new; finish = finished.new } })
        (walk_outcome tables.now plan.now message
        (record { marks = marks.old; finish = finished.old })) }
    ensures numbers { report result ≡ reported (walk_refusal tables.now plan.now message
        (record { marks = marks.old; finish = finished.old })) [] }
    ensures claims { WalkClaims tables.now plan.now message
        (record { marks = marks.old; finish = finished.old })
        (record { answer = result; progress = record { marks = marks.new; finish = finished.new } }) }
{
    walks::walk(tables, plan, marks, message, finished)
}

// Whether on every path of a basic plan each appearance of the second action has the first somewhere before it, and else the least place of an appearance
// that has none before it on its path. Refusals 1 to 8, 11 to 14, then 73 for equal actions or one outside 1 to n, then 70 for a plan that is not basic.
pub fn precedes(tables: &[u8], plan: &[u8], first: u8, second: u8) -> Result<Option<usize>, Refusal>
    ensures whole { result ≡ precedence_answer tables.now plan.now first second }
    ensures numbers { precedence_report result ≡ precedence_reported tables.now plan.now first second }
    ensures claims { PrecedenceClaims tables.now plan.now first second result }
{
    precedence::precedes(tables, plan, first, second)
}

// Brings a basic plan to its fixed form, one for all basic plans whose trees are alike, and puts it into an area, zeros after: the form's length, which is
// never more than the plan's. Refusals 1 to 8, 11 to 14, then 70 for a plan that is not basic, then 74 for an area shorter than the form, leave the
// area as it is.
pub fn fix_form(tables: &[u8], plan: &[u8], area: &mut [u8]) -> Result<usize, Refusal>
    ensures whole { ◌≡◌ {A = FormOutcome} (record { answer = result; area = area.new })
        (form_outcome tables.now plan.now area.old) }
    ensures numbers { fixed_report result ≡ form_reported tables.now plan.now (length area.old) }
    ensures claims { FormClaims tables.now plan.now area.old
        (record { answer = result; area = area.new }) }
{
    fixing::fix_form(tables, plan, area)
}

// The answers of an unfolding and of the check of its own rewriting; nothing is checked where the unfolding was refused.
#[derive(Clone, Copy)]
pub struct BothAnswers {
    pub unfolded: Result<Unfolded, Refusal>,
    pub own: Option<Result<Checked, Refusal>>,
}

// The steps that an unfolding made, and the length of the plan that it reached.
fn made(unfolded: Unfolded) -> (usize, usize)
    ensures { Reports (Ok unfolded) result.0 result.1 }
{
    match unfolded {
        Unfolded::Finished { steps, size } | Unfolded::Stopped { steps, size, .. } => (steps, size),
    }
}

// An unfolding's own rewriting: the first 3 × steps bytes of its list, or all of it where it has fewer.
#[tactic(auto, unfolding(demands::specs::Reports::own_rewriting))]
fn own_records(list: &[u8], steps: usize) -> &[u8]
    ensures { result.now ≡ own_rewriting steps list.now }
{
    first_words(list, steps.saturating_mul(3))
}

// Checks an unfolding's own rewriting, from the given plan to the plan reached.
fn check_own<'a>(
    tables: &[u8],
    plan: &[u8],
    steps: usize,
    size: usize,
    list: &[u8],
    a: &'a [u8],
    b: &'a [u8],
    c: &mut [u8],
    d: &mut [u8],
) -> Result<Checked, Refusal>
    ensures { ◌≡◌ {A = CheckOutcome} (record { answer = result; a = c.new; b = d.new })
        (check_outcome tables.now plan.now (reached_part (even? steps) size a.now b.now)
        (own_rewriting steps list.now) c.old d.old) }
{
    let claimed = reached(a, b, steps, size);
    let rewriting = own_records(list, steps);
    checking::check_rewriting(tables, plan, claimed, rewriting, c, d)
}

// Unfolds a plan, then checks the unfolding's own rewriting in areas c and d. Where c is as long as a, and d as b, a check that is made accepts:
// that is proved.
pub fn unfold_checked(
    tables: &[u8],
    plan: &[u8],
    allowance: u32,
    list: &mut [u8],
    a: &mut [u8],
    b: &mut [u8],
    c: &mut [u8],
    d: &mut [u8],
) -> BothAnswers
    ensures whole { ◌≡◌ {A = BothOutcome}
        (record {
          unfolded = record { answer = result.unfolded; list = list.new; a = a.new; b = b.new };
          own = record { answer = result.own; a = c.new; b = d.new };
        })
        (both_outcome tables.now plan.now allowance list.old a.old b.old
        c.old d.old) }
    ensures numbers { (unfold_report result.unfolded
        ≡ unfold_reported tables.now plan.now allowance list.old a.old b.old)
        × (own_report result.own
        ≡ own_reported tables.now plan.now allowance list.old a.old b.old
        c.old d.old) }
    ensures claims { UnfoldClaims
        (unfold_given tables.now plan.now allowance list.old a.old b.old)
        (record { answer = result.unfolded; list = list.new; a = a.new; b = b.new }) }
    ensures accepted { OwnAccepted result.unfolded result.own
        a.old b.old c.old d.old }
{
    let unfolded = unfolding::unfold(tables, plan, allowance, &mut *list, &mut *a, &mut *b);
    let own = match unfolded {
        Ok(answer) => {
            let (steps, size) = made(answer);
            Some(check_own(tables, plan, steps, size, &*list, &*a, &*b, c, d))
        }
        Err(_) => None,
    };
    BothAnswers { unfolded, own }
}
