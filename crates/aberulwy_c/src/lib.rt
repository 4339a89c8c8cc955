// The public calls for C and Rust: numbers and byte slices only. Each answers a number of docs/NUMBERS.md and sets every out number (`finished` of a
// walk is not one: it is lent, and a refusal leaves it); the two that only hand bytes over, `aberulwy_reached` and `aberulwy_list_station`, answer 0, or 1
// where the area is too short. The many out parameters are the interface of C, whose calls answer one number. `whole` says everything that a call
// answers, sets and leaves; further clauses say what is claimed of it.
#![tactic(auto)]

ghost use Rattle.std.specs.Prelude.{◌≡◌, ◌∷◌, [], ◌↔◌, ◌≤◌, length};
ghost use Rattle.refusals.specs.Refusal.{printed, report, reported};
ghost use Rattle.areas.specs.Reached.{even?, reached_part};
ghost use Rattle.tables.specs.Judging.{table_refusal};
ghost use Rattle.tables.specs.Lawful.{Lawful};
ghost use Rattle.plans.specs.Judging.{plan_refusal};
ghost use Rattle.plans.specs.Accepted.{AcceptedPlan, BasicPlan};
ghost use Rattle.precedence.specs.Outcome.{precedence_reported};
ghost use Rattle.demands.specs.Reports.{unfold_given};
ghost use Rattle.demands.specs.Claims.{check_given};
ghost use Rattle.aberulwy.specs.Judging.{basic_reported, orders_reported};
ghost use Rattle.aberulwy.specs.Rewriting.{unfold_report, check_report, own_report};
ghost use Rattle.listing.specs.Listing.{listing};
ghost use Rattle.listing.specs.Writing.{most};
ghost use Rattle.listing.specs.Endings.{Endings};
ghost use Rattle.aberulwy_c.specs.Answers.{Returned, returned, HandedOver, handed_over};
ghost use Rattle.aberulwy_c.specs.Answers.{unfold_returned, check_returned, both_returned, station_returned, written_returned, text_returned};
ghost use Rattle.aberulwy_c.specs.Answers.{fresh_returned, walk_returned, fixed_returned};
ghost use Rattle.aberulwy_c.specs.Handing.{Answered, MaybeAnswered, WalkAnswered, size_report, came_report};
ghost use Rattle.aberulwy_c.specs.Seen.{OrdersSeen, UnfoldSeen, CheckSeen, OwnSeen, TextSeen, FreshSeen, WalkSeen};
ghost use Rattle.aberulwy_c.specs.Seen.{PrecedenceSeen, StationReadSeen, StationWrittenSeen, FormSeen};

use checking::Checked;
use refusals::Refusal;
use unfolding::Unfolded;

// Answers a refusal's number and sets its place.
fn refuse(refusal: Refusal, place: &mut usize) -> u8
    ensures { (result ≡ refusal.number) × (place.new ≡ printed refusal.place) }
{
    *place = refusals::print_place(refusal.place);
    refusal.number
}

// Answers 0 where a call that only judges accepts, or the refusal's number; and sets its place.
fn hand_judged(answer: Result<(), Refusal>, place: &mut usize) -> u8
    ensures { Answered (report answer) result place.new 0 0 }
{
    *place = 0;
    match answer {
        Ok(()) => 0,
        Err(refusal) => refuse(refusal, place),
    }
}

// Answers 0 and sets the size that a call answers, or answers the refusal's number and sets 0; and sets its place.
fn hand_size(answer: Result<usize, Refusal>, size: &mut usize, place: &mut usize) -> u8
    ensures { Answered (size_report answer) result place.new size.new 0 }
{
    *size = 0;
    *place = 0;
    match answer {
        Ok(words) => {
            *size = words;
            0
        }
        Err(refusal) => refuse(refusal, place),
    }
}

// How far an unfolding or a check came: the number of its ending, 0 where it finished or accepts, the steps made, and the size of the plan reached.
#[derive(Clone, Copy)]
struct Came {
    number: u8,
    steps: usize,
    size: usize,
}

// How far an unfolding came.
fn unfolded_so_far(answer: Result<Unfolded, Refusal>) -> Result<Came, Refusal>
    ensures { came_report result ≡ unfold_report answer }
{
    match answer? {
        Unfolded::Finished { steps, size } => Ok(Came {
            number: 0,
            steps,
            size,
        }),
        Unfolded::Stopped {
            number,
            steps,
            size,
        } => Ok(Came {
            number,
            steps,
            size,
        }),
    }
}

// How far a check came.
fn checked_so_far(answer: Result<Checked, Refusal>) -> Result<Came, Refusal>
    ensures { came_report result ≡ check_report answer }
{
    match answer? {
        Checked::Accepted { steps, size } => Ok(Came {
            number: 0,
            steps,
            size,
        }),
        Checked::TurnedBack {
            number,
            steps,
            size,
        } => Ok(Came {
            number,
            steps,
            size,
        }),
    }
}

// Answers the number of an ending and sets its steps and size, or answers the refusal's number and sets zeros; and sets its place.
fn hand_came(
    answer: Result<Came, Refusal>,
    steps: &mut usize,
    size: &mut usize,
    place: &mut usize,
) -> u8
    ensures { Answered (came_report answer) result place.new steps.new size.new }
{
    *steps = 0;
    *size = 0;
    *place = 0;
    match answer {
        Ok(came) => {
            *steps = came.steps;
            *size = came.size;
            came.number
        }
        Err(refusal) => refuse(refusal, place),
    }
}

// Says whether an unfolding's own rewriting was checked, and sets the numbers of that check, zeros where it was not.
fn hand_own(
    own: Option<Result<Checked, Refusal>>,
    checked: &mut usize,
    number: &mut usize,
    steps: &mut usize,
    size: &mut usize,
    place: &mut usize,
)
    ensures { MaybeAnswered (own_report own) checked.new number.new place.new steps.new size.new }
{
    *checked = 0;
    *number = 0;
    *steps = 0;
    *size = 0;
    *place = 0;
    if let Some(answer) = own {
        *checked = 1;
        *number = usize::from(hand_came(checked_so_far(answer), steps, size, place));
    }
}

// Answers the number of a walk's answer and sets its place; the finish is set, 1 or 0, where nothing is refused.
fn hand_walked(
    answer: Result<(), Refusal>,
    finish: bool,
    finished: &mut usize,
    place: &mut usize,
) -> u8
    ensures { WalkAnswered answer finish finished.old result place.new finished.new }
{
    *finished = match answer {
        Ok(()) => usize::from(finish),
        Err(_) => *finished,
    };
    hand_judged(answer, place)
}

// Hands bytes over in an area, with zeros behind, and sets their length; or answers 1 where the area is too short, which then keeps its bytes.
fn hand_over(bytes: &[u8], out: &mut [u8], size: &mut usize) -> u8
    ensures { ◌≡◌ {A = HandedOver} (record { number = result; size = size.new; out = out.new })
        (handed_over bytes.now out.old) }
{
    *size = 0;
    if out.len() < bytes.len() {
        return 1;
    }
    let end = areas::copy_in(bytes, out, 0);
    areas::clear_from(out, end);
    *size = end;
    0
}

// Judges tables: 0 where they are accepted, or the number of the refusal and its place.
#[unsafe(no_mangle)]
pub extern "C" fn aberulwy_judge_tables(tables: &[u8], place: &mut usize) -> u8
    ensures whole { ◌≡◌ {A = Returned} (record { number = result; place = place.new; values = []; areas = [] })
        (returned 0 (reported (table_refusal tables.now) []) []) }
    ensures accepts { (result ≡ 0) ↔ Lawful tables.now }
{
    hand_judged(aberulwy::judge_tables(tables), place)
}

// Judges tables and then a plan: 0 where both are accepted, or the number of the refusal and its place.
#[unsafe(no_mangle)]
pub extern "C" fn aberulwy_judge_plan(tables: &[u8], plan: &[u8], place: &mut usize) -> u8
    ensures whole { ◌≡◌ {A = Returned} (record { number = result; place = place.new; values = []; areas = [] })
        (returned 0 (reported (plan_refusal tables.now plan.now) []) []) }
    ensures accepts { (result ≡ 0) ↔ AcceptedPlan tables.now plan.now }
{
    hand_judged(aberulwy::judge_plan(tables, plan), place)
}

// Asks whether a plan is basic: 0, with `basic` 1 where it is and 0 where it is not; or the number of the refusal and its place.
#[unsafe(no_mangle)]
pub extern "C" fn aberulwy_is_basic(
    tables: &[u8],
    plan: &[u8],
    basic: &mut usize,
    place: &mut usize,
) -> u8
    ensures whole { ◌≡◌ {A = Returned} (record { number = result; place = place.new; values = basic.new ∷ []; areas = [] })
        (returned 1 (basic_reported tables.now plan.now) []) }
    ensures accepts { (basic.new ≡ 1) ↔ BasicPlan tables.now plan.now }
{
    *basic = 0;
    *place = 0;
    match aberulwy::is_basic(tables, plan) {
        Ok(is) => {
            *basic = usize::from(is);
            0
        }
        Err(refusal) => refuse(refusal, place),
    }
}

// Counts the paths of a basic plan: 0, with those that finish in `orders` and those into a dead stop in `stuck`, 0 of both for a plan that is not basic;
// or the number of the refusal and its place.
#[unsafe(no_mangle)]
pub extern "C" fn aberulwy_count_orders(
    tables: &[u8],
    plan: &[u8],
    orders: &mut usize,
    stuck: &mut usize,
    place: &mut usize,
) -> u8
    ensures whole { ◌≡◌ {A = Returned}
        (record { number = result; place = place.new; values = orders.new ∷ stuck.new ∷ []; areas = [] })
        (returned 2 (orders_reported tables.now plan.now) []) }
    ensures claims { OrdersSeen tables.now plan.now result orders.new stuck.new }
{
    *orders = 0;
    *stuck = 0;
    *place = 0;
    match aberulwy::count_orders(tables, plan) {
        Ok(counts) => {
            *orders = counts.orders;
            *stuck = counts.stuck;
            0
        }
        Err(refusal) => refuse(refusal, place),
    }
}

// Unfolds a plan: 0 where it finished, or 34 to 36, with the steps made and the length of the plan reached; or the number of the refusal and its place.
#[unsafe(no_mangle)]
pub extern "C" fn aberulwy_unfold(
    tables: &[u8],
    plan: &[u8],
    allowance: u32,
    list: &mut [u8],
    a: &mut [u8],
    b: &mut [u8],
    steps: &mut usize,
    size: &mut usize,
    place: &mut usize,
) -> u8
    ensures whole { ◌≡◌ {A = Returned}
        (record {
          number = result;
          place = place.new;
          values = steps.new ∷ size.new ∷ [];
          areas = list.new ∷ a.new ∷ b.new ∷ [];
        })
        (unfold_returned tables.now plan.now allowance list.old a.old b.old) }
    ensures claims { UnfoldSeen
        (unfold_given tables.now plan.now allowance list.old a.old b.old)
        list.new a.new b.new result place.new steps.new size.new }
{
    let answer = aberulwy::unfold(tables, plan, allowance, list, a, b);
    hand_came(unfolded_so_far(answer), steps, size, place)
}

// Unfolds a plan, then checks the unfolding's own rewriting in areas c and d. The number answered, `steps`, `size` and `place` are those of
// `aberulwy_unfold`; `checked` is 1 where a check was made, and 0 where the unfolding was refused; `own_number`, `own_steps`, `own_size` and
// `own_place` are what `aberulwy_check_rewriting` would say of it, zeros where none was made.
#[unsafe(no_mangle)]
pub extern "C" fn aberulwy_unfold_checked(
    tables: &[u8],
    plan: &[u8],
    allowance: u32,
    list: &mut [u8],
    a: &mut [u8],
    b: &mut [u8],
    c: &mut [u8],
    d: &mut [u8],
    steps: &mut usize,
    size: &mut usize,
    place: &mut usize,
    checked: &mut usize,
    own_number: &mut usize,
    own_steps: &mut usize,
    own_size: &mut usize,
    own_place: &mut usize,
) -> u8
    ensures whole { ◌≡◌ {A = Returned}
        (record {
          number = result;
          place = place.new;
          values = steps.new ∷ size.new ∷ checked.new ∷ own_number.new
              ∷ own_steps.new ∷ own_size.new ∷ own_place.new ∷ [];
          areas = list.new ∷ a.new ∷ b.new ∷ c.new ∷ d.new ∷ [];
        })
        (both_returned tables.now plan.now allowance list.old a.old b.old
        c.old d.old) }
    ensures claims { UnfoldSeen
        (unfold_given tables.now plan.now allowance list.old a.old b.old)
        list.new a.new b.new result place.new steps.new size.new }
    ensures accepted { OwnSeen a.old b.old c.old d.old
        (record {
          number = result;
          place = place.new;
          steps = steps.new;
          size = size.new;
          checked = checked.new;
          own_number = own_number.new;
          own_place = own_place.new;
          own_steps = own_steps.new;
          own_size = own_size.new;
        }) }
{
    let both = aberulwy::unfold_checked(tables, plan, allowance, list, a, b, c, d);
    hand_own(
        both.own, checked, own_number, own_steps, own_size, own_place,
    );
    hand_came(unfolded_so_far(both.unfolded), steps, size, place)
}

// Copies the plan reached, after `steps` steps and of `size` words, out of area A or B, with zeros behind it: 0 and its length; or 1 and 0 where
// the area is too short, which then keeps its bytes.
#[unsafe(no_mangle)]
pub extern "C" fn aberulwy_reached<'a>(
    a: &'a [u8],
    b: &'a [u8],
    steps: usize,
    size: usize,
    plan: &mut [u8],
    copied: &mut usize,
) -> u8
    ensures whole { ◌≡◌ {A = HandedOver} (record { number = result; size = copied.new; out = plan.new })
        (handed_over (reached_part (even? steps) size a.now b.now) plan.old) }
{
    let part = aberulwy::reached(a, b, steps, size);
    hand_over(part, plan, copied)
}

// Checks a rewriting, whose records are steps from left to right or from right to left: 0 where it is accepted, or 31 to 33, with the steps made and the
// length of the plan reached; or the number of the refusal (1 to 8, 11 to 18, 75) and its place.
#[unsafe(no_mangle)]
pub extern "C" fn aberulwy_check_rewriting(
    tables: &[u8],
    start: &[u8],
    claimed: &[u8],
    rewriting: &[u8],
    a: &mut [u8],
    b: &mut [u8],
    steps: &mut usize,
    size: &mut usize,
    place: &mut usize,
) -> u8
    ensures whole { ◌≡◌ {A = Returned}
        (record {
          number = result;
          place = place.new;
          values = steps.new ∷ size.new ∷ [];
          areas = a.new ∷ b.new ∷ [];
        })
        (check_returned tables.now start.now claimed.now rewriting.now
        a.old b.old) }
    ensures claims { CheckSeen
        (check_given tables.now start.now claimed.now rewriting.now
        a.old b.old)
        a.new b.new result place.new steps.new size.new }
{
    let answer = aberulwy::check_rewriting(tables, start, claimed, rewriting, a, b);
    hand_came(checked_so_far(answer), steps, size, place)
}

// Reads a station file into a tables area and a plan area: 0 with the plan's length; or the number of the refusal and its place.
#[unsafe(no_mangle)]
pub extern "C" fn aberulwy_read_station(
    file: &[u8],
    tables: &mut [u8],
    plan: &mut [u8],
    size: &mut usize,
    place: &mut usize,
) -> u8
    ensures whole { ◌≡◌ {A = Returned}
        (record {
          number = result;
          place = place.new;
          values = size.new ∷ [];
          areas = tables.new ∷ plan.new ∷ [];
        })
        (station_returned file.now tables.old plan.old) }
    ensures claims { StationReadSeen file.now tables.old plan.old tables.new plan.new
        result place.new size.new }
{
    hand_size(aberulwy::read_station(file, tables, plan), size, place)
}

// Writes the station file of tables and a plan into an area, zeros after: 0 with the file's length; or the number of the refusal and its place, and then
// the area keeps its bytes.
#[unsafe(no_mangle)]
pub extern "C" fn aberulwy_write_station(
    tables: &[u8],
    plan: &[u8],
    file: &mut [u8],
    size: &mut usize,
    place: &mut usize,
) -> u8
    ensures whole { ◌≡◌ {A = Returned}
        (record {
          number = result;
          place = place.new;
          values = size.new ∷ [];
          areas = file.new ∷ [];
        })
        (written_returned tables.now plan.now file.old) }
    ensures claims { StationWrittenSeen tables.now plan.now file.old file.new
        result place.new size.new }
{
    hand_size(aberulwy::write_station(tables, plan, file), size, place)
}

// Reads a text, a plan typed in signs, into a plan area: 0 with the plan's length; or the number of the refusal and its place.
#[unsafe(no_mangle)]
pub extern "C" fn aberulwy_read_text(
    tables: &[u8],
    text: &[u8],
    plan: &mut [u8],
    size: &mut usize,
    place: &mut usize,
) -> u8
    ensures whole { ◌≡◌ {A = Returned}
        (record {
          number = result;
          place = place.new;
          values = size.new ∷ [];
          areas = plan.new ∷ [];
        })
        (text_returned tables.now text.now plan.old) }
    ensures claims { TextSeen tables.now text.now plan.old plan.new
        result place.new size.new }
{
    hand_size(aberulwy::read_text(tables, text, plan), size, place)
}

// Begins a walk through a basic plan: 0, with one mark, at the last word, and `finished` 0; or the number of the refusal and its place, and then the
// marks and `finished` keep what they held.
#[unsafe(no_mangle)]
pub extern "C" fn aberulwy_fresh_walk(
    tables: &[u8],
    plan: &[u8],
    marks: &mut [u8],
    finished: &mut usize,
    place: &mut usize,
) -> u8
    ensures whole { ◌≡◌ {A = Returned}
        (record {
          number = result;
          place = place.new;
          values = finished.new ∷ [];
          areas = marks.new ∷ [];
        })
        (fresh_returned tables.now plan.now marks.old finished.old) }
    ensures claims { FreshSeen tables.now plan.now marks.old marks.new
        finished.old result place.new finished.new }
{
    let mut finish = *finished != 0;
    let answer = aberulwy::fresh_walk(tables, plan, marks, &mut finish);
    hand_walked(answer, finish, finished, place)
}

// Brings a message to a walk: 0 where it is taken, with the marks of what it leads to and `finished` 1 where it finishes from a marked subplan, and
// else 0; or the number of the refusal and its place, and then the marks and `finished` keep what they held.
#[unsafe(no_mangle)]
pub extern "C" fn aberulwy_walk(
    tables: &[u8],
    plan: &[u8],
    marks: &mut [u8],
    message: u8,
    finished: &mut usize,
    place: &mut usize,
) -> u8
    ensures whole { ◌≡◌ {A = Returned}
        (record {
          number = result;
          place = place.new;
          values = finished.new ∷ [];
          areas = marks.new ∷ [];
        })
        (walk_returned tables.now plan.now marks.old message finished.old) }
    ensures claims { WalkSeen tables.now plan.now marks.old marks.new
        message finished.old result place.new finished.new }
{
    let mut finish = *finished != 0;
    let answer = aberulwy::walk(tables, plan, marks, message, &mut finish);
    hand_walked(answer, finish, finished, place)
}

// Asks whether on every path each appearance of the second action has the first before it: 0, with `yes` 1, or with `yes` 0 and in `at` the least place of
// one that has not; or the number of the refusal and its place. `at` is 0 but under no.
#[unsafe(no_mangle)]
pub extern "C" fn aberulwy_precedes(
    tables: &[u8],
    plan: &[u8],
    first: u8,
    second: u8,
    yes: &mut usize,
    at: &mut usize,
    place: &mut usize,
) -> u8
    ensures whole { ◌≡◌ {A = Returned}
        (record { number = result; place = place.new; values = yes.new ∷ at.new ∷ []; areas = [] })
        (returned 2 (precedence_reported tables.now plan.now first second) []) }
    ensures claims { PrecedenceSeen tables.now plan.now first second
        result place.new yes.new at.new }
{
    *yes = 0;
    *at = 0;
    *place = 0;
    match aberulwy::precedes(tables, plan, first, second) {
        Ok(None) => {
            *yes = 1;
            0
        }
        Ok(Some(found)) => {
            *at = found;
            0
        }
        Err(refusal) => refuse(refusal, place),
    }
}

// Brings a basic plan to its fixed form and puts it into an area, zeros after: 0 with the form's length; or the number of the refusal and its place, and
// then the area keeps its bytes.
#[unsafe(no_mangle)]
pub extern "C" fn aberulwy_fix_form(
    tables: &[u8],
    plan: &[u8],
    area: &mut [u8],
    size: &mut usize,
    place: &mut usize,
) -> u8
    ensures whole { ◌≡◌ {A = Returned}
        (record {
          number = result;
          place = place.new;
          values = size.new ∷ [];
          areas = area.new ∷ [];
        })
        (fixed_returned tables.now plan.now area.old) }
    ensures claims { FormSeen tables.now plan.now area.old area.new
        result place.new size.new }
{
    hand_size(aberulwy::fix_form(tables, plan, area), size, place)
}

// Lists a station file, everything that the program prints for it, with zeros behind it: 0 and its length; or 1 and 0 where the area is too
// short, which then keeps its bytes. No listing is longer than 93,000 bytes.
#[unsafe(no_mangle)]
pub extern "C" fn aberulwy_list_station(file: &[u8], out: &mut [u8], size: &mut usize) -> u8
    ensures whole { ◌≡◌ {A = HandedOver} (record { number = result; size = size.new; out = out.new })
        (handed_over (listing file.now) out.old) }
    ensures bounded { length (listing file.now) ≤ most }
    ensures endings { Endings file.now }
{
    *size = 0;
    match listing::list_station(file, out) {
        Some(length) => {
            *size = length;
            0
        }
        None => 1,
    }
}
