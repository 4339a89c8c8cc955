// A rewriting with steps of both directions, read record by record.
#![tactic(auto)]

ghost use Rattle.std.specs.Prelude.{◌≡◌, ◌+◌, ◌≤◌, length, drop};
ghost use Rattle.rewritings.specs.Records.{first_backward};
ghost use Rattle.rewritings.specs.Reading.{read_first, record_at, after_record, gone_on};

// What stands at a position: a step, by law, place and the position after it; or a step backwards, by law, place, the position of its left side
// and the position after that.
#[derive(Clone, Copy, Debug, PartialEq, Eq)]
pub enum Record {
    Step {
        law: u8,
        place: usize,
        next: usize,
    },
    Back {
        law: u8,
        place: usize,
        from: usize,
        next: usize,
    },
}

// What stands behind the place of a step backwards: "a two-byte length, low first, and the words of the left side".
pub fn back_at(rewriting: &[u8], at: usize, law: u8, place: usize) -> Option<Record>
    requires { at + 3 ≤ length rewriting.now }
    ensures { result ≡ read_first at (first_backward (record { law = law; place = place }) (drop (at + 3) rewriting.now)) }
{
    let [low, high, words @ ..] = &rewriting[at + 3..] else {
        return None;
    };
    let size = usize::from(u16::from_le_bytes([*low, *high]));
    if words.len() < size {
        return None;
    }
    let from = at + 5;
    let next = from + size;
    Some(Record::Back {
        law,
        place,
        from,
        next,
    })
}

// What stands at a position of a rewriting, if a record does. "A step whose first byte is 128 more than a law's number goes backwards."
pub fn step_at(rewriting: &[u8], at: usize) -> Option<Record>
    ensures { result ≡ record_at rewriting.now at }
{
    let [first, low, high, ..] = *rewriting.get(at..)? else {
        return None;
    };
    let place = usize::from(u16::from_le_bytes([low, high]));
    if 128 < first && first <= 128 + laws::HIGHEST_LAW {
        return back_at(rewriting, at, first - 128, place);
    }
    Some(Record::Step {
        law: first,
        place,
        next: at + 3,
    })
}

// "A reader goes through a rewriting": the lent rewriting, and a position in it. A form that document 01 names, so no iterator stands in its place.
#[derive(Clone, Copy)]
pub struct Reader<'a> {
    pub rewriting: &'a [u8],
    pub at: usize,
}

// A reader of a rewriting, at a position.
pub fn open<'a>(rewriting: &'a [u8], at: usize) -> Reader<'a>
    ensures { (result.rewriting ≡ rewriting.entry) × (result.at ≡ at) }
{
    Reader { rewriting, at }
}

// Where a reader stands after what it read at a position: behind a step; and still there at the end.
fn position_after(read: Option<Record>, at: usize) -> usize
    ensures { result ≡ after_record at read }
{
    match read {
        Some(Record::Step { next, .. } | Record::Back { next, .. }) => next,
        None => at,
    }
}

// What a reader read, and the reader behind it.
#[derive(Clone, Copy)]
pub struct Moved<'a> {
    pub read: Option<Record>,
    pub reader: Reader<'a>,
}

// Goes on: the step at which a reader stands, or the end, and the reader behind it.
pub fn next<'a>(reader: Reader<'a>) -> Moved<'a>
    ensures { result ≡ gone_on reader.entry }
{
    let read = step_at(reader.rewriting, reader.at);
    let at = position_after(read, reader.at);
    Moved {
        read,
        reader: Reader { at, ..reader },
    }
}

// What was read.
pub fn read_of<'a>(moved: Moved<'a>) -> Option<Record>
    ensures { result ≡ moved.entry.read }
{
    moved.read
}

// What stands at a position of a rewriting, by a reader that goes on from there. Its parameters are plain: whoever calls it is covered.
pub fn record_at(rewriting: &[u8], at: usize) -> Option<Record>
    ensures { result ≡ record_at rewriting.now at }
{
    read_of(next(open(rewriting, at)))
}
