// The lines that the program prints.
ghost use Rattle.std.specs.Prelude.{◌+◌, ◌*◌, ◌≤◌, length};
ghost use Rattle.rewritings.specs.Moves.{moves_of};
ghost use Rattle.listing.specs.Listing.{first_line, words_line, step_line, step_lines, refused_line};
ghost use Rattle.listing.specs.Writing.{Wrote, most};

use crate::text::Text;
use plans::Counts;
use refusals::Refusal;

impl Text {
    // The first line: how the unfolding ended, the steps made, the size of the plan reached, its orders and its stuck paths.
    #[tactic(auto, using(crate::proofs::Lengths::any_label))]
    pub fn put_first(&mut self, number: usize, steps: usize, size: usize, counts: Counts)
        requires { self.old.size + 133 ≤ most }
        ensures { Wrote self.old.bytes self.old.size (first_line number steps size counts) self.new.bytes self.new.size
            × (self.new.size ≤ self.old.size + 133) }
    {
        self.put_labelled(b"end ", number);
        self.put_labelled(b" steps ", steps);
        self.put_labelled(b" size ", size);
        self.put_labelled(b" orders ", counts.orders);
        self.put_labelled(b" stuck ", counts.stuck);
        self.end_line();
    }

    // The words reached on one line, with one space between two.
    pub fn put_words(&mut self, plan: &[u8])
        requires { self.old.size + (4 * length plan.now + 1) ≤ most }
        ensures { Wrote self.old.bytes self.old.size (words_line plan.now) self.new.bytes self.new.size
            × (self.new.size ≤ self.old.size + (4 * length plan.now + 1)) }
    {
        let [first, others @ ..] = plan else {
            self.end_line();
            return;
        };
        self.put_labelled(b"", *first as usize);
        for &word in others {
            self.put_labelled(b" ", word as usize);
        }
        self.end_line();
    }

    // One step on a line: its law and its place.
    fn put_step(&mut self, law: u8, place: usize)
        requires { self.old.size + length (step_line law place) ≤ most }
        ensures { Wrote self.old.bytes self.old.size (step_line law place) self.new.bytes self.new.size }
    {
        self.put_labelled(b"", law as usize);
        self.put_labelled(b" ", place);
        self.end_line();
    }

    // A line for each step that is recorded: "in three bytes: law, then place, low byte first" (01).
    pub fn put_steps(&mut self, records: &[u8])
        requires { self.old.size + 4 * length records.now ≤ most }
        ensures { Wrote self.old.bytes self.old.size (step_lines (moves_of records.now)) self.new.bytes self.new.size
            × (self.new.size ≤ self.old.size + 4 * length records.now) }
    {
        let mut left = records;
        while let [law, low, high, others @ ..] = left {
            self.put_step(*law, *low as usize + 256 * (*high as usize));
            left = others;
        }
    }

    // The only line where something is refused: the refusal's number and its place.
    #[tactic(auto, using(crate::proofs::Lengths::any_label))]
    pub fn put_refusal(&mut self, refusal: Refusal)
        requires { self.old.size + 50 ≤ most }
        ensures { Wrote self.old.bytes self.old.size (refused_line refusal) self.new.bytes self.new.size
            × (self.new.size ≤ self.old.size + 50) }
    {
        self.put_labelled(b"refused ", refusal.number as usize);
        self.put_labelled(b" ", refusals::print_place(refusal.place));
        self.end_line();
    }
}
