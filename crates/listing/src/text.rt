// The text of a listing, which grows at its end. Numbers go in by `io::decimal` and not by `write!`, which promises its text only where it answers
// `Ok`, and never that it does.
ghost use Rattle.std.specs.Prelude.{◌≡◌, ◌+◌, ◌≤◌, ◌<◌, length};
ghost use Rattle.listing.specs.Text.{labelled, line_end};
ghost use Rattle.listing.specs.Writing.{Wrote, most};

// No listing is longer.
pub const LONGEST: usize = 93000;

// The text so far: the first `size` bytes of as many as a listing may have, since memory is fixed.
#[derive(Drop)]
pub struct Text {
    pub bytes: [u8; LONGEST],
    pub size: usize,
    ghost long: { length bytes ≡ most },
    ghost within: { size ≤ most },
}

impl Text {
    // Puts a label and then a number in decimal.
    pub fn put_labelled(&mut self, label: &[u8], number: usize)
        requires { self.old.size + length (labelled label.now number) ≤ most }
        ensures { Wrote self.old.bytes self.old.size (labelled label.now number) self.new.bytes self.new.size }
    {
        let mut digits = [0u8; 20];
        let width = io::decimal(number as u64, &mut digits);
        self.size = areas::copy_in(label, &mut self.bytes, self.size);
        self.size = areas::copy_in(&digits[..width], &mut self.bytes, self.size);
    }

    // Ends a line.
    pub fn end_line(&mut self)
        requires { self.old.size < most }
        ensures { Wrote self.old.bytes self.old.size line_end self.new.bytes self.new.size }
    {
        self.size = areas::put_word(b'\n', &mut self.bytes, self.size);
    }
}
