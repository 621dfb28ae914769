// What came of the frames of a recording.
ghost use Rattle.std.specs.Prelude.{◌≡◌, ◌≢◌, ◌+◌, ◌^◌, ◌<◌, false, ◌&&◌, ◌==◌, cond, codes};

use std::fmt;

#[derive(Clone, Copy)]
pub struct Tally {
    // Bytes in a frame.
    frame_length: usize,
    // Bytes behind the last whole frame of the recording.
    unfinished: usize,
    // Frames that came out of the queue, and how many of these were left over in it at the end.
    came_out: usize,
    left_over: usize,
    // Frames that found the queue full.
    lost: usize,
    // Frames that came out otherwise than they were recorded.
    differing: usize,
    // Whether every frame was handed in, and every frame that waited came out.
    complete: bool,
}

impl Tally {
    // Nothing has come of the frames yet.
    pub fn new(frame_length: usize, unfinished: usize) -> Tally
        ensures { result ≡ record { frame_length = frame_length; unfinished = unfinished; came_out = 0; left_over = 0; lost = 0; differing = 0; complete = false } }
    {
        Tally {
            frame_length,
            unfinished,
            came_out: 0,
            left_over: 0,
            lost: 0,
            differing: 0,
            complete: false,
        }
    }

    // Counts a frame that came out, and compares it with what was recorded.
    pub fn compare(&mut self, recorded: &[u8], came_out: &[u8])
        ensures came_out { self.old.came_out + 1 < 2 ^ 64 → self.new.came_out ≡ self.old.came_out + 1 }
        ensures same { recorded.now ≡ came_out.now → self.new.differing ≡ self.old.differing }
        ensures other { recorded.now ≢ came_out.now → self.old.differing + 1 < 2 ^ 64 → self.new.differing ≡ self.old.differing + 1 }
        ensures stays { (self.new.lost ≡ self.old.lost) × (self.new.left_over ≡ self.old.left_over) × (self.new.complete ≡ self.old.complete) }
    {
        self.came_out = self.came_out.saturating_add(1);
        if recorded != came_out {
            self.differing = self.differing.saturating_add(1);
        }
    }

    // Counts a frame that found the queue full.
    pub fn count_lost(&mut self)
        ensures lost { self.old.lost + 1 < 2 ^ 64 → self.new.lost ≡ self.old.lost + 1 }
        ensures stays { (self.new.came_out ≡ self.old.came_out) × (self.new.differing ≡ self.old.differing) }
    {
        self.lost = self.lost.saturating_add(1);
    }

    // The recording is at its end: so many frames were left over, and that was all, or was not.
    pub fn finish(&mut self, left_over: usize, complete: bool)
        ensures ended { (self.new.left_over ≡ left_over) × (self.new.complete ≡ complete) }
        ensures stays { (self.new.came_out ≡ self.old.came_out) × (self.new.lost ≡ self.old.lost) × (self.new.differing ≡ self.old.differing) }
    {
        self.left_over = left_over;
        self.complete = complete;
    }

    // Whether each frame of the recording either came out as it was recorded, or was lost.
    pub fn all_agree(&self) -> bool
        ensures { result ≡ (self.now.differing == 0 && self.now.complete) }
    {
        self.differing == 0 && self.complete
    }

    // What is printed of the bytes.
    fn verdict(&self) -> &'static str
        ensures { result.now ≡ cond (self.now.differing == 0 && self.now.complete) (codes "agree") (codes "differ") }
    {
        if self.all_agree() { "agree" } else { "differ" }
    }
}

impl fmt::Display for Tally {
    fn fmt<W: fmt::Write>(&self, f: &mut fmt::Formatter<W>) -> fmt::Result {
        let Tally {
            frame_length,
            unfinished,
            came_out,
            left_over,
            lost,
            ..
        } = *self;
        let frames = came_out.saturating_add(lost);
        let taken_out = came_out.saturating_sub(left_over);
        write!(
            f,
            "{frames} frames of {frame_length} bytes came: {taken_out} taken out, {left_over} left over, {lost} lost"
        )?;
        if unfinished > 0 {
            write!(f, ", {unfinished} bytes unfinished")?;
        }
        let verdict = self.verdict();
        write!(f, "; bytes {verdict}")
    }
}
