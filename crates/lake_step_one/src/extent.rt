// Where a body's expressions stand in a table.
ghost use Rattle.std.specs.Prelude.{◌<◌, ◌-◌, ◌≡◌};

// From the first to behind the last, which is the word of the body in its table and so not 0.
#[derive(Clone, Copy)]
pub struct Extent {
    pub from: usize,
    pub end: usize,
    ghost words: { (from < 4294967296) × (0 < end) × (end < 4294967296) },
}

impl Extent {
    ghost use Rattle.lake_step_one.specs.steps.Extents.{Spans};

    // The extent of a body by its word, which is 0 where there is none.
    pub fn of(from: usize, end: usize) -> Option<Extent>
        requires { (from < 4294967296) × (end < 4294967296) }
        ensures { Spans from end result }
    {
        if end == 0 {
            None
        } else {
            Some(Extent { from, end })
        }
    }

    // How many expressions they are.
    pub fn count(self) -> usize
        ensures { result ≡ self.end - self.from }
    {
        self.end.saturating_sub(self.from)
    }
}
