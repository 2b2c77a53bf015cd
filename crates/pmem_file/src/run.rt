// Neighbouring lines, which one write brings to the file.
ghost use Rattle.std.specs.Prelude.{◌≡◌, ◌+◌, ◌^◌, ◌<◌, ◌&&◌, ◌==◌, nat_lt};

/// How many lines of 64 bytes one write has at most.
pub const LINES_A_WRITE: u64 = 1_024;

/// So many lines from the first on.
#[derive(Clone, Copy)]
pub struct Run {
    pub first: u64,
    pub count: u64,
}

impl Run {
    /// One line.
    pub fn of(line: u64) -> Run
        ensures { result ≡ record { first = line; count = 1 } }
    {
        Run {
            first: line,
            count: 1,
        }
    }

    /// Whether a line is the next of the run, and the run may have one more.
    pub fn is_next(&self, line: u64) -> bool
        requires { self.now.first + self.now.count < 2 ^ 64 }
        ensures { result ≡ ((line == self.now.first + self.now.count) && nat_lt self.now.count LINES_A_WRITE) }
    {
        line == self.first + self.count && self.count < LINES_A_WRITE
    }
}
