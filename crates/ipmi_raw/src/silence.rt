//! Requests in a row that were met with silence.
ghost use Rattle.std.specs.Prelude.{◌≡◌, ◌+◌, ◌≤◌, ◌<◌, MatchBool};

/// The number of requests in a row that were met with silence: at most as many as the troubles that one thing may have.
#[derive(Drop)]
pub struct Silence {
    /// The number of troubles that one thing may have. At the next one it is given up.
    tries: u8,
    silent: u8,
    pub ghost few: { silent ≤ tries },
}

impl Silence {
    /// No request was met with silence.
    pub fn new(tries: u8) -> Silence
        ensures tries { result.tries ≡ tries }
        ensures none { result.silent ≡ 0 }
    {
        Silence { tries, silent: 0 }
    }

    /// Counts one more request. False, and nothing is counted, if for so many a thing is given up.
    pub fn add(&mut self) -> bool
        ensures tries { self.new.tries ≡ self.old.tries }
        ensures counts { MatchBool result (self.new.silent ≡ self.old.silent + 1)
            ((self.new.silent ≡ self.old.silent) × (self.old.silent ≡ self.old.tries)) }
    {
        let counts = self.silent < self.tries;
        if counts {
            self.silent += 1;
        }
        counts
    }

    /// An answer came: the next silent request is the first of its row.
    pub fn end(&mut self)
        ensures tries { self.new.tries ≡ self.old.tries }
        ensures none { self.new.silent ≡ 0 }
    {
        self.silent = 0;
    }
}
