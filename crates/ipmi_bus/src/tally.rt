//! Counters of a controller that exist only for contracts.
ghost use Rattle.std.specs.Prelude.{◌≡◌};
ghost use Rattle.std.specs.Borrow.{ftrue};
ghost use Rattle.ipmi_bus.specs.Counts.{Counts};

use crate::code::Code;
use std::marker::Model;

/// An event that a controller counts.
#[derive(Clone, Copy, Debug, PartialEq, Eq)]
pub enum Event {
    /// A call for a part of this many bytes; 0 for a call for anything else.
    Called(u8),
    /// The call failed with this code. Its class says whether that is a trouble, a refusal, a request for a smaller
    /// part, or that nothing is present.
    Failed(Code),
    /// The same of a call that read ahead (`reads_ahead`): a refusal counts nothing.
    FailedAhead(Code),
    /// An answer completed something, such as a record by its last byte.
    Finished,
    /// Another store replaced the previous one.
    Stored,
}

/// Counters that only contracts read. They take no memory and have no upper limit.
#[derive(Drop)]
pub struct Tally {
    /// The counts of the events so far.
    pub ghost counts: { Counts },
}

impl Model for Tally {
    ghost also_owns = { λ _. ftrue };
}

impl Tally {
    ghost use Rattle.ipmi_bus.specs.Events.{counts_after, part_failed, zero_counts};
    ghost use Rattle.ipmi_bus.specs.declared.tally.Event.{Event};

    /// All counts are zero.
    pub fn new() -> Tally
        ensures { result.counts ≡ zero_counts }
    {
        Self {}
    }

    fn after(_before: &Tally, _event: &Event) -> Tally
        ensures { result.counts ≡ counts_after _before.now.counts _event.now }
    {
        Tally {}
    }

    /// Counts an event.
    pub fn count(&mut self, event: Event)
        ensures { self.new.counts ≡ counts_after self.old.counts event }
    {
        *self = Tally::after(self, &event);
    }

    /// Counts a failure of the call with this code, and returns the code.
    pub fn fail(&mut self, code: Code) -> Code
        ensures counts { self.new.counts ≡ counts_after self.old.counts (Event.Failed code) }
        ensures code { result ≡ code }
    {
        self.count(Event::Failed(code));
        code
    }

    /// Counts a failure of a call for a part, which read ahead or did not, with this code, and returns the code.
    pub fn fail_part(&mut self, ahead: bool, code: Code) -> Code
        ensures counts { self.new.counts ≡ counts_after self.old.counts (part_failed ahead code) }
        ensures code { result ≡ code }
    {
        self.count(if ahead {
            Event::FailedAhead(code)
        } else {
            Event::Failed(code)
        });
        code
    }
}
