//! What a run printed, in numbers.
ghost use Rattle.std.specs.Prelude.{◌≡◌, [], ◌+◌, ◌-◌, ◌^◌, ℕ, min, option_map, true, unwrap_or};
ghost use Rattle.std.specs.Borrow.{ftrue};
ghost use Rattle.ipmi_commands.specs.Output.{count_if, no_output};

use std::marker::Model;

/// The two numbers, however large they are. Only contracts see them, so they cost nothing at run time.
#[derive(Drop)]
struct Counts {
    /// The items with a text.
    pub ghost pieces: { ℕ },
    /// Those of them with a fault.
    pub ghost faults: { ℕ },
}

impl Model for Counts {
    ghost also_owns = { λ _. ftrue };
}

/// The counts before, if anything was counted, and the text of an item, and whether the item has a fault.
#[derive(Clone, Copy)]
struct More<'c, 't>(Option<&'c Counts>, &'t [u8], bool);

impl Counts {
    /// The counts with the item.
    fn with(_more: &More<'_, '_>) -> Counts
        ensures { (result.pieces ≡ unwrap_or (option_map (λ counts. counts.now.pieces) _more.now.0) 0
            + count_if true _more.now.1.now)
            × (result.faults ≡ unwrap_or (option_map (λ counts. counts.now.faults) _more.now.0) 0
            + count_if _more.now.2 _more.now.1.now) }
    {
        Counts {}
    }
}

/// What a run printed: how many items have a text, and how many of these have a fault.
#[derive(Drop)]
pub struct Summary {
    pieces: u64,
    faults: u64,
    counts: Counts,
    ghost pieces_are: { pieces ≡ min counts.pieces (2 ^ 64 - 1) },
    ghost faults_are: { faults ≡ min counts.faults (2 ^ 64 - 1) },
}

impl Summary {
    ghost use Rattle.ipmi_commands.specs.Printed.{faults_of, pieces_of, printed};

    /// That of a run that printed nothing.
    pub fn new() -> Summary
        ensures { printed [] result ≡ no_output }
    {
        Summary {
            pieces: 0,
            faults: 0,
            counts: Counts::with(&More(None, &[], false)),
        }
    }

    /// How many items were printed: records, entries, devices and infos with a text. What isn't chosen has none.
    pub fn pieces(&self) -> u64
        ensures { result ≡ min (pieces_of self.now) (2 ^ 64 - 1) }
    {
        self.pieces
    }

    /// How many of them have a fault: a sensor data record that can't be read, a device that is missing, or an
    /// inventory with a fault that the form of output names.
    pub fn faults(&self) -> u64
        ensures { result ≡ min (faults_of self.now) (2 ^ 64 - 1) }
    {
        self.faults
    }

    /// Counts an item with this text.
    pub(crate) fn add(&mut self, text: &[u8], has_fault: bool)
        ensures pieces { pieces_of self.new ≡ pieces_of self.old + count_if true text.now }
        ensures faults { faults_of self.new ≡ faults_of self.old + count_if has_fault text.now }
    {
        self.counts = Counts::with(&More(Some(&self.counts), text, has_fault));
        if !text.is_empty() {
            self.pieces = self.pieces.saturating_add(1);
            self.faults = self.faults.saturating_add(u64::from(has_fault));
        }
    }
}
