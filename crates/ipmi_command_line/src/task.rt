//! The task of a command.
ghost use Rattle.std.specs.Prelude.{◌≡◌};
ghost use Rattle.ipmi_command_line.specs.Task.{takes_from};

use crate::words::Word;
use ipmi_bus::Shelf;
use std::marker::Model;

/// Which sensor data records are listed, by type.
#[derive(Clone, Copy, Debug, PartialEq, Eq)]
pub enum Kind {
    /// If no kind is named: full and compact sensor records.
    Sensors,
    /// Every record.
    All,
    /// Full sensor records.
    Full,
    /// Compact sensor records.
    Compact,
    /// Event-only records.
    Event,
    /// Generic device locators.
    Generic,
    /// Management controller locators.
    Mc,
    /// FRU device locators.
    Fru,
}

/// Which entries of the system event log are listed. A number is at least 1.
#[derive(Clone, Copy, Debug, PartialEq, Eq)]
pub enum Count {
    /// Every entry.
    All,
    /// This many of the oldest.
    First(u16),
    /// This many of the newest.
    Last(u16),
    /// This many of the newest, on a walk that begins where the log's info suggests.
    Tail(u16),
}

/// The task of a command.
#[derive(Debug, Drop)]
pub enum Task {
    /// `fru print`: the inventory with this id, 0 to 254, or all inventories.
    Fru(Option<u8>),
    /// `sdr hex`: the image line of each sensor data record.
    Hex,
    /// `sdr list`: a line for each sensor data record of the kind.
    List(Kind),
    /// `sdr elist`: a longer line for each sensor data record of the kind.
    Elist(Kind),
    /// `sdr get`: the block of each record with this printed name.
    Get(Word),
    /// `sdr info` and `sel info`.
    Info(Shelf),
    /// `sel list`: a line for each of these entries.
    SelList(Count),
    /// `sel get`: the block of the entry with this id, 1 to 65534.
    SelGet(u16),
    /// `image rewrite`: the image in its canonical spelling.
    Rewrite,
}

/// Tasks that are done one after another. In contracts they are a list.
#[derive(Debug, Drop)]
pub struct Tasks {
    items: Vec<Task>,
}

impl Model for Tasks {
    ghost use Rattle.std.specs.Prelude.{List};
    ghost use Rattle.ipmi_command_line.specs.declared.task.Task.{Task};

    ghost Value = { List Task };

    ghost view = { λ tasks. tasks.items.items };
}

impl Tasks {
    /// These tasks.
    pub(crate) fn new(items: Vec<Task>) -> Tasks
        ensures { result ≡ items.items }
    {
        Tasks { items }
    }

    /// The tasks, in their order.
    pub fn as_slice(&self) -> &[Task]
        ensures { result.now ≡ self.now }
    {
        self.items.as_slice()
    }
}

impl Task {
    /// Whether the task takes an id to start from, `--from`.
    pub fn takes_from(&self) -> bool
        ensures { result ≡ takes_from self.now }
    {
        matches!(
            self,
            Task::Hex
                | Task::List(_)
                | Task::Elist(_)
                | Task::Get(_)
                | Task::SelList(Count::All | Count::First(_) | Count::Last(_))
        )
    }
}
