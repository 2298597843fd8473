//! What a run may take of a controller.
ghost use Rattle.std.specs.Prelude.{◌≡◌, ◌≤◌, true, false};

use ipmi_command_line::Command;

/// The part size of a live run for which none is given. The longest sensor data record of the standard is one part.
pub const LIVE_PART: u8 = 64;

/// How many retries a run may make for each record, reading and info, and for each inventory or each part of one.
#[derive(Clone, Copy)]
pub struct Tries {
    /// The number of retries.
    pub count: u8,
    /// Whether each part of an inventory has so many: they are counted afresh after each part that brought bytes.
    /// Otherwise the whole inventory has.
    pub for_each_part: bool,
}

impl Tries {
    ghost use Rattle.ipmi_commands.specs.Prelude.{for_inventory};

    /// So many for each record, reading, info or inventory.
    fn for_inventory(count: u8) -> Tries
        ensures { result ≡ for_inventory count }
    {
        Tries {
            count,
            for_each_part: false,
        }
    }
}

/// What a run may take of a controller: how many bytes of a record or inventory per request, how many retries, and whether
/// sensor data records are read ahead.
#[derive(Clone, Copy)]
pub struct RequestLimits {
    part: u8,
    tries: Tries,
    ahead: bool,
    ghost part_low: { 1 ≤ part },
    ghost part_high: { part ≤ 254 },
}

impl RequestLimits {
    ghost use Rattle.ipmi_commands.specs.Prelude.{for_each_part, for_inventory};

    /// At most `part` bytes per request, 1 to 254, and `tries` retries for each record, reading, info or inventory.
    /// Nothing is read ahead.
    pub fn new(part: u8, tries: u8) -> RequestLimits
        requires { (1 ≤ part) × (part ≤ 254) }
        ensures part { result.part ≡ part }
        ensures tries { result.tries ≡ for_inventory tries }
        ensures ahead { result.ahead ≡ false }
    {
        RequestLimits {
            part,
            tries: Tries::for_inventory(tries),
            ahead: false,
        }
    }

    /// The same, but sensor data records are read ahead (`Cursor::read_ahead`).
    pub fn reading_ahead(part: u8, tries: u8) -> RequestLimits
        requires { (1 ≤ part) × (part ≤ 254) }
        ensures part { result.part ≡ part }
        ensures tries { result.tries ≡ for_inventory tries }
        ensures ahead { result.ahead ≡ true }
    {
        RequestLimits {
            part,
            tries: Tries::for_inventory(tries),
            ahead: true,
        }
    }

    /// The same, but each part of an inventory has as many retries (`read_fru_retrying_parts`).
    pub fn retrying_parts(self) -> RequestLimits
        ensures part { result.part ≡ self.part }
        ensures tries { result.tries ≡ for_each_part self.tries.count }
        ensures ahead { result.ahead ≡ self.ahead }
    {
        RequestLimits {
            part: self.part,
            tries: Tries {
                count: self.tries.count,
                for_each_part: true,
            },
            ahead: self.ahead,
        }
    }

    /// Those of the command, by its options `--part` and `--tries`.
    pub fn of(cmd: &Command) -> RequestLimits
        ensures part { result.part ≡ cmd.now.part }
        ensures tries { result.tries ≡ for_inventory cmd.now.tries }
        ensures ahead { result.ahead ≡ false }
    {
        RequestLimits::new(cmd.part(), cmd.tries())
    }

    /// The largest number of bytes per request.
    pub fn part(self) -> u8
        ensures value { result ≡ self.part }
        ensures range { (1 ≤ result) × (result ≤ 254) }
    {
        self.part
    }

    /// How many retries there are, and what for.
    pub fn tries(self) -> Tries
        ensures { result ≡ self.tries }
    {
        self.tries
    }

    /// Whether sensor data records are read ahead.
    pub fn reads_ahead(self) -> bool
        ensures { result ≡ self.ahead }
    {
        self.ahead
    }
}
