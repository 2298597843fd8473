//! A form of output: which text is printed for each thing, whatever the command.
ghost use Rattle.std.specs.Prelude.{◌≡◌, ◌<◌, ◌≤◌, IfOk, length, option_map, unwrap_or};
ghost use Rattle.ipmi_commands.specs.Below.{row_of_record};
ghost use Rattle.ipmi_commands.specs.Format.{Frame, IsTextOfRecord, Texts, TextsAreOne, TextsExist};

use ipmi_bus::{Record, Shelf};
use ipmi_events::Sensors;
use ipmi_image::LineBuffer;
use ipmi_records::{KnownReading, SdrFault, SdrView, SelView};
use ipmi_selection::Detail;
use std::alloc::{AllocError, Global};

/// A form of output. The engine reads from the controller and chooses; a form of output only makes the texts, each of whole lines
/// and none empty. What is proved of a run speaks of the texts that `texts` names, so they are for a reader to judge.
pub trait Format {
    /// Which texts are those of which thing.
    ghost texts: { Self → Texts };

    /// Whether entries and devices are printed with names from the sensor data records, which are then read first.
    fn has_names(&self, detail: Detail) -> bool
        ensures { result ≡ (texts self.now).has_names detail };

    /// The text of a sensor data record with what is known of its sensor's reading.
    fn record(
        &self,
        alloc: Global,
        detail: Detail,
        id: u16,
        view: &SdrView<'_>,
        reading: KnownReading,
    ) -> Result<Vec<u8>, AllocError>
        ensures { IfOk result (λ text. IsTextOfRecord (texts self.now) detail id view.now reading text.items) };

    /// The text of a sensor data record with a fault.
    fn fault(
        &self,
        alloc: Global,
        id: u16,
        fault: SdrFault,
        bytes: &[u8],
    ) -> Result<Vec<u8>, AllocError>
        ensures text { IfOk result (λ text. (texts self.now).IsFault id fault bytes.now text.items) }
        ensures some { IfOk result (λ text. 0 < length text.items) };

    /// The text of a sensor data record in hex. None if the text is now in `line`, for which no memory was needed.
    fn hex(
        &self,
        alloc: Global,
        lent: &Record<'_>,
        line: &mut LineBuffer,
    ) -> Result<Option<Vec<u8>>, AllocError>
        requires { length lent.now.bytes.now ≤ 256 }
        ensures { IfOk result (λ own. (texts self.now).IsHex (row_of_record lent.now)
            (unwrap_or (option_map (λ text. text.items) own) line.new.items)) };

    /// The text of an entry of the event log, with the name of its sensor in these records if the text has it.
    fn entry(
        &self,
        alloc: Global,
        detail: Detail,
        id: u16,
        entry: &SelView<'_>,
        sensors: Option<&Sensors>,
    ) -> Result<Vec<u8>, AllocError>
        ensures text { IfOk result (λ text. (texts self.now).IsEntry detail id entry.now
            (option_map (λ records. records.now) sensors.entry) text.items) }
        ensures some { IfOk result (λ text. 0 < length text.items) };

    /// The text of the info of a shelf.
    fn info(&self, alloc: Global, shelf: Shelf, info: &[u8; 14]) -> Result<Vec<u8>, AllocError>
        ensures text { IfOk result (λ text. (texts self.now).IsInfo shelf info.now text.items) }
        ensures some { IfOk result (λ text. 0 < length text.items) };

    /// The text of a device with its name and its inventory, if there is one.
    fn device(
        &self,
        alloc: Global,
        detail: Detail,
        id: u8,
        name: Option<&str>,
        inventory: Option<&[u8]>,
    ) -> Result<Vec<u8>, AllocError>
        ensures text { IfOk result (λ text. (texts self.now).IsDevice detail id (option_map (λ name. name.now) name.entry)
            (option_map (λ bytes. bytes.now) inventory.entry) text.items) }
        ensures some { IfOk result (λ text. 0 < length text.items) };

    /// Whether the text of a device with this inventory names a fault of it.
    fn names_fault(&self, detail: Detail, inventory: &[u8]) -> bool
        ensures { result ≡ (texts self.now).names_fault detail inventory.now };

    /// The text of a device of this name that is reached elsewhere.
    fn elsewhere(&self, alloc: Global, name: &str) -> Result<Vec<u8>, AllocError>
        ensures text { IfOk result (λ text. (texts self.now).IsElsewhere name.now text.items) }
        ensures some { IfOk result (λ text. 0 < length text.items) };

    /// A law of each form of output: a thing has at most one text. Does nothing.
    fn one_text(&self)
        ensures { TextsAreOne (texts self.now) };
}

/// What a command prints, as the header of a form of output may name it.
#[derive(Clone, Copy, Debug, PartialEq, Eq)]
pub enum Table {
    /// Sensor data records, also those with a fault.
    Records,
    /// Sensor data records as bytes.
    RawRecords,
    /// Entries of the event log.
    Entries,
    /// Infos of a shelf.
    Infos,
    /// Devices with their inventories.
    Devices,
}

/// A form of output with what comes before and after the texts of a run. A form that has neither says so, and its texts here are empty.
pub trait Framed: Format {
    /// What these texts are.
    ghost frame: { Self → Frame };

    /// Whether there is a text before all others.
    fn has_header(&self) -> bool
        ensures { result ≡ (frame self.now).has_header };

    /// The text before all others, which names what is printed.
    fn header(&self, alloc: Global, table: Table) -> Result<Vec<u8>, AllocError>
        ensures { IfOk result (λ text. (frame self.now).IsHeader table text.items) };

    /// Whether there is a text at the end of each run.
    fn has_end(&self) -> bool
        ensures { result ≡ (frame self.now).has_end };

    /// The text at the end of a run: its exit status, why it ended, its message if there is one, and how many texts it printed.
    fn end(
        &self,
        alloc: Global,
        status: u8,
        reason: &'static str,
        message: Option<&str>,
        count: u64,
    ) -> Result<Vec<u8>, AllocError>
        ensures { IfOk result (λ text. (frame self.now).IsEnd status reason.entry.now
            (option_map (λ message. message.now) message.entry) count text.items) };
}

/// A form of output of which it is proved that each thing has a text.
pub trait Total: Format {
    /// This law. Does nothing.
    fn has_texts(&self)
        ensures { TextsExist (Self.texts self.now) };
}
