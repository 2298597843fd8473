//! The items of a controller that are not in its image.
ghost use Rattle.std.specs.Prelude.{◌≡◌, ◌++◌, OnOk, Some};
ghost use Rattle.std.specs.Option.{option_to_list};
ghost use Rattle.std.specs.List.{list_all};
ghost use Rattle.ipmi_capture.specs.Left.{fru_ended_text, leaves_whole, left_text, shelf_text, unread_of, unread_text};

use ipmi_bus::{Code, Ended, FruEnded, Shelf};
use ipmi_output::Failure;
use ipmi_text::{ByteH, HexByte};
use std::alloc::AllocError;
use std::fmt;

/// Why a reading or an info was not read.
#[derive(Clone, Copy, Debug, PartialEq, Eq)]
pub enum Unread {
    /// The controller refused with this code.
    Refused(Code),
    /// There were more troubles than the tries allow.
    GaveUp,
}

impl fmt::Display for Unread {
    ghost output = { λ unread. Some (unread_text unread) };

    fn fmt<W: fmt::Write>(&self, f: &mut fmt::Formatter<W>) -> fmt::Result {
        match self {
            Unread::Refused(code) => {
                let code = ByteH(code.0);
                write!(f, "refused with code {code}")
            }
            Unread::GaveUp => f.write_str("gave up"),
        }
    }
}

impl Unread {
    /// Why a value was not read, from the end of its retrieval.
    pub(crate) fn of(ended: Ended) -> Unread
        ensures { result ≡ unread_of ended }
    {
        match ended {
            Ended::Refused(_, code) => Unread::Refused(code),
            _ => Unread::GaveUp,
        }
    }
}

/// An item of a controller that is not in its image, with the reason. It is displayed as one line, without a line feed.
#[derive(Clone, Copy, Debug, PartialEq, Eq)]
pub enum Left {
    /// The records of the shelf after those that were read. After a cycle or a missing record there are no others; this
    /// is only noted.
    Records(Shelf, Ended),
    /// The info of the shelf.
    Info(Shelf, Unread),
    /// The reading of the sensor with this number at this LUN.
    Reading { lun: u8, number: u8, unread: Unread },
    /// The inventory of the FRU device with this id: the controller refused it with this code, and then refused its size.
    Size(u8, Code),
    /// The inventory of the FRU device with this id: it has no bytes, and an image has no empty inventory.
    Empty(u8),
    /// The inventory of the FRU device with this id: the controller answered that there is none, and then gave its size.
    CutOff(u8),
    /// The inventory of the FRU device with this id; or after an answer that there is none, its size, so that this isn't known.
    Inventory(u8, FruEnded),
}

/// Why an inventory was not read, as printed in a line.
#[derive(Clone, Copy)]
struct Why(FruEnded);

impl fmt::Display for Why {
    ghost output = { λ why. Some (fru_ended_text why.0) };

    fn fmt<W: fmt::Write>(&self, f: &mut fmt::Formatter<W>) -> fmt::Result {
        match self.0 {
            FruEnded::Memory => f.write_str("out of memory"),
            FruEnded::Refused(code) => fmt::Display::fmt(&Unread::Refused(code), f),
            FruEnded::GaveUp => fmt::Display::fmt(&Unread::GaveUp, f),
            FruEnded::Stalled => f.write_str("stalled"),
            FruEnded::Words => f.write_str("uses words"),
        }
    }
}

/// The word of a shelf in an image.
fn shelf_word(shelf: Shelf) -> &'static str
    ensures { result.now ≡ shelf_text shelf }
{
    match shelf {
        Shelf::Sdr => "sdr",
        Shelf::Sel => "sel",
    }
}

impl fmt::Display for Left {
    ghost output = { λ left. Some (left_text left) };

    fn fmt<W: fmt::Write>(&self, f: &mut fmt::Formatter<W>) -> fmt::Result {
        match self {
            Left::Records(shelf, ended) => {
                let word = shelf_word(*shelf);
                let why = Failure::Ended(*ended);
                write!(f, "{word}: {why}")
            }
            Left::Info(shelf, unread) => {
                let word = shelf_word(*shelf);
                write!(f, "info {word}: {unread}")
            }
            Left::Reading {
                lun,
                number,
                unread,
            } => {
                let number = HexByte(*number);
                write!(f, "reading {lun} {number}: {unread}")
            }
            Left::Size(id, code) => {
                let id = HexByte(*id);
                let refused = Unread::Refused(*code);
                write!(f, "fru {id}: size {refused}")
            }
            Left::Empty(id) => {
                let id = HexByte(*id);
                write!(f, "fru {id}: empty")
            }
            Left::CutOff(id) => {
                let id = HexByte(*id);
                write!(f, "fru {id}: cut off")
            }
            Left::Inventory(id, ended) => {
                let id = HexByte(*id);
                let why = Why(*ended);
                write!(f, "fru {id}: {why}")
            }
        }
    }
}

impl Left {
    /// Whether an image is whole without the item: a cycle, an info, a reading, a size that the controller refused, or an inventory
    /// without bytes.
    pub(crate) fn leaves_whole(&self) -> bool
        ensures { result ≡ leaves_whole self.now }
    {
        match self {
            Left::Records(_, ended) => matches!(ended, Ended::Cycle(_)),
            Left::Info(..) | Left::Reading { .. } | Left::Size(..) | Left::Empty(_) => true,
            Left::CutOff(_) | Left::Inventory(_, _) => false,
        }
    }
}

/// Whether an image is whole without all these items.
pub(crate) fn is_whole(list: &[Left]) -> bool
    ensures { result ≡ list_all leaves_whole list.now }
{
    list.iter().all(|left| left.leaves_whole())
}

/// Appends the item left out, if there is one.
pub(crate) fn note(list: &mut Vec<Left>, left: Option<Left>) -> Result<(), AllocError>
    ensures { OnOk result (list.new.items ≡ list.old.items ++ option_to_list left) }
{
    match left {
        Some(left) => match list.push(left) {
            Ok(()) => Ok(()),
            Err(_) => Err(AllocError),
        },
        None => Ok(()),
    }
}
