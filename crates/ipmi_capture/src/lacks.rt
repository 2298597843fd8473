//! What an image notes of the items that were left out.
ghost use Rattle.std.specs.Prelude.{◌≡◌, ◌++◌, filter_map, IfOk, not, OnOk};
ghost use Rattle.std.specs.List.{list_all};
ghost use Rattle.ipmi_image.specs.Snapshot.{is_partial};
ghost use Rattle.ipmi_capture.specs.Lacks.{fru_code, lack_of, lack_of_records, lacking, refusing, saved_of, unread_code};
ghost use Rattle.ipmi_capture.specs.Left.{leaves_whole};

use crate::capturing::Captured;
use crate::left::{Left, Unread};
use ipmi_bus::{Code, CodeClass, Ended, FruEnded, Shelf};
use ipmi_image::{Item, Lack, Snapshot};
use std::alloc::{AllocError, Global};

/// The response could not be provided (IPMI v2.0, section 5.2).
const NOT_PROVIDED: Code = Code(0xCE);

/// The code of a refusal, or CEh in place of one that asks for fewer bytes.
fn refusing(code: Code) -> Code
    ensures { result ≡ refusing code }
{
    if code.0 != 0 && code.class() == CodeClass::Refusal {
        code
    } else {
        NOT_PROVIDED
    }
}

/// The code that is noted for a value.
fn unread_code(unread: Unread) -> Code
    ensures { result ≡ unread_code unread }
{
    match unread {
        Unread::Refused(code) => refusing(code),
        Unread::GaveUp => Code::NODE_BUSY,
    }
}

/// The code that is noted for an inventory.
fn fru_code(ended: FruEnded) -> Code
    ensures { result ≡ fru_code ended }
{
    match ended {
        FruEnded::Refused(code) => refusing(code),
        FruEnded::GaveUp => Code::NODE_BUSY,
        FruEnded::Memory | FruEnded::Stalled | FruEnded::Words => NOT_PROVIDED,
    }
}

/// The item with the code.
fn lacking(item: Item, code: Code) -> Option<Lack>
    ensures { result ≡ lacking item code }
{
    Some(Lack { item, code })
}

/// What is noted of the records of a shelf.
fn lack_of_records(shelf: Shelf, ended: Ended) -> Option<Lack>
    ensures { result ≡ lack_of_records shelf ended }
{
    match ended {
        Ended::Cycle(_) => None,
        Ended::Missing(id) => lacking(Item::Record(shelf, id), Code::NOT_PRESENT),
        Ended::GaveUp(id) => lacking(Item::Record(shelf, id), Code::NODE_BUSY),
        Ended::Refused(id, code) => lacking(Item::Record(shelf, id), refusing(code)),
        Ended::Stalled(id) | Ended::Malformed(id) => {
            lacking(Item::Record(shelf, id), NOT_PROVIDED)
        }
    }
}

impl Left {
    /// What an image notes of the item. None for a cycle, after which there are no records, and for an inventory without bytes.
    pub fn lack(&self) -> Option<Lack>
        ensures { result ≡ lack_of self.now }
    {
        match self {
            Left::Records(shelf, ended) => lack_of_records(*shelf, *ended),
            Left::Info(shelf, unread) => lacking(Item::Info(*shelf), unread_code(*unread)),
            Left::Reading {
                lun,
                number,
                unread,
            } => {
                let (lun, number) = (*lun, *number);
                lacking(Item::Reading { lun, number }, unread_code(*unread))
            }
            Left::Size(id, code) => lacking(Item::Size(*id), refusing(*code)),
            Left::Empty(_) => None,
            Left::CutOff(id) => lacking(Item::Inventory(*id), NOT_PROVIDED),
            Left::Inventory(id, ended) => lacking(Item::Inventory(*id), fru_code(*ended)),
        }
    }
}

/// Appends what an image notes of the items.
fn note_lacks(left: &[Left], lacks: &mut Vec<Lack>) -> Result<(), AllocError>
    ensures { OnOk result (lacks.new.items ≡ lacks.old.items ++ filter_map lack_of left.now) }
{
    'left: for left in left {
        if let Some(lack) = left.lack() {
            match lacks.push(lack) {
                Ok(()) => {}
                Err(_) => return Err(AllocError),
            }
        }
    }
    Ok(())
}

impl Captured {
    /// The image with notes of the items left out. It is partial if the image is not whole.
    #[tactic(auto, using(crate::proofs::LackLemmas::partial_or_whole))]
    pub fn into_snapshot(self, alloc: Global) -> Result<Snapshot, AllocError>
        ensures is { IfOk result (λ snapshot. snapshot ≡ saved_of self.image self.left.items) }
        ensures partial { IfOk result (λ snapshot. is_partial snapshot.lacks ≡ not (list_all leaves_whole self.left.items)) }
    {
        let mut lacks = Vec::new(alloc);
        note_lacks(self.left.as_slice(), &mut lacks)?;
        Ok(Snapshot::new(self.image, lacks))
    }
}
