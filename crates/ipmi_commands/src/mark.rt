//! Where a run stopped in the event log, and its text.
ghost use Rattle.std.specs.Prelude.{◌≡◌, ◌++◌, IfOk, length, OnOk};
ghost use Rattle.ipmi_commands.specs.Mark.{entry_code, entry_of_code, has_frame, info_code, info_of_code, mark_of, mark_of_code, mark_text};

use crate::kept::KeptEntry;
use hex::FromHex;
use ipmi_bus::INFO_LEN;
use ipmi_selection::entry_bytes;
use std::alloc::{AllocError, Global};

/// The beginning of each text of a mark.
const HEADER: &[u8] = b"serdimko-cursor 1 ";

/// The length of the code of an entry: a byte that says whether there is one, its id and its bytes.
const ENTRY_CODE_LEN: usize = 19;

/// The length of the codes of an entry and of an info, which is a byte that says whether there is one, and its bytes.
const CODE_LEN: usize = 34;

/// The length of each text, with its line feed.
const TEXT_LEN: usize = 87;

/// Where a run stopped: the last entry of the event log, if it had one, and the log's info before that run, if there is one.
#[derive(Clone, Copy, Debug, PartialEq, Eq)]
pub struct Mark {
    pub(crate) entry: Option<KeptEntry>,
    pub(crate) info: Option<[u8; INFO_LEN]>,
}

/// Appends the code of an entry.
fn push_entry(code: &mut Vec<u8>, entry: &Option<KeptEntry>) -> Result<(), AllocError>
    ensures { OnOk result (code.new.items ≡ code.old.items ++ entry_code entry.now) }
{
    match entry {
        Some(entry) => {
            code.push(1)?;
            code.extend_from_slice(&entry.id.to_be_bytes())?;
            code.extend_from_slice(&entry.bytes)?;
        }
        None => code.extend_from_slice(&[0; 19])?,
    }
    Ok(())
}

/// Appends the code of an info.
fn push_info(code: &mut Vec<u8>, info: &Option<[u8; INFO_LEN]>) -> Result<(), AllocError>
    ensures { OnOk result (code.new.items ≡ code.old.items ++ info_code info.now) }
{
    match info {
        Some(info) => {
            code.push(1)?;
            code.extend_from_slice(info)?;
        }
        None => code.extend_from_slice(&[0; 15])?,
    }
    Ok(())
}

/// The entry with this code.
fn entry_of_code(code: &[u8]) -> Option<Option<KeptEntry>>
    requires { length code.now ≡ 19 }
    ensures { result ≡ entry_of_code code.now }
{
    match code[0] {
        0 => Some(None),
        1 => Some(Some(KeptEntry {
            id: u16::from_be_bytes([code[1], code[2]]),
            bytes: *entry_bytes(&code[3..]),
        })),
        _ => None,
    }
}

/// The info with this code.
fn info_of_code(code: &[u8]) -> Option<Option<[u8; INFO_LEN]>>
    requires { length code.now ≡ 15 }
    ensures { result ≡ info_of_code code.now }
{
    match code[0] {
        0 => Some(None),
        1 => Some(Some(<[u8; INFO_LEN]>::try_from(&code[1..]).ok()?)),
        _ => None,
    }
}

/// The mark with this code.
fn mark_of_code(code: &[u8; CODE_LEN]) -> Option<Mark>
    ensures { result ≡ mark_of_code code.now }
{
    let (entry, info) = code.split_at(ENTRY_CODE_LEN);
    let entry = entry_of_code(entry)?;
    let info = info_of_code(info)?;
    Some(Mark { entry, info })
}

/// Whether the text begins with the header and ends with a line feed.
fn has_frame(text: &[u8]) -> bool
    requires { length text.now ≡ 87 }
    ensures { result ≡ has_frame text.now }
{
    &text[..HEADER.len()] == HEADER && text[TEXT_LEN - 1] == b'\n'
}

impl Mark {
    /// The text of the mark: one line.
    pub fn text(&self, alloc: Global) -> Result<Vec<u8>, AllocError>
        ensures { IfOk result (λ text. text.items ≡ mark_text self.now) }
    {
        let mut code = Vec::new(alloc);
        push_entry(&mut code, &self.entry)?;
        push_info(&mut code, &self.info)?;
        let digits = hex::encode(alloc, code)?;
        let mut text = Vec::from_slice(alloc, HEADER)?;
        text.extend_from_slice(digits.as_bytes())?;
        text.push(b'\n')?;
        Ok(text)
    }

    /// The mark of a text, if it is one.
    pub fn read(text: &[u8]) -> Option<Mark>
        ensures { result ≡ mark_of text.now }
    {
        if text.len() != TEXT_LEN || !has_frame(text) {
            return None;
        }
        let code = <[u8; CODE_LEN] as FromHex>::from_hex(&text[HEADER.len()..TEXT_LEN - 1]).ok()?;
        mark_of_code(&code)
    }
}
