//! What a capture saved: an image, and the items that it lacks.
ghost use Rattle.std.specs.Prelude.{◌≡◌, ◌⊎◌, ◌+◌, ◌≤◌, [], IfOk, IfErr, Ok, Err, length};
ghost use Rattle.ipmi_image.specs.Below.{IsStore};
ghost use Rattle.ipmi_image.specs.Prelude.{is_partial, lacks_then, pieces, saved_of_image, with_records};

use crate::image::{Image, ImageFault};
use crate::lack::{Lack, hides_records, parse_lack};
use crate::text::cut;
use crate::version::is_third;
use ipmi_bus::Shelf;
use std::alloc::Global;
use std::marker::Model;

/// The first word of a line that names a lacking item, and a space.
const LACKS: &[u8] = b"lacks ";

/// Reads the lines at the start of the text that name lacking items, and returns the lines after them.
#[tactic(auto, using(crate::proofs::SnapshotLemmas::lacks_then_last, crate::proofs::SnapshotLemmas::lacks_then_other, crate::proofs::SnapshotLemmas::lacks_then_lack))]
fn read_lacks<'a>(text: &'a [u8], lacks: &mut Vec<Lack>) -> Result<&'a [u8], ImageFault>
    requires { lacks.old.items ≡ [] }
    ensures ok { IfOk result (λ rest. lacks_then [] (pieces 10 text.now) ≡ Ok (lacks.new.items, pieces 10 rest.now)) }
    ensures fits { IfOk result (λ rest. length lacks.new.items + length rest.now ≤ length text.now) }
    ensures err { IfErr result (λ e. (e ≡ ImageFault.Memory) ⊎ (lacks_then [] (pieces 10 text.now) ≡ Err e)) }
{
    let mut rest = text;
    'lines: loop {
        let Some((line, after)) = cut(rest, b'\n') else {
            return Ok(rest);
        };
        if !line.starts_with(LACKS) {
            return Ok(rest);
        }
        let Some(lack) = parse_lack(&line[LACKS.len()..]) else {
            return Err(ImageFault::Line(lacks.as_slice().len() + 2));
        };
        match lacks.push(lack) {
            Ok(()) => rest = after,
            Err(_) => return Err(ImageFault::Memory),
        }
    }
}

/// The contents of a management controller, as a capture saved them, and the items that it left out.
#[derive(Drop)]
pub struct Snapshot {
    image: Image,
    lacks: Vec<Lack>,
}

impl Model for Snapshot {
    ghost use Rattle.ipmi_image.specs.Snapshot.{Saved};

    ghost Value = { Saved };

    ghost view = { λ snapshot. record { store = snapshot.image; lacks = snapshot.lacks.items } };
}

impl Snapshot {
    /// Reads an image of version 1, 2 or 3. Err is the first fault in the text, or `Memory`.
    pub fn read(alloc: Global, bytes: &[u8]) -> Result<Snapshot, ImageFault>
        ensures store { IfOk result (λ snapshot. IsStore snapshot.store) }
        ensures ok { IfOk result (λ snapshot. saved_of_image bytes.now ≡ Ok snapshot) }
        ensures err { IfErr result (λ e. (e ≡ ImageFault.Memory) ⊎ (saved_of_image bytes.now ≡ Err e)) }
    {
        let mut lacks = Vec::new(alloc);
        if let Some((first, text)) = cut(bytes, b'\n') {
            if is_third(first) {
                let rest = read_lacks(text, &mut lacks)?;
                return match Image::read_lines(alloc, rest) {
                    Ok(image) => Ok(Snapshot { image, lacks }),
                    Err(fault) => Err(fault.later(lacks.as_slice().len())),
                };
            }
        }
        Ok(Snapshot {
            image: Image::read(alloc, bytes)?,
            lacks,
        })
    }

    /// The image, without these items.
    pub fn new(image: Image, lacks: Vec<Lack>) -> Snapshot
        ensures { result ≡ record { store = image; lacks = lacks.items } }
    {
        Snapshot { image, lacks }
    }

    /// The image.
    pub fn image(&self) -> &Image
        ensures { result.now ≡ self.now.store }
    {
        &self.image
    }

    /// The items that it lacks.
    pub fn lacks(&self) -> &[Lack]
        ensures { result.now ≡ self.now.lacks }
    {
        self.lacks.as_slice()
    }

    /// Whether a record or an inventory was not read whole.
    pub fn is_partial(&self) -> bool
        ensures { result ≡ is_partial self.now.lacks }
    {
        self.lacks.iter().any(|lack| lack.hides_part())
    }

    /// The image, if no record of the shelf is lacking.
    pub fn with_records(self, shelf: Shelf) -> Option<Image>
        ensures { result ≡ with_records shelf self }
    {
        let (image, lacks) = self.into_parts();
        if hides_records(shelf, lacks.as_slice()) {
            return None;
        }
        Some(image)
    }

    /// The image and the items that it lacks.
    pub(crate) fn into_parts(self) -> (Image, Vec<Lack>)
        ensures { (result.0 ≡ self.store) × (result.1.items ≡ self.lacks) }
    {
        (self.image, self.lacks)
    }
}
