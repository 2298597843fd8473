//! The labels that `--label` adds to the objects of `--json` and the rows of `--csv`.
ghost use Rattle.std.specs.List.{list_any};
ghost use Rattle.std.specs.Prelude.{◌≡◌, [], bytes_eq, IfOk, map, OnOk, option_map};
ghost use Rattle.ipmi_output.specs.Failure.{joined_parts};
ghost use Rattle.ipmi_program.specs.Labels.{fault_of_label, has_point, key_value, label_of, labels_of, with_label, wrong_label};

use ipmi_command_line::Word;
use ipmi_json::{Label, is_object_key};
use ipmi_output::Part::{self, Escaped, Text};
use std::alloc::{AllocError, Global};

/// The key of the image's name, if there are several images.
const IMAGE: &str = "image";

/// The label in the value of `--label`. None if it is malformed.
fn label_of(text: &str) -> Option<Label<'_>>
    ensures { option_map key_value result ≡ label_of text.entry.now }
{
    let (key, value) = text.split_once('=')?;
    if key.is_empty() {
        return None;
    }
    Some(Label { key, value })
}

/// Whether a label has the key.
fn has_key(labels: &[Label<'_>], key: &str) -> bool
    ensures { result ≡ list_any (λ label. bytes_eq label.key.now key.now) labels.now }
{
    labels.iter().any(|label| label.key == key)
}

/// Whether the key has a point, as the names of the columns of areas have.
fn has_point(key: &str) -> bool
    ensures { result ≡ has_point key.now }
{
    key.as_bytes().iter().any(|byte| *byte == b'.')
}

/// What is wrong with the value of `--label`, given the labels before it.
#[tactic(auto, using(crate::proofs::LabelLemmas::any_has_key))]
fn fault_of(is_row: bool, label: Option<Label<'_>>, before: &[Label<'_>]) -> Option<&'static str>
    ensures { option_map (λ fault. fault.now) result ≡
        fault_of_label is_row (option_map key_value label.entry) (map key_value before.now) }
{
    let Some(label) = label else {
        return Some("' is not KEY=VALUE");
    };
    if label.key == IMAGE || is_object_key(label.key) {
        return Some("': the output has a key of its own with this name");
    }
    if is_row && has_point(label.key) {
        return Some("': with --csv a key has no point");
    }
    if has_key(before, label.key) {
        return Some("': an earlier label has this key");
    }
    None
}

/// Adds the label, if there is one.
fn add<'a>(labels: &mut Vec<Label<'a>>, label: Option<Label<'a>>) -> Result<(), AllocError>
    ensures { OnOk result (map key_value labels.new.items ≡
        with_label (map key_value labels.old.items) (option_map key_value label.entry)) }
{
    if let Some(label) = label {
        labels.push(label)?;
    }
    Ok(())
}

/// The labels of all objects or rows: the image's name if it is one of several, and those of `--label`.
pub fn labels_of<'a>(
    alloc: Global,
    texts: &'a [Word],
    image: Option<&'a str>,
) -> Result<Vec<Label<'a>>, AllocError>
    ensures { IfOk result (λ labels. map key_value labels.items ≡
        labels_of (option_map (λ name. name.now) image.entry) texts.now) }
{
    let mut labels = Vec::new(alloc);
    add(&mut labels, image.map(|value| Label { key: IMAGE, value }))?;
    for text in texts {
        add(&mut labels, label_of(text.as_str()))?;
    }
    Ok(labels)
}

/// What is wrong with the first wrong value of `--label`, of rows or of objects.
pub fn wrong_label<'a>(
    alloc: Global,
    is_row: bool,
    texts: &'a [Word],
) -> Result<Option<Vec<Part<'a>>>, AllocError>
    ensures { IfOk result (λ found. option_map (λ line. joined_parts line.items) found ≡ wrong_label is_row [] texts.now) }
{
    let mut labels = Vec::new(alloc);
    for text in texts {
        let text = text.as_str();
        let label = label_of(text);
        if let Some(fault) = fault_of(is_row, label, labels.as_slice()) {
            let parts = [Text("--label '"), Escaped(text), Text(fault)];
            return Ok(Some(parts.to_vec(alloc)?));
        }
        add(&mut labels, label)?;
    }
    Ok(None)
}
