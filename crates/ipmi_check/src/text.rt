//! What a check prints: a line with the verdict, and a line for each sensor in trouble.
ghost use Rattle.std.specs.Prelude.{◌≡◌, ◌++◌, IfOk, map, OnOk, option_map, string_bytes};
ghost use Rattle.std.specs.List.{find};
ghost use Rattle.ipmi_text.specs.Appended.{Appends};
ghost use Rattle.ipmi_check.specs.Standing.{is_in, standing_of};
ghost use Rattle.ipmi_check.specs.Text.{after_first, AreLines, count_in, count_sensors, counts_beside, IsCheckText, IsFirst, IsHeadline, IsLead, IsLine, IsTrouble, IsTroubled, IsTroubleOf, IsWorst, labelled, sensor_word, share, short_text, status_part, verdict_part, warnings_beside, why_after, why_unknown, without_bar, WithoutBars};

use crate::name::push_name;
use crate::performance::{Detail, push_data};
use crate::standing::Standing;
use crate::verdict::{Verdict, has};
use ipmi_events::{push_reading_in_words, status_in_words};
use ipmi_image::Lack;
use ipmi_records::{KnownReading, SdrView, has_thresholds};
use ipmi_sensors::{FoundSensor, FoundSensors};
use ipmi_text::HexWord;
use std::alloc::{AllocError, Global};

/// The capacity for the text of most checks.
const TEXT_CAPACITY: usize = 256;

/// How many sensors have this standing.
fn count_in(found: &[FoundSensor], lacks: &[Lack], wanted: Standing) -> usize
    ensures { result ≡ count_in lacks.now wanted found.now }
{
    found
        .iter()
        .filter(|sensor| Standing::of(sensor, lacks).is(wanted))
        .count()
}

/// How many can be judged.
fn count_sensors(found: &[FoundSensor], lacks: &[Lack]) -> usize
    ensures { result ≡ count_sensors lacks.now found.now }
{
    found
        .iter()
        .filter(|sensor| !Standing::of(sensor, lacks).is(Standing::Unknown))
        .count()
}

/// Appends a comma and the status of a sensor with thresholds. Appends nothing for any other.
fn push_status(
    text: &mut String,
    view: &SdrView<'_>,
    reading: KnownReading,
) -> Result<(), AllocError>
    ensures { OnOk result (string_bytes text.new ≡ string_bytes text.old ++ status_part view.now reading) }
{
    match view.sensor() {
        Some(sensor) if has_thresholds(&sensor) => {
            let status = status_in_words(&sensor, reading);
            write!(text, ", {status}")
        }
        _ => Ok(()),
    }
}

/// Appends the name of a sensor, and what it shows in parentheses.
fn push_shown(
    alloc: Global,
    text: &mut String,
    id: u16,
    view: &SdrView<'_>,
    reading: KnownReading,
) -> Result<(), AllocError>
    ensures { OnOk result (Appends (IsTroubleOf id view.now reading) (string_bytes text.old) (string_bytes text.new)) }
{
    push_name(alloc, text, id, view)?;
    text.push_str(" (")?;
    push_reading_in_words(text, view, reading)?;
    push_status(text, view, reading)?;
    text.push_str(")")
}

/// Appends the name of the record's sensor, and what it shows in parentheses. Appends nothing for a record with a fault.
fn push_trouble(alloc: Global, text: &mut String, found: &FoundSensor) -> Result<(), AllocError>
    ensures { OnOk result (Appends (IsTrouble found.now) (string_bytes text.old) (string_bytes text.new)) }
{
    match found.view() {
        Ok(view) => {
            let reading = KnownReading::from(found.reading());
            push_shown(alloc, text, found.id(), &view, reading)
        }
        Err(_) => Ok(()),
    }
}

/// Appends a line with this label about the record's sensor.
fn push_labelled(
    alloc: Global,
    text: &mut String,
    label: &str,
    found: &FoundSensor,
) -> Result<(), AllocError>
    ensures { OnOk result (Appends (IsTroubled label.entry.now found.now) (string_bytes text.old) (string_bytes text.new)) }
{
    text.push_str(label)?;
    push_trouble(alloc, text, found)?;
    text.push_str("\n")
}

/// Appends the line of a sensor in trouble, or of a record that can't be judged. Appends nothing for any other.
fn push_line(
    alloc: Global,
    text: &mut String,
    found: &FoundSensor,
    lacks: &[Lack],
) -> Result<(), AllocError>
    ensures { OnOk result (Appends (IsLine (standing_of lacks.now found.now) found.now) (string_bytes text.old) (string_bytes text.new)) }
{
    match Standing::of(found, lacks) {
        Standing::Critical => push_labelled(alloc, text, "critical: ", found),
        Standing::Warning => push_labelled(alloc, text, "warning: ", found),
        Standing::Unknown => {
            let id = HexWord(found.id());
            write!(text, "unknown: record {id} can't be judged\n")
        }
        Standing::Sound | Standing::Silent | Standing::Elsewhere => Ok(()),
    }
}

/// Appends the lines of all that were found.
fn push_lines(
    alloc: Global,
    text: &mut String,
    found: &[FoundSensor],
    lacks: &[Lack],
) -> Result<(), AllocError>
    ensures { OnOk result (Appends (AreLines lacks.now found.now) (string_bytes text.old) (string_bytes text.new)) }
{
    for sensor in found {
        push_line(alloc, text, sensor, lacks)?;
    }
    Ok(())
}

/// The first one with this standing.
fn first_in<'a>(
    found: &'a [FoundSensor],
    lacks: &[Lack],
    wanted: Standing,
) -> Option<&'a FoundSensor>
    ensures { option_map (λ one. one.now) result ≡ find (λ one. is_in wanted (standing_of lacks.now one)) found.entry.now }
{
    found
        .iter()
        .find(|sensor| Standing::of(sensor, lacks).is(wanted))
}

/// Appends the trouble of the first one with this standing, if there is one.
fn push_first(
    alloc: Global,
    text: &mut String,
    found: &[FoundSensor],
    lacks: &[Lack],
    wanted: Standing,
) -> Result<(), AllocError>
    ensures { OnOk result (Appends (IsFirst (find (λ one. is_in wanted (standing_of lacks.now one)) found.now))
        (string_bytes text.old) (string_bytes text.new)) }
{
    match first_in(found, lacks, wanted) {
        Some(first) => push_trouble(alloc, text, first),
        None => Ok(()),
    }
}

/// What says that there are others, of so many.
fn after_first(count: usize) -> &'static str
    ensures { result.now ≡ after_first count }
{
    if count > 1 { ", .." } else { "" }
}

/// The word after so many sensors.
fn sensor_word(count: usize) -> &'static str
    ensures { result.now ≡ sensor_word count }
{
    if count == 1 { "sensor" } else { "sensors" }
}

/// Appends how many of the sensors have a standing.
fn push_share(text: &mut String, count: usize, sensors: usize) -> Result<(), AllocError>
    ensures { OnOk result (string_bytes text.new ≡ string_bytes text.old ++ share count sensors) }
{
    let word = sensor_word(sensors);
    write!(text, "{count} of {sensors} {word}: ")
}

/// Appends how many have this standing, and the trouble of the first one.
#[tactic(auto, using(crate::proofs::TextLemmas::worst_made))]
fn push_worst(
    alloc: Global,
    text: &mut String,
    found: &[FoundSensor],
    lacks: &[Lack],
    wanted: Standing,
) -> Result<(), AllocError>
    ensures { OnOk result (Appends (IsWorst lacks.now wanted found.now) (string_bytes text.old) (string_bytes text.new)) }
{
    let count = count_in(found, lacks, wanted);
    push_share(text, count, count_sensors(found, lacks))?;
    push_first(alloc, text, found, lacks, wanted)?;
    text.push_str(after_first(count))?;
    Ok(())
}

/// Why nothing is known.
fn why_unknown<'a>(found: &[FoundSensor], lacks: &[Lack], why: Option<&'a str>) -> &'a str
    ensures { result.now ≡ why_unknown lacks.now found.now (option_map (λ why. why.now) why.entry) }
{
    match why {
        Some(why) => why,
        None if found.is_empty() => "there is no sensor to check",
        None if has(found, lacks, Standing::Unknown) => "a record can't be judged",
        None => "no sensor has a reading",
    }
}

/// Appends the verdict.
fn push_verdict(text: &mut String, verdict: Verdict) -> Result<(), AllocError>
    ensures { OnOk result (string_bytes text.new ≡ string_bytes text.old ++ verdict_part verdict) }
{
    let words = verdict.words();
    write!(text, "IPMI {words} - ")
}

/// Appends what the verdict rests on.
fn push_lead(
    alloc: Global,
    text: &mut String,
    verdict: Verdict,
    found: &[FoundSensor],
    lacks: &[Lack],
    why: Option<&str>,
) -> Result<(), AllocError>
    ensures { OnOk result (Appends (IsLead lacks.now verdict found.now (option_map (λ why. why.now) why.entry))
        (string_bytes text.old) (string_bytes text.new)) }
{
    match verdict {
        Verdict::Critical => push_worst(alloc, text, found, lacks, Standing::Critical),
        Verdict::Warning => push_worst(alloc, text, found, lacks, Standing::Warning),
        Verdict::Ok => {
            let sensors = count_sensors(found, lacks);
            let word = sensor_word(sensors);
            write!(text, "{sensors} {word}")
        }
        Verdict::Unknown => text.push_str(why_unknown(found, lacks, why)),
    }
}

/// Appends a number after its label, unless it is 0.
fn push_count(text: &mut String, label: &str, count: usize) -> Result<(), AllocError>
    ensures { OnOk result (string_bytes text.new ≡ string_bytes text.old ++ labelled label.entry.now count) }
{
    if count == 0 {
        return Ok(());
    }
    write!(text, "; {label}: {count}")
}

/// Appends how many warnings there are, if the verdict does not say it.
fn push_warnings(
    text: &mut String,
    verdict: Verdict,
    found: &[FoundSensor],
    lacks: &[Lack],
) -> Result<(), AllocError>
    ensures { OnOk result (string_bytes text.new ≡ string_bytes text.old ++ warnings_beside lacks.now verdict found.now) }
{
    match verdict {
        Verdict::Warning => Ok(()),
        _ => push_count(text, "warnings", count_in(found, lacks, Standing::Warning)),
    }
}

/// Appends how many have each standing that the verdict does not name.
fn push_counts(
    text: &mut String,
    verdict: Verdict,
    found: &[FoundSensor],
    lacks: &[Lack],
) -> Result<(), AllocError>
    ensures { OnOk result (string_bytes text.new ≡ string_bytes text.old ++ counts_beside lacks.now verdict found.now) }
{
    push_warnings(text, verdict, found, lacks)?;
    push_count(
        text,
        "not judged",
        count_in(found, lacks, Standing::Unknown),
    )?;
    push_count(
        text,
        "without a reading",
        count_in(found, lacks, Standing::Silent),
    )?;
    push_count(
        text,
        "of other owners",
        count_in(found, lacks, Standing::Elsewhere),
    )?;
    Ok(())
}

/// Appends why the search failed after a critical sensor was found.
fn push_why(text: &mut String, verdict: Verdict, why: Option<&str>) -> Result<(), AllocError>
    ensures { OnOk result (string_bytes text.new ≡ string_bytes text.old
        ++ why_after verdict (option_map (λ why. why.now) why.entry)) }
{
    match (verdict, why) {
        (Verdict::Critical, Some(why)) => write!(text, "; {why}"),
        _ => Ok(()),
    }
}

/// The byte, or a slash for a bar, with which plugins end a text.
fn without_bar(byte: u8) -> u8
    ensures { result ≡ without_bar byte }
{
    if byte == b'|' { b'/' } else { byte }
}

/// The bytes, with a slash for each bar.
fn without_bars(alloc: Global, bytes: &[u8]) -> Result<Vec<u8>, AllocError>
    ensures { IfOk result (λ plain. plain.items ≡ map without_bar bytes.now) }
{
    bytes.iter().map(|byte| without_bar(*byte)).collect(alloc)
}

/// Appends the first line, without performance data and its line feed.
#[tactic(auto, using(crate::proofs::TextLemmas::headline_made))]
fn push_headline(
    alloc: Global,
    text: &mut String,
    verdict: Verdict,
    found: &[FoundSensor],
    lacks: &[Lack],
    why: Option<&str>,
) -> Result<(), AllocError>
    ensures { OnOk result (Appends (IsHeadline lacks.now verdict found.now (option_map (λ why. why.now) why.entry))
        (string_bytes text.old) (string_bytes text.new)) }
{
    push_verdict(text, verdict)?;
    push_lead(alloc, text, verdict, found, lacks, why)?;
    push_counts(text, verdict, found, lacks)?;
    push_why(text, verdict, why)
}

/// The first line, without performance data and its line feed.
fn headline(
    alloc: Global,
    verdict: Verdict,
    found: &[FoundSensor],
    lacks: &[Lack],
    why: Option<&str>,
) -> Result<Vec<u8>, AllocError>
    ensures { IfOk result (λ line. WithoutBars (IsHeadline lacks.now verdict found.now (option_map (λ why. why.now) why.entry))
        line.items) }
{
    let mut text = String::with_capacity(alloc, TEXT_CAPACITY)?;
    push_headline(alloc, &mut text, verdict, found, lacks, why)?;
    without_bars(alloc, text.as_bytes())
}

/// The lines after the first.
fn lines(alloc: Global, found: &[FoundSensor], lacks: &[Lack]) -> Result<Vec<u8>, AllocError>
    ensures { IfOk result (λ lines. WithoutBars (AreLines lacks.now found.now) lines.items) }
{
    let mut text = String::with_capacity(alloc, TEXT_CAPACITY)?;
    push_lines(alloc, &mut text, found, lacks)?;
    without_bars(alloc, text.as_bytes())
}

/// What a check prints of the sensors that a search found, in an image that lacks these items. `why` says why the search failed, if it
/// did, without a line feed.
pub fn check_text(
    alloc: Global,
    found: &FoundSensors,
    lacks: &[Lack],
    why: Option<&str>,
    detail: Detail,
) -> Result<Vec<u8>, AllocError>
    ensures { IfOk result (λ text. IsCheckText lacks.now found.now (option_map (λ why. why.now) why.entry) detail text.items) }
{
    let verdict = Verdict::of(found, lacks, why.is_some());
    let found = found.as_slice();
    let mut text = headline(alloc, verdict, found, lacks, why)?;
    push_data(alloc, &mut text, detail, found)?;
    text.extend_from_slice(b"\n")?;
    let lines = lines(alloc, found, lacks)?;
    text.extend_from_slice(&lines)?;
    Ok(text)
}

/// What a check with this verdict prints if memory ran out.
pub fn text_without_memory(verdict: Verdict) -> &'static str
    ensures { result.now ≡ short_text verdict }
{
    match verdict {
        Verdict::Critical => "IPMI CRITICAL - out of memory\n",
        Verdict::Ok | Verdict::Warning | Verdict::Unknown => "IPMI UNKNOWN - out of memory\n",
    }
}
