//! A JSON object as a list of members, and its line.
ghost use Rattle.std.specs.Prelude.{◌≡◌, ◌<◌, ◌++◌, [], List, IfOk, IfSome, OnOk, decimal, length, map, option_map, slice_index_or, string_bytes};
ghost use Rattle.json.specs.Json.{string};
ghost use Rattle.json.specs.Tree.{json_tokens};
ghost use Rattle.ipmi_json.specs.Members.{Tells, Top};
ghost use Rattle.ipmi_json.specs.Object.{integer, integer_or_null, IsLineOf, json_of, labels_of, Pair, text_if_any, text_or_null, text_unless_empty, texts};
ghost use Rattle.ipmi_json.specs.Open.{IsOpen, written};

use crate::number::Number;
use json::Writer;
use std::alloc::{AllocError, Global};
use std::fmt::Display;

/// The capacity for most lines.
const LINE_CAPACITY: usize = 768;

/// The decimals of the numbers that fit in a byte.
const DECIMALS: [&str; 256] = [
    "0", "1", "2", "3", "4", "5", "6", "7", "8", "9", "10", "11", "12", "13", "14", "15", "16",
    "17", "18", "19", "20", "21", "22", "23", "24", "25", "26", "27", "28", "29", "30", "31", "32",
    "33", "34", "35", "36", "37", "38", "39", "40", "41", "42", "43", "44", "45", "46", "47", "48",
    "49", "50", "51", "52", "53", "54", "55", "56", "57", "58", "59", "60", "61", "62", "63", "64",
    "65", "66", "67", "68", "69", "70", "71", "72", "73", "74", "75", "76", "77", "78", "79", "80",
    "81", "82", "83", "84", "85", "86", "87", "88", "89", "90", "91", "92", "93", "94", "95", "96",
    "97", "98", "99", "100", "101", "102", "103", "104", "105", "106", "107", "108", "109", "110",
    "111", "112", "113", "114", "115", "116", "117", "118", "119", "120", "121", "122", "123",
    "124", "125", "126", "127", "128", "129", "130", "131", "132", "133", "134", "135", "136",
    "137", "138", "139", "140", "141", "142", "143", "144", "145", "146", "147", "148", "149",
    "150", "151", "152", "153", "154", "155", "156", "157", "158", "159", "160", "161", "162",
    "163", "164", "165", "166", "167", "168", "169", "170", "171", "172", "173", "174", "175",
    "176", "177", "178", "179", "180", "181", "182", "183", "184", "185", "186", "187", "188",
    "189", "190", "191", "192", "193", "194", "195", "196", "197", "198", "199", "200", "201",
    "202", "203", "204", "205", "206", "207", "208", "209", "210", "211", "212", "213", "214",
    "215", "216", "217", "218", "219", "220", "221", "222", "223", "224", "225", "226", "227",
    "228", "229", "230", "231", "232", "233", "234", "235", "236", "237", "238", "239", "240",
    "241", "242", "243", "244", "245", "246", "247", "248", "249", "250", "251", "252", "253",
    "254", "255",
];

/// A member with a text that a caller adds to an object, after its own members. Its key must differ from theirs, which
/// `is_object_key` knows.
#[derive(Clone, Copy, Debug, PartialEq, Eq)]
pub struct Label<'a> {
    /// The key.
    pub key: &'a str,
    /// The value.
    pub value: &'a str,
}

/// The value of a member. Texts are lent.
#[derive(Clone, Copy)]
pub enum Value<'a> {
    /// Nothing.
    Null,
    /// Whether something is so.
    Bool(bool),
    /// A whole number.
    Integer(u64),
    /// Another number.
    Number(Number<'a>),
    /// A text.
    Text(&'a str),
    /// A list of texts.
    Texts(&'a [String]),
}

/// A key and its value.
pub(crate) type Member<'a> = (&'static str, Value<'a>);

/// A text, or null if there is none.
pub(crate) fn text_or_null(text: Option<&str>) -> Value<'_>
    ensures { json_of result ≡ text_or_null (option_map (λ s. s.now) text.entry) }
{
    match text {
        Some(text) => Value::Text(text),
        None => Value::Null,
    }
}

/// A text, or null if it is empty.
pub(crate) fn text_unless_empty(text: &str) -> Value<'_>
    ensures { json_of result ≡ text_unless_empty text.entry.now }
{
    if text.is_empty() {
        Value::Null
    } else {
        Value::Text(text)
    }
}

/// A text, or null if there is none or it is empty.
pub(crate) fn text_if_any(text: Option<&str>) -> Value<'_>
    ensures { json_of result ≡ text_if_any (option_map (λ s. s.now) text.entry) }
{
    match text {
        Some(text) => text_unless_empty(text),
        None => Value::Null,
    }
}

/// A number, or null if there is none.
pub(crate) fn integer_or_null(number: Option<u64>) -> Value<'static>
    ensures { json_of result ≡ integer_or_null number }
{
    match number {
        Some(number) => Value::Integer(number),
        None => Value::Null,
    }
}

/// The text at an index of a table.
fn text_at(table: &[&'static str], at: usize) -> &'static str
    requires { at < length table.now }
    ensures { result.now ≡ slice_index_or (map (λ s. s.now) table.now) at [] }
{
    table[at]
}

/// The decimal of a number that fits in a byte.
fn byte_decimal(n: u64) -> &'static str
    requires { n < 256 }
    ensures { result.now ≡ decimal n }
{
    text_at(DECIMALS.as_slice(), n as usize)
}

/// Writes a number of any size.
#[inline(never)]
fn write_any_integer(out: &mut Writer, n: u64) -> Result<(), AllocError>
    ensures ok { OnOk result (out.new.tokens ≡ out.old.tokens ++ json_tokens (integer n)) }
    ensures before { out.new.before ≡ out.old.before }
{
    out.u64(n)
}

/// Writes a number. Most fit in a byte, and their decimals need not be worked out.
#[inline(never)]
fn write_integer(out: &mut Writer, n: u64) -> Result<(), AllocError>
    ensures ok { OnOk result (out.new.tokens ≡ out.old.tokens ++ json_tokens (integer n)) }
    ensures before { out.new.before ≡ out.old.before }
{
    if n < 256 {
        out.number(byte_decimal(n))
    } else {
        write_any_integer(out, n)
    }
}

/// Writes texts as an array.
fn write_texts(out: &mut Writer, list: &[String]) -> Result<(), AllocError>
    ensures ok { OnOk result (out.new.tokens ≡ out.old.tokens ++
        json_tokens (texts (map (λ text. string_bytes text) list.now))) }
    ensures before { out.new.before ≡ out.old.before }
{
    out.begin_array()?;
    for text in list {
        out.string(text.as_str())?;
    }
    out.end_array()
}

/// Writes a value without a key.
#[inline(always)]
pub(crate) fn write_value(out: &mut Writer, value: Value) -> Result<(), AllocError>
    ensures ok { OnOk result (out.new.tokens ≡ out.old.tokens ++ json_tokens (json_of value.entry)) }
    ensures before { out.new.before ≡ out.old.before }
{
    match value {
        Value::Null => out.null(),
        Value::Bool(truth) => out.boolean(truth),
        Value::Integer(number) => write_integer(out, number),
        Value::Number(number) => out.number(number.digits),
        Value::Text(text) => out.string(text),
        Value::Texts(list) => write_texts(out, list),
    }
}

/// Replaces a text with what a value prints.
pub(crate) fn set_printed<D: Display + Drop>(text: &mut String, value: D) -> Result<(), AllocError>
    ensures { OnOk result (IfSome (D.output value) (λ printed. string_bytes text.new ≡ printed)) }
{
    text.clear();
    text.write(value)
}

/// Writes labels, each as a member.
fn write_labels(out: &mut Writer, labels: &[Label]) -> Result<(), AllocError>
    ensures { OnOk result (Tells written (labels_of labels.now) out.old out.new) }
{
    for label in labels {
        out.key(label.key)?;
        out.string(label.value)?;
    }
    Ok(())
}

/// Begins an object.
pub(crate) fn begin(alloc: Global) -> Result<Writer, AllocError>
    ensures { IfOk result (λ out. IsOpen Top [] out) }
{
    let mut out = Writer::new(Vec::with_capacity(alloc, LINE_CAPACITY)?);
    out.begin_object()?;
    Ok(out)
}

/// The line of an object whose beginning and members were written, with the labels.
pub(crate) fn finish(mut out: Writer, labels: &[Label]) -> Result<Vec<u8>, AllocError>
    ensures { (ms : List Pair) → IsOpen Top ms out → IfOk result
        (λ line. IsLineOf ms labels.now line.items) }
{
    write_labels(&mut out, labels)?;
    out.end_object()?;
    let mut line = out.into_inner();
    line.push(b'\n')?;
    Ok(line)
}
