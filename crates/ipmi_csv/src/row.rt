//! What is kept of a thing while its members are told, and its row.
ghost use Rattle.std.specs.Prelude.{◌≡◌, ◌++◌, if◌then◌else◌, [], IfOk, List, OnOk, bytes_eq, map, option_map, string_bytes};
ghost use Rattle.ipmi_json.specs.Members.{Top};
ghost use Rattle.ipmi_json.specs.Object.{json_of, Pair};
ghost use Rattle.ipmi_csv.specs.Columns.{columns_of};
ghost use Rattle.ipmi_csv.specs.Row.{add, begin, deeper, end, key_in, name_of, nothing, pass, put, seen_in, text_or, told, told_cell};
ghost use Rattle.ipmi_csv.specs.Values.{IsRowOf, text_of};

use crate::cells::csv_row;
use crate::columns::columns_of;
use ipmi_command_line::Separator;
use ipmi_commands::Table;
use ipmi_json::{Label, Members, Value};
use std::alloc::{AllocError, Global};

/// The capacity for the cells of any thing.
const CELLS_CAPACITY: usize = 40;

/// The key of a member.
#[derive(Drop)]
pub(crate) enum Name {
    /// A member of the thing itself.
    Own(&'static str),
    /// Both keys of a member of an area.
    Both(String),
}

/// A member: its key, and the text of its value.
#[derive(Drop)]
pub(crate) struct Cell {
    name: Name,
    text: String,
}

/// The members that were told of a thing, those of an area with both keys. What is in lists is passed over.
#[derive(Drop)]
pub(crate) struct Row {
    alloc: Global,
    area: Option<&'static str>,
    passed: u8,
    cells: Vec<Cell>,
}

/// The text of a value in a cell.
fn text_of(alloc: Global, value: Value<'_>) -> Result<String, AllocError>
    ensures { IfOk result (λ text. string_bytes text ≡ text_of (json_of value.entry)) }
{
    match value {
        Value::Null => Ok(String::new(alloc)),
        Value::Bool(truth) => format!(in alloc; "{truth}"),
        Value::Integer(number) => format!(in alloc; "{number}"),
        Value::Number(number) => String::from_str(alloc, number.digits),
        Value::Text(text) => String::from_str(alloc, text),
        Value::Texts(_) => Ok(String::new(alloc)),
    }
}

impl Name {
    /// The key of a member where this area was begun, if one was.
    fn of(alloc: Global, area: Option<&'static str>, key: &'static str) -> Result<Name, AllocError>
        ensures { IfOk result (λ name. name_of name ≡ key_in (option_map (λ area. area.now) area.entry) key.entry.now) }
    {
        match area {
            Some(area) => Ok(Name::Both(format!(in alloc; "{area}.{key}")?)),
            None => Ok(Name::Own(key)),
        }
    }

    /// Its text.
    fn as_str(&self) -> &str
        ensures { result.now ≡ name_of self.now }
    {
        match self {
            Name::Own(key) => key,
            Name::Both(keys) => keys.as_str(),
        }
    }
}

/// The text of a cell if it has this key, or else another text.
fn text_if<'a>(cell: &'a Cell, key: &str, text: &'a str) -> &'a str
    ensures { result.now ≡ (if bytes_eq (told_cell cell.now).0 key.now then (told_cell cell.now).1 else text.now) }
{
    if cell.name.as_str() == key {
        cell.text.as_str()
    } else {
        text
    }
}

/// The text of the last cell with this key. Empty if there is none.
fn text_at<'a>(cells: &'a [Cell], key: &str) -> &'a str
    ensures { result.now ≡ text_or [] key.now (map told_cell cells.now) }
{
    let mut text = "";
    for cell in cells {
        text = text_if(cell, key, text);
    }
    text
}

/// The texts of the last cells with these keys, and the values of labels.
fn texts_at<'a>(
    alloc: Global,
    cells: &'a [Cell],
    keys: &[&'static str],
    labels: &[Label<'a>],
) -> Result<Vec<&'a str>, AllocError>
    ensures { IfOk result (λ texts. map (λ text. text.now) texts.items ≡
        map (λ key. text_or [] key (map told_cell cells.now)) (map (λ key. key.now) keys.now)
        ++ map (λ label. label.value.now) labels.now) }
{
    let mut texts = Vec::with_capacity(alloc, keys.len())?;
    for key in keys {
        texts.push(text_at(cells, key))?;
    }
    'labels: for label in labels {
        texts.push(label.value)?;
    }
    Ok(texts)
}

impl Row {
    /// A row of a thing of which nothing was told.
    pub(crate) fn new(alloc: Global) -> Result<Row, AllocError>
        ensures { IfOk result (λ row. seen_in row ≡ nothing) }
    {
        let cells = Vec::with_capacity(alloc, CELLS_CAPACITY)?;
        Ok(Row {
            alloc,
            area: None,
            passed: 0,
            cells,
        })
    }

    /// Adds a cell.
    fn add(&mut self, key: &'static str, text: String) -> Result<(), AllocError>
        ensures { OnOk result (seen_in self.new ≡ add (seen_in self.old)
            (key_in (seen_in self.old).area key.entry.now, string_bytes text)) }
    {
        let name = Name::of(self.alloc, self.area, key)?;
        self.cells.push(Cell { name, text })?;
        Ok(())
    }

    /// Adds a member, unless it is passed over.
    fn tell(&mut self, key: &'static str, value: Value<'_>) -> Result<(), AllocError>
        ensures { OnOk result (seen_in self.new ≡ put (seen_in self.old) (key.entry.now, json_of value.entry)) }
    {
        if self.passed > 0 {
            return Ok(());
        }
        let text = text_of(self.alloc, value)?;
        self.add(key, text)
    }

    /// Begins something that is passed over.
    fn deepen(&mut self) -> Result<(), AllocError>
        ensures { OnOk result (seen_in self.new ≡ deeper (seen_in self.old)) }
    {
        match self.passed.checked_add(1) {
            Some(passed) => {
                self.passed = passed;
                Ok(())
            }
            None => Err(AllocError),
        }
    }

    /// Begins an object or a list that is passed over. Its key has an empty cell.
    fn pass(&mut self, key: &'static str) -> Result<(), AllocError>
        ensures { OnOk result (seen_in self.new ≡ pass (seen_in self.old) key.entry.now) }
    {
        if self.passed > 0 {
            return self.deepen();
        }
        self.add(key, String::new(self.alloc))?;
        self.deepen()
    }

    /// Begins an object. It is passed over if it is in another one.
    fn enter(&mut self, key: &'static str) -> Result<(), AllocError>
        ensures { OnOk result (seen_in self.new ≡ begin (seen_in self.old) key.entry.now) }
    {
        if self.passed > 0 {
            return self.pass(key);
        }
        match self.area {
            Some(_) => self.pass(key),
            None => {
                self.area = Some(key);
                Ok(())
            }
        }
    }

    /// Ends an object or a list.
    fn leave(&mut self)
        ensures { seen_in self.new ≡ end (seen_in self.old) }
    {
        if self.passed > 0 {
            self.passed -= 1;
        } else {
            self.area = None;
        }
    }

    /// The row of the thing, with these labels.
    pub(crate) fn line(
        &self,
        separator: Separator,
        labels: &[Label<'_>],
        table: Table,
    ) -> Result<Vec<u8>, AllocError>
        ensures { (ms : List Pair) → told self.now Top ms → IfOk result
            (λ line. IsRowOf separator labels.now (columns_of table) ms line.items) }
    {
        let cells = self.cells.as_slice();
        let texts = texts_at(self.alloc, cells, columns_of(table), labels)?;
        csv_row(self.alloc, separator, texts.as_slice())
    }
}

impl Members for Row {
    ghost told = { told };

    fn put(&mut self, key: &'static str, value: Value<'_>) -> Result<(), AllocError> {
        self.tell(key, value)
    }

    fn begin(&mut self, key: &'static str) -> Result<(), AllocError> {
        self.enter(key)
    }

    fn begin_list(&mut self, key: &'static str) -> Result<(), AllocError> {
        self.pass(key)
    }

    fn begin_item(&mut self) -> Result<(), AllocError> {
        self.deepen()
    }

    fn end(&mut self) -> Result<(), AllocError> {
        self.leave();
        Ok(())
    }

    fn end_list(&mut self) -> Result<(), AllocError> {
        self.leave();
        Ok(())
    }
}
