// A table that is written: as text, wide or narrow, as CSV, or as JSON Lines.
use crate::row::{Cell, Kind, Row};
use agc_text::Field::{Bytes, Csv, Json};
use agc_text::{Buffer, Output};
use std::alloc::{AllocError, Global};
use std::io::Write;

/// The form of a table.
#[derive(Clone, Copy, PartialEq, Eq)]
pub enum TableForm {
    /// Text, with all columns side by side, however long a line is.
    Wide,
    /// Text of at most this many columns a line. If a table is wider, its last cells are printed
    /// on lines of their own below the row, each after the name of its column.
    Within(usize),
    /// Comma-separated values.
    Csv,
    /// An object of JSON for each row, in a line each.
    JsonLines,
}

impl TableForm {
    /// Whether it is text.
    pub fn is_text(self) -> bool {
        !matches!(self, TableForm::Csv | TableForm::JsonLines)
    }

    /// The most columns that a line of text has.
    fn width(self) -> usize {
        match self {
            TableForm::Within(width) => width,
            _ => usize::MAX,
        }
    }
}

/// More blanks than any cell needs.
const BLANKS: [u8; 128] = [b' '; 128];

/// How many columns of a terminal a letter takes: those of East Asia and pictures take two, and
/// marks on other letters none.
fn columns_of(letter: char) -> usize {
    match letter {
        '\u{300}'..='\u{36f}' | '\u{200b}'..='\u{200f}' | '\u{fe00}'..='\u{fe0f}' => 0,
        '\u{1100}'..='\u{115f}' | '\u{2e80}'..='\u{a4cf}' | '\u{ac00}'..='\u{d7a3}' => 2,
        '\u{f900}'..='\u{faff}' | '\u{fe30}'..='\u{fe6f}' | '\u{ff00}'..='\u{ff60}' => 2,
        '\u{ffe0}'..='\u{ffe6}' | '\u{1f300}'..='\u{1faff}' | '\u{20000}'..='\u{3fffd}' => 2,
        _ => 1,
    }
}

/// How many columns of a terminal a text takes.
pub fn width_of(text: &str) -> usize {
    let columns = text.chars().map(columns_of);
    columns.fold(0, usize::saturating_add)
}

/// How many columns of a terminal a UTF-8 text takes.
fn columns_in(text: &[u8]) -> usize {
    str::from_utf8(text).map_or(0, width_of)
}

/// Adds this many blanks.
fn put_blanks(buffer: &mut Buffer, count: usize) {
    buffer.add(Bytes(&BLANKS[..count.min(BLANKS.len())]));
}

/// Adds a text as a value of CSV, or as the inside of a string of JSON.
fn put_as(buffer: &mut Buffer, text: &[u8], form: TableForm) {
    match str::from_utf8(text) {
        Err(_other) => {}
        Ok(text) if form == TableForm::Csv => buffer.add(Csv(text)),
        Ok(text) => buffer.add(Json(text)),
    }
}

/// Adds a text at a cell's width, after this many blanks. Returns how many blanks come before the
/// next cell, the rest of a left-aligned cell's width included.
fn put_aligned(
    lines: &mut Buffer,
    cell: &Cell,
    (text, sign): (&[u8], &str),
    blanks: usize,
) -> usize {
    let count = columns_in(text).saturating_add(sign.len());
    let rest = cell.width.saturating_sub(count);
    let (before, behind) = if cell.is_left { (0, rest) } else { (rest, 0) };
    put_blanks(lines, blanks.saturating_add(before));
    lines.add(Bytes(text));
    lines.text(sign);
    behind.saturating_add(2)
}

impl Row {
    /// Adds it as an object of JSON.
    pub fn put_object(&self, buffer: &mut Buffer) {
        let mut before = "{\"";
        for (place, cell) in self.cells().iter().enumerate() {
            let (key, text) = (self.key_of(place), self.text_of(place));
            buffer.text(before);
            put_as(buffer, key, TableForm::JsonLines);
            match cell.kind {
                Kind::Nothing => buffer.text("\":null"),
                Kind::Plain | Kind::Percent => buffer.fill("\":", Bytes(text)),
                Kind::Text => {
                    buffer.text("\":\"");
                    put_as(buffer, text, TableForm::JsonLines);
                    buffer.text("\"");
                }
            }
            before = ",\"";
        }
        buffer.text("}");
    }

    /// The text of the cell at a place and the sign after it, or in a heading its column's name.
    fn shown(&self, place: usize, is_heading: bool) -> (&[u8], &'static str) {
        match self.cells().get(place) {
            _ if is_heading => (self.name_of(place), ""),
            Some(cell) if cell.kind == Kind::Percent => (self.text_of(place), "%"),
            _ => (self.text_of(place), ""),
        }
    }

    /// Adds the cells of the row's first line, or the heading above them. If a text is longer than
    /// its column, the next cell starts a new line; where all cells are on the first line, only the
    /// first of the last ones.
    fn put_columns(&self, lines: &mut Buffer, is_heading: bool) {
        let is_whole = !self.cells().iter().any(|cell| cell.is_below);
        let (mut blanks, mut whole, mut is_over) = (0_usize, 0_usize, false);
        for (place, cell) in self.cells().iter().enumerate() {
            if !cell.is_below {
                if is_over && (!is_whole || place == self.front) {
                    lines.text("\n");
                    blanks = whole;
                }
                let shown = self.shown(place, is_heading);
                is_over = cell.is_left && columns_in(shown.0) > cell.width;
                blanks = put_aligned(lines, cell, shown, blanks);
                whole = whole.saturating_add(cell.width).saturating_add(2);
            }
        }
    }

    /// Adds the cells that are below the row, in as few lines of this many columns as they fit.
    fn put_below(&self, lines: &mut Buffer, most: usize) {
        let mut length = most;
        for (place, cell) in self.cells().iter().enumerate() {
            if cell.is_below {
                let (text, sign) = self.shown(place, false);
                let text = text.trim_ascii_start();
                let name = self.name_of(place).trim_ascii_start();
                let added = columns_in(text).saturating_add(columns_in(name));
                let added = added.saturating_add(sign.len()).saturating_add(3);
                let is_first = length.saturating_add(added) > most;
                lines.text(if is_first { "\n    " } else { "  " });
                lines.add(Bytes(name));
                lines.fill(" ", Bytes(text));
                lines.text(sign);
                length = if is_first { 2 } else { length }.saturating_add(added);
            }
        }
    }

    /// Adds it as comma-separated values, or the names of its columns.
    fn put_values(&self, lines: &mut Buffer, is_heading: bool) {
        for (place, cell) in self.cells().iter().enumerate() {
            lines.text(if place == 0 { "" } else { "," });
            if is_heading {
                put_as(lines, self.key_of(place), TableForm::Csv);
            } else if cell.kind != Kind::Nothing {
                put_as(lines, self.text_of(place), TableForm::Csv);
            }
        }
    }
}

/// Where to break a line so that its first part takes at most this many columns: at the last blank,
/// or if there is none, within a word. None if it fits.
fn break_of(line: &str, most: usize) -> Option<usize> {
    let (mut count, mut blank, mut has_word) = (0_usize, 0_usize, false);
    for (place, letter) in line.char_indices() {
        count = count.saturating_add(columns_of(letter));
        if letter == ' ' && has_word {
            blank = place;
        }
        if count > most {
            return Some(if blank == 0 { place } else { blank });
        }
        has_word |= letter != ' ';
    }
    None
}

/// Adds a line, and continues it on further lines if it takes more than this many columns.
fn put_broken(buffer: &mut Buffer, line: &str, width: usize) {
    let mut rest = line;
    let mut most = width;
    for _line in 0..u64::MAX {
        let Some(place) = break_of(rest, most) else {
            break;
        };
        let (before, behind) = rest.split_at_checked(place).unwrap_or((rest, ""));
        buffer.text(before);
        buffer.text("\n        ");
        rest = behind.trim_ascii_start();
        most = width.saturating_sub(8).max(1);
    }
    buffer.text(rest);
    buffer.text("\n");
}

/// A table: its form, the row that is being filled, and the lines that are not written yet.
#[derive(Drop)]
pub struct Table {
    pub form: TableForm,
    pub row: Row,
    pub lines: Buffer,
    broken: Buffer,
}

impl Table {
    /// A table without lines.
    ///
    /// # Errors
    ///
    /// If memory runs out.
    pub fn new(alloc: Global, form: TableForm) -> Result<Table, AllocError> {
        match (Row::new(alloc), Buffer::new(alloc), Buffer::new(alloc)) {
            (Ok(row), Ok(lines), Ok(broken)) => Ok(Table {
                form,
                row,
                lines,
                broken,
            }),
            _ => Err(AllocError),
        }
    }

    /// Whether it is text.
    pub fn is_text(&self) -> bool {
        self.form.is_text()
    }

    /// Adds the row, or in place of its cells the names of their columns, and takes them away.
    fn end_line(&mut self, is_heading: bool) {
        let (row, lines) = (&mut self.row, &mut self.lines);
        match self.form {
            TableForm::JsonLines if is_heading => return row.clear(),
            TableForm::JsonLines => row.put_object(lines),
            TableForm::Csv => row.put_values(lines, is_heading),
            TableForm::Wide | TableForm::Within(_) => {
                let most = self.form.width();
                row.fit(most);
                row.put_columns(lines, is_heading);
                if !is_heading {
                    row.put_below(lines, most);
                }
            }
        }
        lines.text("\n");
        row.clear();
    }

    /// Adds the names of the row's columns, in place of its cells, and takes these away.
    pub fn end_heading(&mut self) {
        self.end_line(true);
    }

    /// Adds the row, and takes its cells away.
    pub fn end_row(&mut self) {
        self.end_line(false);
    }

    /// Writes all lines, none longer than the form has it.
    ///
    /// # Errors
    ///
    /// If a write fails, or there was no memory for all of them.
    pub fn send<W: Write>(&mut self, writer: &mut W) -> Result<(), Output> {
        self.row.text.end()?;
        let TableForm::Within(width) = self.form else {
            return self.lines.send(writer);
        };
        self.lines.end()?;
        let text = str::from_utf8(self.lines.as_bytes()).unwrap_or("");
        for line in text.split_inclusive('\n') {
            put_broken(&mut self.broken, line.trim_ascii_end(), width);
        }
        self.lines.clear();
        self.broken.send(writer)
    }
}
