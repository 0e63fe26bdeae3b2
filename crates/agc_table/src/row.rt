// The cells of a row, each with its column.
use crate::table::width_of;
use agc_text::{Buffer, Field};
use std::alloc::{AllocError, Global};

/// The most cells that a row has.
pub(crate) const MOST_CELLS: usize = 32;

/// A column: its name in text, its name in CSV and JSON, its width in text in columns, whether its
/// cells are left-aligned there, and whether they go below the row where not all cells fit.
#[derive(Clone, Copy)]
pub struct Column<'a> {
    name: &'a str,
    key: &'a str,
    width: usize,
    is_left: bool,
    is_below: bool,
}

impl Column<'_> {
    /// The same column, whose cells are the first to go below the row.
    pub fn below(mut self) -> Self {
        self.is_below = true;
        self
    }
}

/// A left-aligned column: its name in text, its name in CSV and JSON, its width in columns.
pub fn left<'a>(name: &'a str, key: &'a str, width: usize) -> Column<'a> {
    Column {
        name,
        key,
        width,
        is_left: true,
        is_below: false,
    }
}

/// A right-aligned column, with the same parameters as `left`.
pub fn right<'a>(name: &'a str, key: &'a str, width: usize) -> Column<'a> {
    Column {
        is_left: false,
        ..left(name, key, width)
    }
}

/// The kind of a cell: JSON has texts in quotes, CSV has quotes where they need them.
#[derive(Clone, Copy, PartialEq, Eq)]
pub(crate) enum Kind {
    /// `-`, an empty value in CSV, and `null` in JSON.
    Nothing,
    Text,
    /// A number, or JSON that is written unchanged.
    Plain,
    /// A number, with a percent sign in text.
    Percent,
}

/// A cell: its kind, the width of its column, and its alignment; whether it is below the row; and
/// the columns that it takes at the end of a line. The text of its row contains the cell's text,
/// its column's name, and the name for CSV and JSON, one after the other; `from` is where the first
/// begins, the other three are where each ends.
#[derive(Clone, Copy)]
pub(crate) struct Cell {
    pub(crate) kind: Kind,
    pub(crate) width: usize,
    pub(crate) is_left: bool,
    pub(crate) is_below: bool,
    last_width: usize,
    from: usize,
    text: usize,
    name: usize,
    key: usize,
}

/// The most columns that names at the left of a table take where not all cells fit.
const MOST_NAMES: usize = 16;

/// A row: the texts of its cells, with the names of their columns; the cells; and how many of them
/// come before those that go below the row where not all fit.
#[derive(Drop)]
pub struct Row {
    pub text: Buffer,
    cells: [Cell; MOST_CELLS],
    count: usize,
    pub(crate) front: usize,
}

impl Row {
    /// A row without cells.
    ///
    /// # Errors
    ///
    /// If memory runs out.
    pub fn new(alloc: Global) -> Result<Row, AllocError> {
        let none = Cell {
            kind: Kind::Nothing,
            width: 0,
            is_left: true,
            is_below: false,
            last_width: 0,
            from: 0,
            text: 0,
            name: 0,
            key: 0,
        };
        Ok(Row {
            text: Buffer::new(alloc)?,
            cells: [none; MOST_CELLS],
            count: 0,
            front: MOST_CELLS,
        })
    }

    /// How much text there is.
    fn length(&self) -> usize {
        self.text.as_bytes().len()
    }

    /// Ends a cell of this kind.
    fn end_as(&mut self, column: Column<'_>, kind: Kind) {
        let from = self.cells().last().map_or(0, |cell| cell.key);
        let text = self.length();
        self.text.text(column.name);
        let name = self.length();
        self.text.text(column.key);
        let key = self.length();
        let is_below = column.is_below || self.count >= self.front;
        let named = width_of(column.name);
        if let Some(cell) = self.cells.get_mut(self.count) {
            *cell = Cell {
                kind,
                width: column.width,
                is_left: column.is_left,
                is_below,
                last_width: if column.is_left { named } else { column.width },
                from,
                text,
                name,
                key,
            };
            self.count = self.count.saturating_add(1);
        }
    }

    /// Adds the cell at a place of another row; nothing, if there is no row.
    pub fn copy(&mut self, column: Column<'_>, other: Option<&Row>, place: usize) {
        match other.and_then(|row| row.cells().get(place)) {
            None => self.end_as(column, Kind::Nothing),
            Some(cell) => {
                let text = other.map_or(b"".as_slice(), |row| row.text_of(place));
                self.text.add(Field::Bytes(text));
                self.end_as(column, cell.kind);
            }
        }
    }

    /// Ends a cell whose parts were added to `text`.
    pub fn end(&mut self, column: Column<'_>) {
        self.end_as(column, Kind::Text);
    }

    /// Ends a cell whose parts, a value of JSON, were added to `text`.
    pub fn end_plain(&mut self, column: Column<'_>) {
        self.end_as(column, Kind::Plain);
    }

    /// Adds a cell.
    pub fn cell(&mut self, column: Column<'_>, field: Field<'_>) {
        self.text.add(field);
        let kind = match field {
            Field::Number(_) | Field::Seconds(_) => Kind::Plain,
            _ => Kind::Text,
        };
        self.end_as(column, kind);
    }

    /// Adds a cell that may have no value.
    pub fn option(&mut self, column: Column<'_>, field: Option<Field<'_>>) {
        match field {
            None => self.end_as(column, Kind::Nothing),
            Some(field) => self.cell(column, field),
        }
    }

    /// Adds a percentage.
    pub fn percent(&mut self, column: Column<'_>, percent: u64) {
        self.text.add(Field::Number(percent));
        self.end_as(column, Kind::Percent);
    }

    /// Adds a part of a whole as a percentage with one decimal, to the nearest.
    pub fn share(&mut self, column: Column<'_>, part: u64, whole: u64) {
        let doubled = whole.saturating_mul(2).max(1);
        let thousandths = part.saturating_mul(2000).saturating_add(whole) / doubled;
        let (percent, tenths) = (thousandths / 10, thousandths % 10);
        let decimals = [Field::Number(percent), Field::Number(tenths)];
        self.text.put("{}.{}", &decimals);
        self.end_as(column, Kind::Percent);
    }

    /// Where not all cells fit, those from here on are printed below the row, after their names.
    pub fn below(&mut self) {
        self.front = self.count;
    }

    /// Whether all cells fit side by side in this many columns.
    fn fits(&self, most: usize) -> bool {
        let mut width: usize = 0;
        for cell in self.cells() {
            if width.saturating_add(cell.last_width) > most {
                return false;
            }
            width = width.saturating_add(cell.width).saturating_add(2);
        }
        true
    }

    /// Lets only those cells be below the row that don't fit in this many columns: none, if all fit
    /// side by side; otherwise at least those that were meant to be, and names get less room.
    pub(crate) fn fit(&mut self, most: usize) {
        let is_whole = self.fits(most);
        let mut width: usize = 0;
        for (place, cell) in self.cells.iter_mut().take(self.count).enumerate() {
            if !is_whole && place == 0 && cell.is_left {
                cell.width = cell.width.min(MOST_NAMES);
            }
            let is_over = width.saturating_add(cell.last_width) > most && place > 0;
            cell.is_below = !is_whole && (cell.is_below || is_over);
            if !cell.is_below {
                width = width.saturating_add(cell.width).saturating_add(2);
            }
        }
    }

    /// Takes all cells away.
    pub fn clear(&mut self) {
        self.text.clear();
        self.count = 0;
        self.front = MOST_CELLS;
    }

    /// The cells.
    pub(crate) fn cells(&self) -> &[Cell] {
        self.cells.get(..self.count).unwrap_or(&[])
    }

    /// A part of the text.
    fn part(&self, from: usize, to: usize) -> &[u8] {
        self.text.as_bytes().get(from..to).unwrap_or(&[])
    }

    /// The text of the cell at a place; that of nothing is a dash.
    pub fn text_of(&self, place: usize) -> &[u8] {
        match self.cells().get(place) {
            Some(cell) if cell.kind != Kind::Nothing => self.part(cell.from, cell.text),
            _ => b"-".as_slice(),
        }
    }

    /// The name of the column at a place in text.
    pub fn name_of(&self, place: usize) -> &[u8] {
        let cell = self.cells().get(place);
        cell.map_or(b"".as_slice(), |cell| self.part(cell.text, cell.name))
    }

    /// The name of the column at a place in CSV and JSON.
    pub fn key_of(&self, place: usize) -> &[u8] {
        let cell = self.cells().get(place);
        cell.map_or(b"".as_slice(), |cell| self.part(cell.name, cell.key))
    }

    /// How many cells it has.
    pub fn len(&self) -> usize {
        self.count
    }
}
