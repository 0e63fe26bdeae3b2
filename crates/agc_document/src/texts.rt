//! The numbers and texts of a bench, which borrow from its document.
ghost use Rattle.std.specs.Prelude.{◌≡◌, [], ◌∷◌, IfOk};

use agc_word::Sets;
use std::alloc::{AllocError, Global};
use std::marker::Model;

/// A text of a list. Contracts see its bytes; of a `&str` they would see a reference.
#[derive(Drop)]
pub struct Text<'a> {
    text: &'a str,
}

impl<'a> Model for Text<'a> {
    ghost use Rattle.std.specs.Prelude.{ℕ, List};

    ghost Value = { List ℕ };

    ghost view = { λ t. t.text.now };
}

impl<'a> Text<'a> {
    pub fn new(text: &'a str) -> Text<'a>
        ensures { result ≡ text.now }
    {
        Text { text }
    }

    pub fn as_str(&self) -> &'a str
        ensures { result.now ≡ self.now }
    {
        self.text
    }
}

/// The texts of a key, whether one or an array. Contracts see the bytes of each.
#[derive(Drop)]
pub struct TextList<'a> {
    pub(crate) texts: Vec<Text<'a>>,
}

impl<'a> Model for TextList<'a> {
    ghost use Rattle.std.specs.Prelude.{ℕ, List};

    ghost Value = { List (List ℕ) };

    ghost view = { λ t. t.texts.items };
}

impl<'a> TextList<'a> {
    /// No texts.
    pub fn none(alloc: Global) -> TextList<'a>
        ensures { result ≡ [] }
    {
        TextList {
            texts: Vec::new(alloc),
        }
    }

    /// A list of this text.
    ///
    /// # Errors
    ///
    /// If memory runs out.
    pub fn of(alloc: Global, text: &'a str) -> Result<TextList<'a>, AllocError>
        ensures { IfOk result (λ t. t ≡ text.now ∷ []) }
    {
        let mut texts = Vec::new(alloc);
        texts.push(Text::new(text))?;
        Ok(TextList { texts })
    }

    /// The texts, in order.
    pub fn as_slice(&self) -> &[Text<'a>]
        ensures { result.now ≡ self.now }
    {
        self.texts.as_slice()
    }
}

/// The texts of a task's row.
#[derive(Drop)]
pub struct RowTexts<'a> {
    pub at: Text<'a>,
    pub bank: Text<'a>,
    pub actions: TextList<'a>,
}

impl<'a> Model for RowTexts<'a> {
    ghost use Rattle.std.specs.Prelude.{length};
    ghost use Rattle.agc_plan.specs.Ranges.{IsBetween};
    ghost use Rattle.agc_document.specs.Texts.{RowTexts as Texts};

    ghost Value = { Texts };

    ghost view = { λ t. record { at = t.at; bank = t.bank; actions = t.actions } };

    ghost invariant = { λ t. IsBetween 1 4 (length t.actions) };
}

/// A phase entry: its numbers, and the texts of its job and its task.
#[derive(Drop)]
pub struct EntryTexts<'a> {
    pub group: u8,
    pub phase: u8,
    pub job: Option<Text<'a>>,
    pub task: Option<Text<'a>>,
}

impl<'a> Model for EntryTexts<'a> {
    ghost use Rattle.agc_document.specs.Texts.{EntryTexts as Texts};

    ghost Value = { Texts };

    ghost view = { λ t. record { group = t.group; phase = t.phase; job = t.job; task = t.task } };
}

/// A worker: the texts of its requests.
#[derive(Drop)]
pub struct WorkerTexts<'a> {
    pub script: TextList<'a>,
}

impl<'a> Model for WorkerTexts<'a> {
    ghost use Rattle.std.specs.Prelude.{ℕ, List};

    ghost Value = { List (List ℕ) };

    ghost view = { λ t. t.script };
}

/// A device: the text of its line, and its pulses.
#[derive(Drop)]
pub struct DeviceTexts<'a> {
    pub line: Text<'a>,
    pub pulses: u32,
}

impl<'a> Model for DeviceTexts<'a> {
    ghost use Rattle.std.specs.Prelude.{◌≤◌};
    ghost use Rattle.agc_document.specs.Texts.{DeviceTexts as Texts};

    ghost Value = { Texts };

    ghost view = { λ t. record { line = t.line; pulses = t.pulses } };

    ghost invariant = { λ t. t.pulses ≤ 1000000 };
}

/// The single values of a bench. Each of the two pulses has a text per action.
#[derive(Drop)]
pub struct Settings<'a> {
    pub sets: Sets,
    pub limit: u32,
    pub allowance: u64,
    pub attends: u32,
    pub key: TextList<'a>,
    pub radar: TextList<'a>,
    pub power: Option<TextList<'a>>,
}

impl<'a> Model for Settings<'a> {
    ghost use Rattle.std.specs.Prelude.{◌≤◌, length};
    ghost use Rattle.agc_word.specs.Profiles.{count_of};
    ghost use Rattle.agc_plan.specs.Ranges.{IsBetween};
    ghost use Rattle.agc_document.specs.Texts.{Settings as Texts};

    ghost Value = { Texts };

    ghost view = { λ t. record {
      sets = count_of t.sets;
      limit = t.limit;
      allowance = t.allowance;
      attends = t.attends;
      key = t.key;
      radar = t.radar;
      power = t.power;
    } };

    ghost invariant = { λ t. IsBetween 7 8 (count_of t.sets)
        × (t.allowance ≤ 9223372036854775807) × (t.attends ≤ 1000)
        × IsBetween 1 4 (length t.key) × IsBetween 1 4 (length t.radar) };
}

/// The lists of a bench.
#[derive(Drop)]
pub struct Lists<'a> {
    pub script: TextList<'a>,
    pub rows: Vec<RowTexts<'a>>,
    pub entries: Vec<EntryTexts<'a>>,
    pub workers: Vec<WorkerTexts<'a>>,
    pub devices: Vec<DeviceTexts<'a>>,
}

impl<'a> Model for Lists<'a> {
    ghost use Rattle.std.specs.Prelude.{◌≤◌, length};
    ghost use Rattle.agc_document.specs.Texts.{Lists as Texts};

    ghost Value = { Texts };

    ghost view = { λ t. record {
      script = t.script;
      rows = t.rows.items;
      entries = t.entries.items;
      workers = t.workers.items;
      devices = t.devices.items;
    } };

    ghost invariant = { λ t. (length t.workers.items ≤ 32) × (length t.devices.items ≤ 32) };
}

/// All numbers and texts of a bench.
#[derive(Drop)]
pub struct Texts<'a> {
    pub settings: Settings<'a>,
    pub lists: Lists<'a>,
}

impl<'a> Model for Texts<'a> {
    ghost use Rattle.agc_document.specs.Texts.{Texts as AllTexts};

    ghost Value = { AllTexts };

    ghost view = { λ t. record { settings = t.settings; lists = t.lists } };
}
