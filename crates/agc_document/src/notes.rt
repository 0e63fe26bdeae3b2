//! The faults that are noted while a document is read.
ghost use Rattle.std.specs.Prelude.{◌≡◌};
ghost use Rattle.agc_document.specs.declared.fault.BenchFault.TheVariants.{Key as WrongKey};

use crate::fault::BenchFault;
use crate::key::{Key, TextForm};
use crate::key_fault::KeyFault;
use crate::location::Location;
use crate::rows::SETS;
use arrayvec::ArrayVec;

/// The most faults of keys, and the most of texts, that are noted.
pub const MOST_NOTED: usize = 20;

/// A fault of a key, with its place and, if the key is unknown, its name.
#[derive(Clone, Copy)]
pub struct KeyNote<'a> {
    pub place: Location,
    pub text: &'a str,
    pub fault: KeyFault,
}

impl<'a> Default for KeyNote<'a> {
    fn default() -> KeyNote<'a> {
        KeyNote {
            place: Location::Whole,
            text: "",
            fault: KeyFault::Value(SETS),
        }
    }
}

/// A text at a place that isn't of its form.
#[derive(Clone, Copy)]
pub struct TextNote<'a> {
    pub place: Location,
    pub text: &'a str,
    pub form: TextForm,
}

impl<'a> Default for TextNote<'a> {
    fn default() -> TextNote<'a> {
        TextNote {
            place: Location::Whole,
            text: "",
            form: TextForm::Request,
        }
    }
}

/// The faults of a document: the first twenty of its keys and the first twenty of its texts, or
/// none if they aren't wanted; how many more it has; and the place where its rows and entries make
/// no plan, or the whole document if they do.
#[derive(Drop)]
pub struct Notes<'a> {
    pub keys: ArrayVec<KeyNote<'a>, MOST_NOTED>,
    pub texts: ArrayVec<TextNote<'a>, MOST_NOTED>,
    pub more: usize,
    pub plan: Location,
    is_whole: bool,
}

impl<'a> Notes<'a> {
    /// No notes yet. Faults of keys and texts are noted only if this is true.
    pub fn new(is_whole: bool) -> Notes<'a> {
        Notes {
            keys: ArrayVec::new(),
            texts: ArrayVec::new(),
            more: 0,
            plan: Location::Whole,
            is_whole,
        }
    }

    /// Notes a fault of a key, if that is wanted, and returns the fault `Key`.
    pub fn key(&mut self, place: Location, text: &'a str, fault: KeyFault) -> BenchFault
        ensures { result ≡ WrongKey }
    {
        if self.is_whole && self.keys.len() < MOST_NOTED {
            self.keys.push(KeyNote { place, text, fault });
        } else {
            self.more = self.more.saturating_add(1);
        }
        BenchFault::Key
    }

    /// Notes a text that isn't of its key's form, if that is wanted.
    pub fn look_at(&mut self, place: Location, text: &'a str, key: Key) {
        let Some(form) = key.form() else {
            return;
        };
        if !self.is_whole || form.is_spelled_by(text) {
            return;
        }
        if self.texts.len() < MOST_NOTED {
            self.texts.push(TextNote { place, text, form });
        } else {
            self.more = self.more.saturating_add(1);
        }
    }
}
