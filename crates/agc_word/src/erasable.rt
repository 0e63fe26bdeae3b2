ghost use Rattle.std.specs.Prelude.{◌≡◌, ◌<◌, replicate, slice_index, slice_set};
ghost use Rattle.agc_word.specs.Layout.{IsSized, sets_in, places_in, padded};
ghost use Rattle.agc_word.specs.Profiles.{count_of, size_of};

use crate::sets::Sets;
use crate::word::Word;
use std::marker::Model;

/// The words of erasable memory that the model has, by place, from 0: 132 with seven core sets, 144
/// with eight. Contracts see them as the list of their bits.
#[derive(Drop)]
pub struct Erasable {
    sets: Sets,
    words: [Word; 144],
}

impl Model for Erasable {
    ghost use Rattle.std.specs.Prelude.{◌≡◌, List, ℕ, length};
    ghost use Rattle.agc_word.specs.Layout.{padded};
    ghost use Rattle.agc_word.specs.Profiles.{words_with};

    ghost Value = { List ℕ };

    ghost view = { λ e. words_with e.sets e.words };

    ghost invariant = { λ e. (length e.words ≡ 144)
        × (e.words ≡ padded (words_with e.sets e.words)) };
}

impl Erasable {
    /// The words of so many core sets, all 00000.
    pub fn new(sets: Sets) -> Erasable
        ensures { result ≡ replicate (size_of sets) 0 }
    {
        Erasable {
            sets,
            words: [Word::zero(); 144],
        }
    }

    /// How many core sets the words have.
    pub fn sets(&self) -> Sets
        ensures count { count_of result ≡ sets_in self.now }
        ensures all { IsSized self.now }
    {
        let _all = &self.words;
        self.sets
    }

    /// The word at a place, which must be below 132 with seven core sets, below 144 with eight.
    pub fn get(&self, place: usize) -> Word
        requires { place < places_in self.now }
        ensures value { result ≡ slice_index self.now place }
        ensures range { result < 32768 }
        ensures all { IsSized self.now }
    {
        let words = &self.words;
        let word = words[place];
        let _ = word.bits();
        word
    }

    /// Sets the word at a place, which must be below 132 with seven core sets, below 144 with
    /// eight. No other word changes.
    pub fn set(&mut self, place: usize, word: Word)
        requires { place < places_in self.old }
        ensures value { self.new ≡ slice_set self.old place word }
        ensures all { IsSized self.new }
    {
        let words = &mut self.words;
        words[place] = word;
    }

    /// All words, by place; with seven core sets the last twelve are 00000.
    pub fn words(&self) -> [Word; 144]
        ensures words { result ≡ padded self.now }
        ensures all { IsSized self.now }
    {
        self.words
    }
}
