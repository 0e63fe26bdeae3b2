// Reading a caller's array, and writing it back.
ghost use Rattle.std.specs.Prelude.{◌≡◌, ◌↔◌, IsTrue, IsSome, IfSome, length, replicate};
ghost use Rattle.agc_word.specs.Profiles.{count_of, size_of};
ghost use Rattle.agc_image.specs.Images.{IsSets, size_with, image_of, AreWords, IsImage};
ghost use Rattle.agc_image.specs.Images.{IsOpened, IsWritten};

use agc_word::layout::{OTHERS_SIZE, SET_SIZE};
use agc_word::{Erasable, Sets, Word};

/// The number of words with these core sets.
fn size_of(sets: Sets) -> usize
    ensures { result ≡ size_of sets }
{
    OTHERS_SIZE + SET_SIZE * sets.count()
}

/// Whether the first numbers, as many as these core sets have words, are words.
pub fn are_words(array: &[u16; 144], sets: Sets) -> bool
    ensures { IsTrue result ↔ AreWords (image_of (count_of sets) array.now) }
{
    // The greatest is found with no branch a number, which the compiler does eight at a time.
    let mut greatest = 0;
    for place in 0..size_of(sets) {
        greatest = greatest.max(array[place]);
    }
    greatest < 32768
}

/// Reads the first numbers, as many as these core sets have words.
pub fn read(array: &[u16; 144], sets: Sets, image: &mut Erasable)
    requires words { AreWords (image_of (count_of sets) array.now) }
    requires size { length image.old ≡ size_of sets }
    ensures { image.new ≡ image_of (count_of sets) array.now }
{
    for place in 0..size_of(sets) {
        image.set(place, Word::of_bits(array[place]));
    }
}

/// The core sets of a number that is known to be 7 or 8.
fn known_sets(count: u32) -> Sets
    requires { IsSets count }
    ensures { count_of result ≡ count }
{
    if count == 7 { Sets::Seven } else { Sets::Eight }
}

/// Words of this many core sets, 7 or 8, all 00000: room for an image.
pub fn blank_image(count: u32) -> Erasable
    requires { IsSets count }
    ensures words { result ≡ replicate (size_with count) 0 }
    ensures size { length result ≡ size_with count }
{
    Erasable::new(known_sets(count))
}

/// Reads the image of this many core sets in an array that has one.
// Fills an image of the caller's, since one returned by value would be copied once more.
pub fn open(array: &[u16; 144], count: u32, image: &mut Erasable)
    requires image { IsImage count array.now }
    requires size { length image.old ≡ size_with count }
    ensures { IsOpened count array.now image.new }
{
    read(array, known_sets(count), image);
}

/// Writes an image into the first places of an array; the numbers after it do not change.
pub fn write_back(image: &Erasable, array: &mut [u16; 144])
    ensures { IsWritten image.now array.old array.new }
{
    for place in 0..size_of(image.sets()) {
        array[place] = image.get(place).bits();
    }
}

/// Twelve numbers as words. None if one of them is no word. Source: the listings' words.
pub fn twelve(numbers: &[u16; 12]) -> Option<[Word; 12]>
    ensures valid { IsSome result ↔ AreWords numbers.now }
    ensures words { IfSome result (λ words. words ≡ numbers.now) }
{
    let mut words = [Word::zero(); 12];
    for k in 0..12usize {
        match Word::new(numbers[k]) {
            Some(word) => words[k] = word,
            None => return None,
        }
    }
    Some(words)
}

/// The words of seven core sets in an array, for `agc_machine`.
pub fn seven(array: &[u16; 144]) -> [Word; 132]
    requires { AreWords (image_of 7 array.now) }
    ensures { result ≡ image_of 7 array.now }
{
    let mut words = [Word::zero(); 132];
    for place in 0..132usize {
        words[place] = Word::of_bits(array[place]);
    }
    words
}

/// Writes all words of eight core sets into an array.
pub fn write_all(words: &[Word; 144], array: &mut [u16; 144])
    ensures all { array.new ≡ words.now }
    ensures range { AreWords array.new }
{
    for place in 0..144usize {
        array[place] = words[place].bits();
    }
}
