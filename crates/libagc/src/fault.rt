// Faults in a caller's data.
ghost use Rattle.std.specs.Prelude.{◌≡◌, IfOk, IfErr};
ghost use Rattle.libagc.specs.Codes.{code_of, NoImage};
ghost use Rattle.agc_image.specs.Images.{IsImage, IsOpened};

use crate::numbers::sets;
use agc_image::{are_words, is_lawful, read};
use agc_word::Erasable;

/// A reason why a call isn't served. `agc.h` says what each means.
#[derive(Clone, Copy, PartialEq, Eq)]
pub enum Fault {
    NoSuchSets,
    /// Of the image; of a call's own numbers it is `NotAWord`.
    NotWords,
    Unlawful,
    OutOfRange,
    NotAWord,
    /// A task is due or, for a dispatch, none is.
    NotNow,
    /// The image is lawful, and no step leaves it so.
    Untidy,
    PlanRange,
    TaskTwice,
    PhaseTwice,
    TooManyAreas,
    NotSpelled,
    NoRoom,
    TimeRange,
    StealTwice,
    CostTwice,
}

impl Fault {
    /// The code of the fault: 1 to 6, or 8 to 17.
    pub fn code(self) -> u32
        ensures { result ≡ code_of self }
    {
        match self {
            Fault::NoSuchSets => 1,
            Fault::NotWords => 2,
            Fault::Unlawful => 3,
            Fault::OutOfRange => 4,
            Fault::NotAWord => 5,
            Fault::NotNow => 6,
            Fault::Untidy => 8,
            Fault::PlanRange => 9,
            Fault::TaskTwice => 10,
            Fault::PhaseTwice => 11,
            Fault::TooManyAreas => 12,
            Fault::NotSpelled => 13,
            Fault::NoRoom => 14,
            Fault::TimeRange => 15,
            Fault::StealTwice => 16,
            Fault::CostTwice => 17,
        }
    }
}

/// The image of this many core sets in any array, even inside a tick, or the fault of an array that
/// has none.
pub(crate) fn image_in(array: &[u16; 144], count: u32) -> Result<Erasable, Fault>
    ensures fault { IfErr result (λ fault. NoImage (code_of fault) count array.now) }
    ensures image { IfOk result (λ _. IsImage count array.now) }
    ensures opened { IfOk result (λ image. IsOpened count array.now image) }
{
    match sets(count) {
        None => Err(Fault::NoSuchSets),
        Some(sets) => {
            if !are_words(array, sets) {
                return Err(Fault::NotWords);
            }
            let mut image = Erasable::new(sets);
            read(array, sets, &mut image);
            if !is_lawful(&image) {
                return Err(Fault::Unlawful);
            }
            Ok(image)
        }
    }
}
