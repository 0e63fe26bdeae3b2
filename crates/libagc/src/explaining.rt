// The first word of an array on which no step is asked, and the word that would be right.
ghost use Rattle.std.specs.Prelude.{◌≡◌, ◌⊎◌, ◌<◌, ◌≤◌, slice_index};
ghost use Rattle.libagc.specs.Codes.{IsBroken, only_code};
ghost use Rattle.libagc.specs.Stepping.{Allows};

use crate::fault::image_in;
use crate::ready::unready;
use agc_image::first_broken;

/// The reason why no step is asked on words: the first word that breaks a rule.
#[repr(C)]
#[derive(Clone, Copy)]
pub struct AgcFinding {
    /// 0 to 3, 6 or 8.
    pub code: u32,
    /// 0 if the code is 0 or 1.
    pub rule: u32,
    /// The word's place in the array, from 0, and the number there.
    pub place: u32,
    pub found: u32,
    /// The number that would have to be there, if the other words leave only one choice; otherwise
    /// 65535.
    pub wanted: u32,
}

fn finding_to_c(words: &[u16; 144], sets: usize, code: u32) -> AgcFinding
    requires { sets ≤ 8 }
    ensures code { result.code ≡ code }
    ensures place { result.place < 144 }
    ensures found { result.found ≡ slice_index words.now result.place }
    ensures rule { ¬ (result.rule ≡ 0) → IsBroken result.rule words.now sets result.place }
{
    match first_broken(words, sets) {
        Some(broken) => AgcFinding {
            code,
            rule: broken.rule.number(),
            place: broken.place as u32,
            found: u32::from(words[broken.place]),
            wanted: u32::from(broken.wanted),
        },
        None => AgcFinding {
            code,
            rule: 0,
            place: 0,
            found: u32::from(words[0]),
            wanted: 0xFFFF,
        },
    }
}

/// The code of an array on which a step is to be asked.
fn array_code(words: &[u16; 144], sets: u32) -> u32
    ensures { Allows result sets words.now }
{
    match image_in(words, sets) {
        Err(fault) => fault.code(),
        Ok(image) => match unready(&image) {
            Some(fault) => fault.code(),
            None => 0,
        },
    }
}

/// The reason why `agc_step` is served on this array by no plan and no request: its code, 1 to 3
/// for the image, 6 where a task is due, 8 if the words are such as no step leaves; and the first
/// word that breaks a rule: its place, the number there, and the one that would be right, if the
/// other words leave only one choice.
#[unsafe(no_mangle)]
#[tactic(auto, using(crate::proofs::Serving::few_sets))]
pub extern "C" fn agc_explain(words: &[u16; 144], sets: u32) -> AgcFinding
    ensures code { Allows result.code sets words.now }
    ensures alone { result.code < 2 → result ≡ only_code result.code }
    ensures place { result.place < 144 }
    ensures found { 2 ≤ result.code → result.found ≡ slice_index words.now result.place }
    ensures rule { ¬ (result.rule ≡ 0) → IsBroken result.rule words.now sets result.place }
{
    let code = array_code(words, sets);
    if code < 2 {
        AgcFinding {
            code,
            rule: 0,
            place: 0,
            found: 0,
            wanted: 0,
        }
    } else {
        finding_to_c(words, sets as usize, code)
    }
}
