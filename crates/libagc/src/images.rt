// The calls on a whole image, and the library's release.
ghost use Rattle.std.specs.Prelude.{◌≡◌, not, false};
ghost use Rattle.libagc.specs.Codes.{Coded, code_unless};
ghost use Rattle.libagc.specs.declared.fault.Fault.TheVariants.{NotNow};
ghost use Rattle.agc_image.specs.Images.{image_of, IsImage};
ghost use Rattle.agc_machine.specs.Migration.{Migrates};
ghost use Rattle.libagc.specs.Requests.{one_due};

use crate::fault::{Fault, image_in};
use crate::reply::AgcTruth;
use agc_image::{seven, write_all};
use agc_machine::migrate;

/// Whether the array has an image of this many core sets, 7 or 8: code 0 exactly there, else 1, 2
/// or 3. Answers true between requests, and false inside a tick, where a task is due.
#[unsafe(no_mangle)]
pub extern "C" fn agc_check(words: &[u16; 144], sets: u32) -> AgcTruth
    ensures code { Coded result.code sets words.now 0 }
    ensures served { result.code ≡ 0 → result.truth ≡ not (one_due sets words.now) }
    ensures with_fault { ¬ (result.code ≡ 0) → result.truth ≡ false }
{
    match image_in(words, sets) {
        Err(fault) => AgcTruth {
            code: fault.code(),
            truth: false,
        },
        Ok(image) => AgcTruth {
            code: 0,
            truth: !agc_wait::due(&image),
        },
    }
}

/// The image of seven core sets becomes one of eight: words 0 to 131 stay, and core set 7 is added,
/// free, at 132 to 143. Answers the code, 6 inside a tick, where a task is due.
#[unsafe(no_mangle)]
pub extern "C" fn agc_migrate(words: &mut [u16; 144]) -> u32
    ensures code { Coded result 7 words.old (code_unless (not (one_due 7 words.old)) NotNow) }
    ensures served { result ≡ 0
        → Migrates (image_of 7 words.old) words.new × IsImage 8 words.new }
    ensures with_fault { ¬ (result ≡ 0) → words.new ≡ words.old }
{
    match image_in(words, 7) {
        Err(fault) => fault.code(),
        Ok(_image) => match migrate(&seven(words)) {
            None => Fault::NotNow.code(),
            Some(migrated) => {
                write_all(&migrated, words);
                0
            }
        },
    }
}

/// The release of the library: 10000 times its first number, 100 times its second, and its third.
#[unsafe(no_mangle)]
pub extern "C" fn agc_version() -> u32
    ensures { result ≡ 10000 }
{
    10000
}
