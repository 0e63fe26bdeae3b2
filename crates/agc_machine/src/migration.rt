// From words of seven core sets to words of eight.
ghost use Rattle.std.specs.Prelude.{◌≡◌, ◌↔◌, IsTrue, IsSome, IfSome};
ghost use Rattle.agc_word.specs.Layout.{IsSized};
ghost use Rattle.agc_machine.specs.Image.{IsLawfulImage};
ghost use Rattle.agc_machine.specs.Migration.{Migrates};

use agc_word::layout::{LAST_SET, SET_SIZE};
use agc_word::{Erasable, Sets, Word};

/// PRIORITY of core set 7, the last of its words.
const LAST_PRIORITY: usize = LAST_SET + SET_SIZE - 1;

/// The erasable memory of seven core sets with these words.
fn loaded(words: &[Word; 132]) -> Erasable
    ensures { result ≡ words.now }
{
    let mut e = Erasable::new(Sets::Seven);
    for place in 0..LAST_SET {
        e.set(place, words[place]);
    }
    e
}

/// Whether each table is lawful, and no task is due.
fn is_lawful_image(e: &Erasable) -> bool
    requires { IsSized e.now }
    ensures { IsTrue result ↔ IsLawfulImage e.now }
{
    agc_exec::is_lawful(e) && agc_wait::is_lawful(e) && !agc_wait::due(e) && agc_phase::is_lawful(e)
}

/// The words of eight core sets that stand for what these of seven stand for. Places 0 to 131 are
/// copied; at 132 to 143 stands core set 7, free: 77777 in PRIORITY, 00000 in its other words. It
/// takes no memory. None exactly where the words aren't lawful between requests: where `is_lawful`
/// of `agc_exec`, `agc_wait` or `agc_phase` says so, or a task is due.
pub fn migrate(words: &[Word; 132]) -> Option<[Word; 144]>
    ensures lawful { IsSome result ↔ IsLawfulImage words.now }
    ensures migrated { IfSome result (λ new. Migrates words.now new) }
{
    let e = loaded(words);
    if !is_lawful_image(&e) {
        return None;
    }
    let mut migrated = e.words();
    migrated[LAST_PRIORITY] = Word::zero().neg();
    Some(migrated)
}
