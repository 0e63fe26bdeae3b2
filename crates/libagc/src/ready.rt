// Whether a caller's words are as each step leaves them.
ghost use Rattle.std.specs.Prelude.{◌≡◌, ◌<◌, true, false, [], slice_index_or, IfSome, IfNone, ℕ};
ghost use Rattle.agc_image.specs.Images.{IsLawful};
ghost use Rattle.agc_machine.specs.Stands.{IsReady};
ghost use Rattle.libagc.specs.Codes.{code_of};
ghost use Rattle.libagc.specs.Stepping.{Lacks};
ghost use Rattle.agc_word.specs.Layout.{IsSized, sets_in};
ghost use Rattle.agc_exec.specs.Blocks.{blocks_of};
ghost use Rattle.agc_exec.specs.Image as cores;
ghost use Rattle.agc_wait.specs.Table as table;

use crate::fault::Fault;
use agc_word::Erasable;
use agc_word::layout::{LST1, set_place};

/// Whether a set is free, or MODE and PUSHLOC of its job are 00000.
fn is_tidy_set(e: &Erasable, k: usize) -> bool
    requires set { k < sets_in e.now }
    requires sized { IsSized e.now }
    ensures yes { result ≡ true → cores.IsTidyBlock (slice_index_or (blocks_of e.now) k []) }
    ensures no { cores.IsTidyBlock (slice_index_or (blocks_of e.now) k []) → result ≡ true }
{
    let at = set_place(k);
    let priority = e.get(at + 11).bits();
    if priority == 0o77777 {
        return true;
    }
    let mode = e.get(at + 7).bits();
    let pushloc = e.get(at + 10).bits();
    if mode != 0 {
        return false;
    }
    pushloc == 0
}

fn are_tidy_sets(e: &Erasable) -> bool
    requires { IsSized e.now }
    ensures yes { result ≡ true → cores.IsTidy e.now }
    ensures no { cores.IsTidy e.now → result ≡ true }
{
    for k in 0..e.sets().count() {
        if !is_tidy_set(e, k) {
            return false;
        }
    }
    true
}

/// Whether no gap is written as minus zero.
fn are_tidy_gaps(e: &Erasable) -> bool
    ensures yes { result ≡ true → table.IsTidy e.now }
    ensures no { table.IsTidy e.now → result ≡ true }
{
    for k in 0..8usize {
        if e.get(LST1 + k).bits() == 0o77777 {
            return false;
        }
    }
    true
}

/// Whether words are as a step leaves them, once they are lawful and no task is due.
fn is_tidy(e: &Erasable) -> bool
    requires { IsSized e.now }
    ensures yes { result ≡ true → cores.IsTidy e.now × table.IsTidy e.now }
    ensures no { cores.IsTidy e.now × table.IsTidy e.now → result ≡ true }
{
    if !are_tidy_sets(e) {
        return false;
    }
    are_tidy_gaps(e)
}

/// The fault of lawful words on which a step is to be asked.
pub(crate) fn unready(image: &Erasable) -> Option<Fault>
    requires { IsLawful image.now }
    ensures lacks { IfSome result (λ fault. (plan : ℕ) → Lacks (code_of fault) image.now plan) }
    ensures ready { IfNone result (IsReady image.now) }
{
    if agc_wait::due(image) {
        Some(Fault::NotNow)
    } else if !is_tidy(image) {
        Some(Fault::Untidy)
    } else {
        None
    }
}
