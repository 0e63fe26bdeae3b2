//! Where each table is among the erasable words. Source: the listings' erasable assignments; the
//! places: profile.
ghost use Rattle.std.specs.Prelude.{◌≡◌, ◌<◌, ◌≤◌};
ghost use Rattle.agc_word.specs.Layout.{set_place, use_place, address_of, area_of};

/// How many words a core set has: MPAC to MPAC+6, MODE, LOC, BANKSET, PUSHLOC, PRIORITY.
pub const SET_SIZE: usize = 12;

/// How many words all other tables have together.
pub const OTHERS_SIZE: usize = 48;

/// The first of the five use words of the VAC areas, after core sets 0 to 6.
pub const USE_WORDS: usize = 84;

/// NEWJOB.
pub const NEWJOB: usize = 89;

/// TIME3.
pub const TIME3: usize = 90;

/// The first of the eight words of LST1.
pub const LST1: usize = 91;

/// The first of the nine pairs of LST2, each an address and a bank word.
pub const LST2: usize = 99;

/// The first of the six pairs of phase words, -PHASE1 and PHASE1.
pub const PHASE_WORDS: usize = 117;

/// The first of the three words of FAILREG.
pub const FAILREG: usize = 129;

/// Core set 7, of eight; with seven sets the end.
pub const LAST_SET: usize = 132;

/// The first place of core set k, from 0: set 7 stands after all other tables.
pub fn set_place(k: usize) -> usize
    requires { k ≤ 7 }
    ensures { result ≡ set_place k }
{
    if k < 7 { SET_SIZE * k } else { LAST_SET }
}

/// The place of the use word of an area, 1 to 5.
pub fn use_place(area: usize) -> usize
    requires { (1 ≤ area) × (area ≤ 5) }
    ensures { result ≡ use_place area }
{
    USE_WORDS + area - 1
}

/// The address of VAC area 1.
pub const FIRST_AREA: u16 = 0o300;

/// How far a VAC area is from the next. Source: the listings' erasable assignments.
pub const AREA_SIZE: u16 = 0o54;

/// The address of a VAC area, 1 to 5: 0300, 0354, 0430, 0504 or 0560 octal; 0 for no area.
pub fn address_of(area: u16) -> u16
    requires { area ≤ 5 }
    ensures { result ≡ address_of area }
{
    if area == 0 {
        0
    } else {
        FIRST_AREA + AREA_SIZE * (area - 1)
    }
}

/// The VAC area at an address; 0 for address 0.
pub fn area_of(address: u16) -> u16
    ensures { result ≡ area_of address }
{
    if address == 0 {
        0
    } else {
        address.saturating_sub(FIRST_AREA) / AREA_SIZE + 1
    }
}
