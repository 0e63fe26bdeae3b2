// Whether words are lawful.
ghost use Rattle.std.specs.Prelude.{◌↔◌, IsTrue};
ghost use Rattle.agc_image.specs.Images.{IsLawful};

use agc_word::Erasable;

/// Whether the words of each table are lawful, between requests or inside a tick.
pub fn is_lawful(image: &Erasable) -> bool
    ensures { IsTrue result ↔ IsLawful image.now }
{
    if !agc_exec::is_lawful(image) {
        return false;
    }
    if !agc_wait::is_lawful(image) {
        return false;
    }
    agc_phase::is_lawful(image)
}
