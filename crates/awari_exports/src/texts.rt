//! What is said of each answer, the version, and of which sources this is.

ghost use Rattle.std.specs.Prelude.{◌≡◌, ◌++◌, ◌∷◌, []};
ghost use Rattle.awari_faults.specs.Meanings.{sentence};

use awari_faults::ended_sentence;
use awari_sources::ENDED_SOURCES;

/// Version 0.1.0.
const VERSION: u32 = 100;

/// The version of the library, `AWARI_VERSION` in the header that goes with it: 10000 for each first
/// number, 100 for each second, and 1 for each third.
#[unsafe(no_mangle)]
pub extern "C" fn awari_version() -> u32
    ensures { result ≡ 100 }
{
    VERSION
}

/// Lends the sentence for a person that belongs to a number that was answered, with a zero byte behind it.
/// Every number has one.
#[unsafe(no_mangle)]
pub extern "C" fn awari_text_of(answer: u8, text: &mut &'static [u8])
    ensures { text.new.now ≡ sentence answer ++ 0 ∷ [] }
{
    *text = ended_sentence(answer);
}

/// Lends the digest of the sources that this was made of, in hexadecimal, with a zero byte behind it.
#[unsafe(no_mangle)]
pub extern "C" fn awari_source_text(id: &mut &'static [u8])
    ensures { id.new.now ≡ ENDED_SOURCES.now }
{
    *id = ENDED_SOURCES;
}
