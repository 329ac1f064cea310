ghost use Rattle.std.specs.Prelude.{◌≡◌, ◌<◌, ◌≤◌, length, map, IfOk, IsErrOf, All};
ghost use Rattle.std.specs.Str.{IsUtf8};

use crate::ports::PortsFault;
use pb_words::Text;
use std::alloc::Global;
use std::str;

/// The words as texts. One that isn't UTF-8 is no word of `serve`.
pub(crate) fn texts_of<'a>(alloc: Global, words: &'a [Text]) -> Result<Vec<&'a str>, PortsFault>
    ensures same { IfOk result (λ texts. map (λ s. s.now) texts.items ≡ words.entry.now) }
    ensures valid { IfOk result (λ texts. All IsUtf8 words.entry.now) }
    ensures usage { IsErrOf result PortsFault.Usage → ¬ (All IsUtf8 words.entry.now) }
{
    let mut texts = Vec::new(alloc);
    for word in words {
        let Ok(text) = str::from_utf8(word.bytes()) else {
            return Err(PortsFault::Usage);
        };
        match texts.push(text) {
            Ok(()) => {}
            Err(_) => return Err(PortsFault::OutOfMemory),
        }
    }
    Ok(texts)
}
