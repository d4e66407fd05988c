ghost use Rattle.std.specs.Prelude.{map, string_bytes};
ghost use Rattle.request.specs.Words.{OneRequest, Understands};

use crate::asked::{NOTHING, after_word, request_of};
use crate::spelt::Request;

/// The request that the words spell: `--control`, `--use`, `--flow`, `--slice`, `--paths`, `--semantic`, `--inputs`,
/// `--compliance` and `--certificates` name sections, in any order, also repeated, and all but the slices, the test inputs
/// and the certificates are selected where none is named; `--generate N` in two words, or `--generate=N` in one, asks for
/// a made text, at most once, with N from 1 to 200 in digits without leading zeros. The word behind `--generate` is N,
/// whatever it is. `None` comes exactly where the words spell no request. It goes over the words once and takes no memory;
/// the cost is linear in their bytes.
pub fn read_words(words: &[String]) -> Option<Request>
    ensures { Understands (map string_bytes words.now) result }
{
    let mut asked = NOTHING;
    for word in words {
        match after_word(asked, word.as_str()) {
            Some(more) => asked = more,
            None => return None,
        }
    }
    request_of(asked)
}

/// No list of words spells two requests. This law costs nothing.
pub fn one_request()
    ensures { OneRequest }
{}
