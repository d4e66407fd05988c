ghost use Rattle.std.specs.Prelude.{◌≡◌};
ghost use Rattle.request.specs.Reading.{joined_number, number_of};

use itoa::Buffer;

/// The greatest number of a text that can be made.
const GREATEST: u8 = 200;

/// The number from 1 to 200 that these digits spell, without leading zeros.
pub(crate) fn number_of(digits: &str) -> Option<u8>
    ensures { result ≡ number_of digits.now }
{
    let number: u8 = match digits.parse() {
        Ok(number) => number,
        Err(_) => return None,
    };
    let mut buffer = Buffer::new();
    if 1 <= number && number <= GREATEST && buffer.format(number) == digits {
        Some(number)
    } else {
        None
    }
}

/// The number behind `--generate=` in the same word.
pub(crate) fn joined_number(word: &str) -> Option<u8>
    ensures { result ≡ joined_number word.now }
{
    match word.strip_prefix("--generate=") {
        Some(digits) => number_of(digits),
        None => None,
    }
}
