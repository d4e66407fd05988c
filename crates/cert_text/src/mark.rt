ghost use Rattle.std.specs.Prelude.{◌+◌, ◌≤◌, ◌<◌, length, IfSome, MatchBool};
ghost use Rattle.cert_text.specs.Mark.{IsFirstMark, IsMarkAt};
ghost use Rattle.cert_text.specs.Reading.{IsWhole};
ghost use Rattle.std.specs.Prelude.{take};

/// The line that parts a text from certificates.
const MARK: &[u8] = b"%%\n";

/// How many bytes that line has: `%%` and a newline.
pub const MARK_LEN: usize = 3;

/// Whether a line begins at this place.
fn begins_line(input: &[u8], place: usize) -> bool
    requires { place ≤ length input.now }
    ensures { MatchBool result (IsWhole (take place input.now)) (¬ (IsWhole (take place input.now))) }
{
    place == 0 || input[place - 1] == b'\n'
}

/// Whether the line that parts a text from certificates begins at this place.
fn is_mark_at(input: &[u8], place: usize) -> bool
    requires { place ≤ length input.now }
    ensures { MatchBool result (IsMarkAt input.now place) (¬ (IsMarkAt input.now place)) }
{
    input[place..].starts_with(MARK) && begins_line(input, place)
}

/// The place of the first line of `input` that is exactly `%%` and is ended by a newline, wherever it stands; `None`
/// exactly where there is none. What stands before it is the text, what stands behind it are certificates.
pub fn cut(input: &[u8]) -> Option<usize>
    ensures first { IsFirstMark input.now result }
    ensures within { IfSome result (λ place. place + 3 ≤ length input.now) }
{
    for place in 0..input.len() {
        if is_mark_at(input, place) {
            return Some(place);
        }
    }
    None
}
