//! Where the text of an input ends and its certificates begin.

use cert_text::cut;
use std::test::Fail;

/// An input, and the place of its first line `%%`.
const MARKS: &[(&str, Option<usize>)] = &[
    ("", None),
    ("%%", None),
    ("%%\n", Some(0)),
    ("\n%%\n", Some(1)),
    ("a\n%%\n", Some(2)),
    ("a\n%%\nb\n%%\n", Some(2)),
    ("%\n%%\n", Some(2)),
    ("%%\n%%\n", Some(0)),
    ("[ a\n%%\n]\n", Some(4)),
    ("a%%\n", None),
    (" %%\n", None),
    ("%% \n", None),
    ("%%\r\n", None),
    ("\r%%\n", None),
    ("%%%\n", None),
    ("% %\n", None),
    ("a\n%%", None),
    ("a\n%% \n%%\n", Some(6)),
];

#[test]
fn cuts_at_the_first_line_of_two_percent_signs(rt: HostRuntime) -> Result<(), Fail> {
    for (input, place) in MARKS {
        assert!(rt; cut(input.as_bytes()) == *place, "{input}");
    }
    Ok(())
}
