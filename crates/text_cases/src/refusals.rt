//! The lines of refusals.
use il_core::{Code, Many, Name, Refusal};
use il_edge::SureSink;
use report_text::put_refusal;
use std::test::Fail;

fn refusal(code: Code, place: usize, name: Option<Name>) -> Refusal {
    Refusal { code, place, name }
}

#[test]
fn writes_the_refusals(rt: HostRuntime) -> Result<(), Fail> {
    let cases: [(Refusal, &[u8]); 16] = [
        (
            refusal(Code::TooLong, 1_048_576, None),
            b"malpas: E01 at byte 1048576: text too long\n",
        ),
        (
            refusal(Code::NotAscii, 1, None),
            b"malpas: E02 at byte 1: byte is not ASCII\n",
        ),
        (
            refusal(Code::Lexical, 110, None),
            b"malpas: E03 at byte 110: no such token\n",
        ),
        (
            refusal(Code::Number, 19, None),
            b"malpas: E04 at byte 19: number too large\n",
        ),
        (
            refusal(Code::Syntax, 124, None),
            b"malpas: E05 at byte 124: statement has no form\n",
        ),
        (
            refusal(Code::Order, 0, None),
            b"malpas: E06 at byte 0: statement out of order\n",
        ),
        (
            refusal(Code::Unmatched, 108, None),
            b"malpas: E07 at byte 108: block or label unmatched\n",
        ),
        (
            refusal(Code::Twice, 69, Name::new(b"x")),
            b"malpas: E08 at byte 69: name declared twice: x\n",
        ),
        (
            refusal(Code::Unknown, 108, Name::new(b"x")),
            b"malpas: E09 at byte 108: name unknown: x\n",
        ),
        (
            refusal(Code::Typing, 7, Name::new(b"x")),
            b"malpas: E10 at byte 7: wrong type\n",
        ),
        (
            refusal(Code::Access, 8, None),
            b"malpas: E11 at byte 8: wrong mode\n",
        ),
        (
            refusal(Code::EmptyRange, 69, None),
            b"malpas: E12 at byte 69: range is empty\n",
        ),
        (
            refusal(Code::Wide, 108, None),
            b"malpas: E13 at byte 108: expression too wide\n",
        ),
        (
            refusal(Code::TooMany(Many::Procedures), 9, None),
            b"malpas: E14 at byte 9: too many procedures\n",
        ),
        (
            refusal(Code::TooMany(Many::Lines), 6108, None),
            b"malpas: E14 at byte 6108: too many lines\n",
        ),
        (
            refusal(Code::TooMany(Many::Places), 9, None),
            b"malpas: E14 at byte 9: too many places\n",
        ),
    ];
    for (refusal, line) in cases.iter() {
        let mut sink = SureSink::new(rt.alloc(), 100)?;
        put_refusal(refusal, &mut sink)?;
        assert_eq!(rt; sink.held(), *line);
    }
    Ok(())
}
