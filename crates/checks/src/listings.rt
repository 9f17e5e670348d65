use listing::error::{BadLine, LineError};
use listing::list::list_tape;
use listing::make::make_tape;
use std::test::Fail;

// A tape of book 7 with 2 products and plain worths: an opening at 10 and 20, an offer of 2 and 0, and a confirmation.
const TAPE: [u8; 22] = *b"RPB\x00\x01\x00\x07\x02\x00O\x00\x00\x00\x0a\x00\x00\x00\x14T\x02\x00C";

#[test]
fn lists_a_tape(rt: HostRuntime) -> Result<(), Fail> {
    let mut text = Vec::new(rt.alloc());
    list_tape(&TAPE, &mut text)?;
    assert!(rt; text.as_slice() == b"book 7 products 2 kind plain\nO 10 20\nT 2 0\nC\n".as_slice());
    Ok(())
}

#[test]
fn says_where_a_tape_breaks(rt: HostRuntime) -> Result<(), Fail> {
    let mut text = Vec::new(rt.alloc());
    list_tape(&TAPE[0..15], &mut text)?;
    assert!(rt; text.as_slice() == b"book 7 products 2 kind plain\nNO 16\n".as_slice());
    Ok(())
}

#[test]
fn passes_over_comments_and_blanks(rt: HostRuntime) {
    let mut tape = [0u8; 22];
    let text = b"# a sale\n\nbook 007 products 2 kind plain # of two\n\tO 10\t20\r\n T 2 0 \nC";
    assert_eq!(rt; make_tape(text, &mut tape), Ok(22));
    assert!(rt; tape.as_slice() == TAPE.as_slice());
}

#[test]
fn refuses_a_bad_number_and_a_wrong_count(rt: HostRuntime) {
    let mut tape = [0u8; 64];
    let bad = make_tape(b"book 1 products 1 kind plain\nO 1x\n", &mut tape);
    assert_eq!(rt;
        bad,
        Err(BadLine {
            line: 2,
            error: LineError::NotANumber,
        })
    );
    let large = make_tape(b"book 1 products 1 kind plain\nC\nT 256\n", &mut tape);
    assert_eq!(rt;
        large,
        Err(BadLine {
            line: 3,
            error: LineError::TooLarge,
        })
    );
    let many = make_tape(b"book 1 products 1 kind plain\nO 1 2\n", &mut tape);
    assert_eq!(rt;
        many,
        Err(BadLine {
            line: 2,
            error: LineError::WrongCount,
        })
    );
}

#[test]
fn names_the_line_where_a_heading_is_missing(rt: HostRuntime) {
    let mut tape = [0u8; 64];
    let none = make_tape(b"# nothing\n\n", &mut tape);
    assert_eq!(rt;
        none,
        Err(BadLine {
            line: 3,
            error: LineError::NoHeading,
        })
    );
}

#[test]
fn says_why_a_line_is_refused(rt: HostRuntime) -> Result<(), Fail> {
    let said = [
        (LineError::NoHeading, "the text ends before its heading"),
        (
            LineError::NotAHeading,
            "expected a heading, as `book 7 products 2 kind plain`",
        ),
        (LineError::BadProducts, "a sale has 1 to 16 products"),
        (
            LineError::UnknownRecord,
            "unknown record: expected O, T, C, W, S or V",
        ),
        (LineError::NotANumber, "expected a number, digits only"),
        (LineError::TooLarge, "the number is above its range"),
        (
            LineError::WrongCount,
            "too few words or too many: a row has one number for each product",
        ),
        (
            LineError::TapeFull,
            "the tape would be longer than 32,768 bytes",
        ),
    ];
    for (error, text) in said {
        let shown = format!(in rt.alloc(); "{error}")?;
        assert!(rt; shown.as_str() == text);
    }
    let bad = BadLine {
        line: 2,
        error: LineError::NotANumber,
    };
    let shown = format!(in rt.alloc(); "{bad}")?;
    assert!(rt; shown.as_str() == "line 2: expected a number, digits only");
    Ok(())
}
