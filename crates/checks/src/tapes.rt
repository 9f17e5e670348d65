use std::test::Fail;
use tape::error::TapeError;
use tape::header::{Header, Kind, UnknownKind};
use tape::number::{write_number, write_signed};
use tape::read::{read_header, read_record};
use tape::record::Record;
use tape::write::{write_header, write_record};

const TWO: Header = Header {
    book: 7,
    products: 2,
    kind: Kind::Plain,
};

// Whether a tape with a good front and this many bytes in all is taken.
fn taken(len: usize) -> bool {
    let mut tape = [b'C'; 32_769];
    let front = [0x52, 0x50, 0x42, 0, 1, 0, 7, 2, 0];
    tape[0..9].copy_from_slice(&front);
    if len > 32_769 {
        return false;
    }
    read_header(&tape[0..len]).is_ok()
}

#[test]
fn longest_tape(rt: HostRuntime) {
    assert!(rt; taken(32_768));
    assert!(rt; !taken(32_769));
    assert!(rt; taken(9));
    assert!(rt; !taken(8));
}

// What a front with these bytes for products and kind gives: 0, or the refusal's number.
fn front(products: u8, kind: u8) -> u8 {
    match read_header(&[0x52, 0x50, 0x42, 0, 1, 0, 7, products, kind]) {
        Ok(_) => 0,
        Err(error) => u8::from(error),
    }
}

#[test]
fn products_and_kinds(rt: HostRuntime) {
    assert_eq!(rt; front(0, 0), 14);
    assert_eq!(rt; front(1, 0), 0);
    assert_eq!(rt; front(16, 1), 0);
    assert_eq!(rt; front(17, 1), 14);
    assert_eq!(rt; front(2, 1), 0);
    assert_eq!(rt; front(2, 2), 14);
}

#[test]
fn refusals_have_a_text(rt: HostRuntime) -> Result<(), Fail> {
    let cut_off = format!(in rt.alloc(); "{}", TapeError::CutOff)?;
    assert!(rt; cut_off.as_str() == "a record is cut off by the end of the tape");
    let unknown = format!(in rt.alloc(); "{}", UnknownKind(2))?;
    assert!(rt; unknown.as_str() == "no kind of worth has the number 2");
    Ok(())
}

#[test]
fn listing_header(rt: HostRuntime) -> Result<(), Fail> {
    let tape = [0x52, 0x50, 0x42, 0, 1, 0, 7, 2, 0];
    match read_header(&tape) {
        Ok((header, records)) => {
            assert_eq!(rt; header.book, 7);
            assert_eq!(rt; header.products, 2);
            assert_eq!(rt; header.kind, Kind::Plain);
            assert!(rt; records.is_empty());
            let mut out = [0; 9];
            assert_eq!(rt; write_header(&header, &mut out, 0), Some(9));
            assert_eq!(rt; &out[0..9], &tape[0..9]);
            Ok(())
        }
        Err(_) => Err(Fail::new("refused")),
    }
}

// Reads a record, and answers its letter and the rest's length, or the refusal's number; 0 at the end.
fn letter_of(tape: &[u8]) -> (u8, usize) {
    match read_record(&TWO, tape) {
        Ok(Some((found, rest))) => {
            let letter = match found {
                Record::Open(_) => b'O',
                Record::Offer(_) => b'T',
                Record::Confirm => b'C',
                Record::Withdraw => b'W',
                Record::Close => b'S',
                Record::Sheet => b'V',
            };
            (letter, rest.len())
        }
        Ok(None) => (0, 0),
        Err(error) => (u8::from(error), 0),
    }
}

#[test]
fn cut_off_at_each_length(rt: HostRuntime) {
    let open = [b'O', 0, 0, 0, 10, 0, 0, 0, 20, b'S'];
    for len in 1..9 {
        assert_eq!(rt; letter_of(&open[0..len]), (16, 0));
    }
    assert_eq!(rt; letter_of(&open[0..9]), (b'O', 0));
    assert_eq!(rt; letter_of(&open), (b'O', 1));
    assert_eq!(rt; letter_of(b"T"), (16, 0));
    assert_eq!(rt; letter_of(b"T2"), (16, 0));
    assert_eq!(rt; letter_of(b"T20"), (b'T', 0));
    assert_eq!(rt; letter_of(b""), (0, 0));
    assert_eq!(rt; letter_of(b"x"), (15, 0));
}

#[test]
fn opening_there_and_back(rt: HostRuntime) -> Result<(), Fail> {
    let tape = [b'O', 0x3b, 0x9a, 0xca, 0x00, 0xff, 0xff, 0xff, 0xff];
    match read_record(&TWO, &tape) {
        Ok(Some((found, rest))) => {
            assert!(rt; rest.is_empty());
            let mut out = [0; 9];
            assert_eq!(rt; write_record(&TWO, &found, &mut out, 0), Some(9));
            assert_eq!(rt; &out[0..9], &tape[0..9]);
            match found {
                Record::Open(prices) => {
                    assert_eq!(rt; prices[0], 1_000_000_000);
                    assert_eq!(rt; prices[1], u32::MAX);
                    assert_eq!(rt; prices[2], 0);
                    Ok(())
                }
                _ => Err(Fail::new("no opening")),
            }
        }
        _ => Err(Fail::new("no record")),
    }
}

#[test]
fn numbers_at_their_ends(rt: HostRuntime) {
    let mut line = [b'.'; 22];
    assert_eq!(rt; write_number(u64::MAX, &mut line, 1), Some(21));
    assert_eq!(rt; &line[0..22], b".18446744073709551615.".as_slice());
    assert_eq!(rt; write_signed(i64::MIN, &mut line, 2), Some(22));
    assert_eq!(rt; &line[0..22], b".1-9223372036854775808".as_slice());
    assert_eq!(rt; write_signed(i64::MIN, &mut line, 3), None);
    assert_eq!(rt; &line[0..22], b".1-9223372036854775808".as_slice());
    assert_eq!(rt; write_number(0, &mut line, 21), Some(22));
    assert_eq!(rt; write_number(0, &mut line, 22), None);
    assert_eq!(rt; write_number(10, &mut line, usize::MAX), None);
    assert_eq!(rt; &line[0..22], b".1-9223372036854775800".as_slice());
}
