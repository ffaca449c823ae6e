use line::record::head_of;
use line::{Letter, Line, Sheet, SheetLine, Standing, Trust};
use smtp::Refusal;
use std::test::Fail;

// Room for the name's record and no byte more.
#[test]
fn room_exactly_enough(rt: HostRuntime) -> Result<(), Fail> {
    let mut out = [0u8; 25];
    let sheet = Sheet::read(b"")?;
    let mut line = SheetLine::new(sheet, &mut out);
    assert_eq!(rt; line.room(), 25);
    assert!(rt; line.open(b"mx1.example").is_ok());
    assert_eq!(rt; line.room(), 0);
    assert_eq!(rt; line.put(b""), Err(Refusal::NoRoom));
    assert!(rt; line.transcript() == b"    1O   13 mx1.example\r\n".as_slice());
    Ok(())
}

// One byte short: refused, and nothing altered.
#[test]
fn room_one_short_for_a_name(rt: HostRuntime) -> Result<(), Fail> {
    let mut out = [7u8; 24];
    let sheet = Sheet::read(b"")?;
    let mut line = SheetLine::new(sheet, &mut out);
    assert_eq!(rt; line.open(b"mx1.example"), Err(Refusal::NoRoom));
    assert_eq!(rt; line.standing(), Standing::Closed);
    assert_eq!(rt; line.visit(), 0);
    assert_eq!(rt; line.room(), 24);
    assert!(rt; line.transcript().is_empty());
    Ok(())
}

#[test]
fn room_for_a_piece(rt: HostRuntime) -> Result<(), Fail> {
    let mut out = [0u8; 43];
    let sheet = Sheet::read(b"")?;
    let mut line = SheetLine::new(sheet, &mut out);
    assert!(rt; line.open(b"mx1.example").is_ok());
    assert_eq!(rt; line.put(b"QUIT \r\n"), Err(Refusal::NoRoom));
    assert_eq!(rt; line.room(), 18);
    assert_eq!(rt; line.pieces(), 0);
    assert!(rt; line.put(b"QUIT\r\n").is_ok());
    assert_eq!(rt; line.room(), 0);
    assert_eq!(rt; line.pieces(), 1);
    Ok(())
}

#[test]
fn a_piece_of_43693(rt: HostRuntime) -> Result<(), Fail> {
    let mut out = [0u8; 50000];
    let piece = [b'x'; 43694];
    let sheet = Sheet::read(b"")?;
    let mut line = SheetLine::new(sheet, &mut out);
    assert!(rt; line.open(b"a").is_ok());
    assert_eq!(rt; line.put(&piece), Err(Refusal::NoRoom));
    assert_eq!(rt; line.room(), 49985);
    assert!(rt; line.put(&piece[0..43693]).is_ok());
    assert_eq!(rt; line.room(), 6280);
    Ok(())
}

// How many bytes the greeting has over a sheet, or that it is lost.
fn greeting_of(sheet: &[u8]) -> Result<Option<usize>, Refusal> {
    let mut out = [0u8; 100];
    let mut reply = [0u8; 4100];
    let mut line = SheetLine::new(Sheet::read(sheet)?, &mut out);
    line.open(b"a")?;
    line.take(&mut reply)
}

// The trust of the handshake over a sheet and how many bytes its names text has, or that it is lost.
fn handshake_of(sheet: &[u8]) -> Result<Option<(Trust, usize)>, Refusal> {
    let mut out = [0u8; 100];
    let mut names = [0u8; 4100];
    let mut line = SheetLine::new(Sheet::read(sheet)?, &mut out);
    line.open(b"a")?;
    line.cover(&mut names)
}

#[test]
fn a_reply_of_4096(rt: HostRuntime) {
    let mut text = [b'x'; 4108];
    text[0..12].copy_from_slice(&head_of(1, Letter::Reply, 4096));
    assert_eq!(rt; greeting_of(&text), Ok(Some(4096)));
}

// A reply above 4,096 is lost, however large the buffer.
#[test]
fn a_reply_of_4097(rt: HostRuntime) {
    let mut text = [b'x'; 4109];
    text[0..12].copy_from_slice(&head_of(1, Letter::Reply, 4097));
    assert_eq!(rt; greeting_of(&text), Ok(None));
}

#[test]
fn a_names_text_of_4096(rt: HostRuntime) {
    let mut text = [b'x'; 4112];
    // byte by byte: behind several copies into parts of it the array's length is not known
    text[12] = b'1';
    text[13] = b' ';
    text[4110] = b'\r';
    text[4111] = b'\n';
    text[0..12].copy_from_slice(&head_of(1, Letter::Handshake, 4100));
    assert_eq!(rt; handshake_of(&text), Ok(Some((Trust::Chain, 4096))));
}

#[test]
fn a_names_text_of_4097(rt: HostRuntime) {
    let mut text = [b'x'; 4113];
    text[12] = b'1';
    text[13] = b' ';
    text[4111] = b'\r';
    text[4112] = b'\n';
    text[0..12].copy_from_slice(&head_of(1, Letter::Handshake, 4101));
    assert_eq!(rt; handshake_of(&text), Ok(None));
}

fn room_of(out: &mut [u8]) -> Result<usize, Refusal> {
    Ok(SheetLine::new(Sheet::read(b"")?, out).room())
}

// Of the bytes lent for the transcript the first 1,000,000 serve.
#[test]
fn a_million_bytes_serve(rt: HostRuntime) -> Result<(), Fail> {
    let mut out = vec![in rt.alloc(); 0u8; 1000100]?;
    assert_eq!(rt; room_of(&mut out[0..1000000])?, 1000000);
    assert_eq!(rt; room_of(&mut out)?, 1000000);
    Ok(())
}
