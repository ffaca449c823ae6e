use line::{HouseHost, HouseLine, Line, Standing};
use smtp::Refusal;
use std::test::Fail;

#[test]
fn room_exactly_enough(rt: HostRuntime) -> Result<(), Fail> {
    let mut out = [0u8; 42];
    let host = HouseHost::new(b"mx.example", true, true, 1, 250)?;
    let mut line = HouseLine::new(host, &mut out);
    assert_eq!(rt; line.room(), 42);
    assert!(rt; line.open(b"mx.example").is_ok());
    assert_eq!(rt; line.room(), 18);
    assert_eq!(rt; line.put(b"QUIT \r\n"), Err(Refusal::NoRoom));
    assert_eq!(rt; line.pieces(), 0);
    assert!(rt; line.put(b"QUIT\r\n").is_ok());
    assert_eq!(rt; line.room(), 0);
    assert!(rt; line.transcript() == b"    1O   12 mx.example\r\n    1C    6 QUIT\r\n".as_slice());
    Ok(())
}

// One byte short: refused, and nothing altered.
#[test]
fn room_one_short(rt: HostRuntime) -> Result<(), Fail> {
    let mut out = [7u8; 23];
    let host = HouseHost::new(b"mx.example", true, true, 1, 250)?;
    let mut line = HouseLine::new(host, &mut out);
    assert_eq!(rt; line.open(b"mx.example"), Err(Refusal::NoRoom));
    assert_eq!(rt; line.standing(), Standing::Closed);
    assert_eq!(rt; line.visit(), 0);
    assert_eq!(rt; line.room(), 23);
    Ok(())
}

#[test]
fn a_piece_of_43693(rt: HostRuntime) -> Result<(), Fail> {
    let mut out = [0u8; 50000];
    let piece = [b'x'; 43694];
    let host = HouseHost::new(b"a", true, true, 1, 250)?;
    let mut line = HouseLine::new(host, &mut out);
    assert!(rt; line.open(b"a").is_ok());
    assert_eq!(rt; line.put(&piece), Err(Refusal::NoRoom));
    assert_eq!(rt; line.room(), 49985);
    assert!(rt; line.put(&piece[0..43693]).is_ok());
    assert_eq!(rt; line.room(), 6280);
    Ok(())
}

// A take with nothing due is lost: the line closes, and the buffer stays.
#[test]
fn nothing_is_due(rt: HostRuntime) -> Result<(), Fail> {
    let mut out = [0u8; 100];
    let mut reply = [9u8; 4096];
    let host = HouseHost::new(b"a", true, true, 1, 250)?;
    let mut line = HouseLine::new(host, &mut out);
    assert!(rt; line.open(b"a").is_ok());
    assert_eq!(rt; line.take(&mut reply), Ok(Some(7)));
    assert_eq!(rt; line.take(&mut reply), Ok(None));
    assert!(rt; &reply[0..8] == b"220 a\r\n\t".as_slice());
    assert_eq!(rt; line.standing(), Standing::Closed);
    Ok(())
}

// A name of 253 bytes, the longest.
#[test]
fn the_longest_name(rt: HostRuntime) -> Result<(), Fail> {
    let mut out = [0u8; 400];
    let mut reply = [0u8; 4096];
    let mut name = [b'n'; 253];
    name[63] = b'.';
    name[127] = b'.';
    name[191] = b'.';
    let host = HouseHost::new(&name, true, true, 1, 250)?;
    let mut line = HouseLine::new(host, &mut out);
    assert!(rt; line.open(&name).is_ok());
    assert!(rt; line.put(b"EHLO a\r\n").is_ok());
    assert_eq!(rt; line.take(&mut reply), Ok(Some(283)));
    assert!(rt; &reply[257..283] == b"\r\n250-STARTTLS\r\n250 HELP\r\n".as_slice());
    Ok(())
}
