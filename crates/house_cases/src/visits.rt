use line::{HouseHost, HouseLine, Line, Standing, Trust};
use std::test::Fail;

// From the greeting to the handshake.
#[test]
fn a_visit_in_the_clear(rt: HostRuntime) -> Result<(), Fail> {
    let mut out = [0u8; 200];
    let mut reply = [7u8; 4096];
    let host = HouseHost::new(b"mx.example", true, true, 2, 250)?;
    let mut line = HouseLine::new(host, &mut out);
    assert!(rt; line.open(b"mx.example").is_ok());
    assert_eq!(rt; line.take(&mut reply), Ok(Some(16)));
    assert!(rt; &reply[0..17] == b"220 mx.example\r\n\x07".as_slice());
    assert!(rt; line.put(b"EHLO out.example\r\n").is_ok());
    assert_eq!(rt; line.take(&mut reply), Ok(Some(40)));
    assert!(rt; &reply[0..41] == b"250-mx.example\r\n250-STARTTLS\r\n250 HELP\r\n\x07".as_slice());
    assert!(rt; line.put(b"STARTTLS\r\n").is_ok());
    assert_eq!(rt; line.take(&mut reply), Ok(Some(8)));
    assert!(rt; &reply[0..8] == b"220 ok\r\n".as_slice());
    assert_eq!(rt; line.cover(&mut reply), Ok(Some((Trust::Dane, 10))));
    assert!(rt; &reply[0..10] == b"mx.example".as_slice());
    assert_eq!(rt; line.standing(), Standing::Covered);
    assert!(rt; line.close().is_ok());
    assert!(rt;
        line.transcript()
            == b"    1O   12 mx.example\r\n    1C   18 EHLO out.example\r\n    1C   10 STARTTLS\r\n".as_slice()
    );
    Ok(())
}

// A message is taken: the piece right after DATA is content, whatever it says, and the piece behind that a command again.
#[test]
fn a_message(rt: HostRuntime) -> Result<(), Fail> {
    let mut out = [0u8; 300];
    let mut reply = [0u8; 4096];
    let host = HouseHost::new(b"mx.example", true, true, 1, 250)?;
    let mut line = HouseLine::new(host, &mut out);
    assert!(rt; line.open(b"mx.example").is_ok());
    assert!(rt; line.put(b"MAIL FROM:<a@b.example>\r\n").is_ok());
    assert_eq!(rt; line.take(&mut reply), Ok(Some(8)));
    assert!(rt; &reply[0..8] == b"250 ok\r\n".as_slice());
    assert!(rt; line.put(b"RCPT TO:<c@d.example>\r\n").is_ok());
    assert_eq!(rt; line.take(&mut reply), Ok(Some(8)));
    assert!(rt; line.put(b"DATA\r\n").is_ok());
    assert_eq!(rt; line.take(&mut reply), Ok(Some(8)));
    assert!(rt; &reply[0..8] == b"354 ok\r\n".as_slice());
    assert!(rt; line.put(b"DATA\r\n.\r\n").is_ok());
    assert_eq!(rt; line.take(&mut reply), Ok(Some(8)));
    assert!(rt; &reply[0..8] == b"250 ok\r\n".as_slice());
    assert!(rt; line.put(b"DATA\r\n").is_ok());
    assert_eq!(rt; line.take(&mut reply), Ok(Some(8)));
    assert!(rt; &reply[0..8] == b"354 ok\r\n".as_slice());
    assert_eq!(rt; line.pieces(), 5);
    Ok(())
}

// Covered, EHLO lists REQUIRETLS, and STARTTLS is not known.
#[test]
fn a_covered_visit(rt: HostRuntime) -> Result<(), Fail> {
    let mut out = [0u8; 300];
    let mut reply = [0u8; 4096];
    let host = HouseHost::new(b"mx.example", true, true, 1, 250)?;
    let mut line = HouseLine::new(host, &mut out);
    assert!(rt; line.open(b"mx.example").is_ok());
    assert!(rt; line.put(b"STARTTLS\r\n").is_ok());
    assert_eq!(rt; line.cover(&mut reply), Ok(Some((Trust::Chain, 10))));
    assert!(rt; line.put(b"EHLO out.example\r\n").is_ok());
    assert_eq!(rt; line.take(&mut reply), Ok(Some(42)));
    assert!(rt; &reply[0..42] == b"250-mx.example\r\n250-REQUIRETLS\r\n250 HELP\r\n".as_slice());
    assert!(rt; line.put(b"STARTTLS\r\n").is_ok());
    assert_eq!(rt; line.take(&mut reply), Ok(Some(8)));
    assert!(rt; &reply[0..8] == b"500 ok\r\n".as_slice());
    assert!(rt; line.put(b"QUIT\r\n").is_ok());
    assert!(rt; line.close().is_ok());
    assert!(rt;
        line.transcript()
            == b"    1O   12 mx.example\r\n    1C   10 STARTTLS\r\n    1T   18 EHLO out.example\r\n    1T   10 STARTTLS\r\n    1T    6 QUIT\r\n".as_slice()
    );
    Ok(())
}

// A visit starts anew: its number, its pieces, and the host's answers.
#[test]
fn one_visit_after_the_other(rt: HostRuntime) -> Result<(), Fail> {
    let mut out = [0u8; 300];
    let mut reply = [0u8; 4096];
    let host = HouseHost::new(b"mx.example", true, true, 1, 250)?;
    let mut line = HouseLine::new(host, &mut out);
    assert_eq!(rt; line.visit(), 0);
    assert!(rt; line.open(b"mx.example").is_ok());
    assert!(rt; line.put(b"DATA\r\n").is_ok());
    assert!(rt; line.close().is_ok());
    assert_eq!(rt; line.pieces(), 0);
    assert!(rt; line.open(b"MX.Example").is_ok());
    assert_eq!(rt; line.visit(), 2);
    assert_eq!(rt; line.pieces(), 0);
    assert_eq!(rt; line.take(&mut reply), Ok(Some(16)));
    assert!(rt; &reply[0..16] == b"220 mx.example\r\n".as_slice());
    assert!(rt; line.put(b"DATA\r\n").is_ok());
    assert_eq!(rt; line.take(&mut reply), Ok(Some(8)));
    assert!(rt; &reply[0..8] == b"354 ok\r\n".as_slice());
    Ok(())
}

// Opened by another name, all is lost.
#[test]
fn another_name(rt: HostRuntime) -> Result<(), Fail> {
    let mut out = [0u8; 300];
    let mut reply = [9u8; 4096];
    let host = HouseHost::new(b"mx.example", true, true, 1, 250)?;
    let mut line = HouseLine::new(host, &mut out);
    assert!(rt; line.open(b"mx.example.org").is_ok());
    assert_eq!(rt; line.take(&mut reply), Ok(None));
    assert_eq!(rt; line.standing(), Standing::Closed);
    assert!(rt; line.open(b"mx").is_ok());
    assert!(rt; line.put(b"STARTTLS\r\n").is_ok());
    assert_eq!(rt; line.cover(&mut reply), Ok(None));
    assert_eq!(rt; line.standing(), Standing::Closed);
    assert_eq!(rt; reply[0], 9);
    Ok(())
}
