use line::{HouseHost, HouseLine, Line, Standing};
use smtp::Refusal;
use std::test::Fail;

// What the host says to one piece in the clear: its code, as the first three bytes.
fn says(host: HouseHost, piece: &[u8]) -> Result<[u8; 3], Refusal> {
    let mut out = [0u8; 100];
    let mut reply = [0u8; 4096];
    let mut line = HouseLine::new(host, &mut out);
    line.open(b"mx.example")?;
    line.put(piece)?;
    line.take(&mut reply)?;
    Ok([reply[0], reply[1], reply[2]])
}

#[test]
fn a_word_ends_at_a_blank_or_cr(rt: HostRuntime) -> Result<(), Fail> {
    let host = HouseHost::new(b"mx.example", true, true, 1, 250)?;
    assert_eq!(rt; says(host, b"data")?, *b"354");
    assert_eq!(rt; says(host, b"Data now\r\n")?, *b"354");
    assert_eq!(rt; says(host, b"DATA\rx")?, *b"354");
    assert_eq!(rt; says(host, b"DATA\n")?, *b"500");
    assert_eq!(rt; says(host, b"DATA\t\r\n")?, *b"500");
    assert_eq!(rt; says(host, b"DATAS\r\n")?, *b"500");
    assert_eq!(rt; says(host, b" DATA\r\n")?, *b"500");
    Ok(())
}

#[test]
fn other_words(rt: HostRuntime) -> Result<(), Fail> {
    let host = HouseHost::new(b"mx.example", true, true, 1, 250)?;
    assert_eq!(rt; says(host, b"")?, *b"500");
    assert_eq!(rt; says(host, b"QUIT\r\n")?, *b"500");
    assert_eq!(rt; says(host, b"HELO a\r\n")?, *b"500");
    assert_eq!(rt; says(host, b"MAIL FROM:<>\r\n")?, *b"250");
    assert_eq!(rt; says(host, b"mail\r\n")?, *b"250");
    assert_eq!(rt; says(host, b"EhLo\r\n")?, *b"250");
    assert_eq!(rt; says(host, b"StartTls\r\n")?, *b"220");
    Ok(())
}

#[test]
fn recipients(rt: HostRuntime) -> Result<(), Fail> {
    let taken = HouseHost::new(b"mx.example", true, true, 1, 250)?;
    assert_eq!(rt; says(taken, b"RCPT TO:<a@b>\r\n")?, *b"250");
    let later = HouseHost::new(b"mx.example", true, true, 1, 450)?;
    assert_eq!(rt; says(later, b"RCPT TO:<a@b>\r\n")?, *b"450");
    let refused = HouseHost::new(b"mx.example", true, true, 1, 550)?;
    assert_eq!(rt; says(refused, b"rcpt TO:<a@b>\r\n")?, *b"550");
    Ok(())
}

// What is not offered is not listed, and STARTTLS not known.
#[test]
fn nothing_is_offered(rt: HostRuntime) -> Result<(), Fail> {
    let mut out = [0u8; 100];
    let mut reply = [0u8; 4096];
    let host = HouseHost::new(b"mx.example", false, true, 1, 250)?;
    let mut line = HouseLine::new(host, &mut out);
    assert!(rt; line.open(b"mx.example").is_ok());
    assert!(rt; line.put(b"EHLO a\r\n").is_ok());
    assert_eq!(rt; line.take(&mut reply), Ok(Some(26)));
    assert!(rt; &reply[0..26] == b"250-mx.example\r\n250 HELP\r\n".as_slice());
    assert!(rt; line.put(b"STARTTLS\r\n").is_ok());
    assert_eq!(rt; line.cover(&mut reply), Ok(None));
    assert_eq!(rt; line.standing(), Standing::Closed);
    Ok(())
}

// A handshake needs STARTTLS right before it.
#[test]
fn handshakes_that_are_lost(rt: HostRuntime) -> Result<(), Fail> {
    let mut out = [0u8; 200];
    let mut reply = [0u8; 4096];
    let host = HouseHost::new(b"mx.example", true, false, 1, 250)?;
    let mut line = HouseLine::new(host, &mut out);
    assert!(rt; line.open(b"mx.example").is_ok());
    assert_eq!(rt; line.cover(&mut reply), Ok(None));
    assert!(rt; line.open(b"mx.example").is_ok());
    assert!(rt; line.put(b"STARTTLS\r\n").is_ok());
    assert!(rt; line.put(b"EHLO a\r\n").is_ok());
    assert_eq!(rt; line.cover(&mut reply), Ok(None));
    assert!(rt; line.open(b"mx.example").is_ok());
    assert!(rt; line.put(b"DATA\r\n").is_ok());
    assert!(rt; line.put(b"STARTTLS\r\n").is_ok());
    assert_eq!(rt; line.cover(&mut reply), Ok(None));
    Ok(())
}
