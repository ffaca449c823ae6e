use crate::talk::Talk;
use line::{Line, Sheet, SheetLine, Standing, Trust};
use std::test::Fail;

// A host that lists STARTTLS in the clear and REQUIRETLS under TLS, and another at visit 3.
const VISITS: &[u8] =
    b"    1R   17 220 mx1.example\r\n    1R   31 250-mx1.example\r\n250 STARTTLS\r\n    1R   14 220 go ahead\r\n    1H   27 1 mx1.example *.d.example\r\n    1R   33 250-mx1.example\r\n250 REQUIRETLS\r\n    3R   17 220 mx3.example\r\n";

#[test]
fn a_visit_as_the_sheet_says(rt: HostRuntime) -> Result<(), Fail> {
    let mut out = [0u8; 200];
    let mut talk = Talk::over(SheetLine::new(Sheet::read(VISITS)?, &mut out), 0);
    assert!(rt; talk.greets(b"mx1.example", b"220 mx1.example\r\n"));
    assert!(rt;
        talk.answers(
            b"EHLO out.example\r\n",
            b"250-mx1.example\r\n250 STARTTLS\r\n",
        )
    );
    assert!(rt; talk.answers(b"STARTTLS\r\n", b"220 go ahead\r\n"));
    assert!(rt; talk.covers(Trust::Chain, b"mx1.example *.d.example"));
    assert!(rt;
        talk.answers(
            b"EHLO out.example\r\n",
            b"250-mx1.example\r\n250 REQUIRETLS\r\n",
        )
    );
    assert!(rt; talk.line.put(b"QUIT\r\n").is_ok() && talk.line.close().is_ok());
    assert!(rt;
        talk.line.transcript()
            == b"    1O   13 mx1.example\r\n    1C   18 EHLO out.example\r\n    1C   10 STARTTLS\r\n    1T   18 EHLO out.example\r\n    1T    6 QUIT\r\n".as_slice()
    );
    Ok(())
}

// A reply that stands before the handshake is never read as covered.
#[test]
fn a_reply_left_before_the_handshake_stays_there(rt: HostRuntime) -> Result<(), Fail> {
    let mut out = [0u8; 200];
    let sheet = Sheet::read(
        b"    1R    7 220 a\r\n    1R    7 250 b\r\n    1R   10 250 left\r\n    1H    5 2 a\r\n",
    )?;
    let mut talk = Talk::over(SheetLine::new(sheet, &mut out), 0);
    assert!(rt; talk.greets(b"a", b"220 a\r\n"));
    assert!(rt; talk.answers(b"EHLO b\r\n", b"250 b\r\n"));
    assert!(rt; talk.covers(Trust::Dane, b"a"));
    assert!(rt; talk.loses(b"EHLO b\r\n"));
    assert_eq!(rt; talk.line.standing(), Standing::Closed);
    Ok(())
}

// Behind the handshake replies are numbered from 1, and a second handshake of the visit is passed over.
#[test]
fn replies_behind_the_first_handshake(rt: HostRuntime) -> Result<(), Fail> {
    let mut out = [0u8; 200];
    let sheet = Sheet::read(
        b"    1R    7 220 a\r\n    1R   10 250 left\r\n    1H    5 2 a\r\n    1R   12 250 behind\r\n    1H    5 0 b\r\n    1R   10 250 more\r\n",
    )?;
    let mut talk = Talk::over(SheetLine::new(sheet, &mut out), 0);
    assert!(rt; talk.greets(b"a", b"220 a\r\n"));
    assert!(rt; talk.covers(Trust::Dane, b"a"));
    assert!(rt; talk.answers(b"one\r\n", b"250 behind\r\n"));
    assert!(rt; talk.answers(b"two\r\n", b"250 more\r\n"));
    assert!(rt; talk.loses(b"three\r\n"));
    Ok(())
}

// A visit has its own number, pieces and replies; one that is not on the sheet answers nothing.
#[test]
fn one_visit_after_the_other(rt: HostRuntime) -> Result<(), Fail> {
    let mut out = [0u8; 300];
    let mut talk = Talk::over(SheetLine::new(Sheet::read(VISITS)?, &mut out), 0);
    assert!(rt; talk.line.visit() == 0 && talk.line.open(b"mx1.example").is_ok());
    assert!(rt; talk.line.put(b"EHLO a\r\n").is_ok() && talk.line.put(b"EHLO b\r\n").is_ok());
    assert!(rt; talk.line.pieces() == 2 && talk.line.close().is_ok());
    assert!(rt; talk.line.pieces() == 0 && talk.line.open(b"mx2.example").is_ok());
    assert!(rt; talk.line.visit() == 2 && talk.line.pieces() == 0);
    assert!(rt; talk.hears_nothing());
    assert!(rt; talk.greets(b"mx3.example", b"220 mx3.example\r\n"));
    assert!(rt; talk.line.visit() == 3);
    Ok(())
}

// A take with nothing due is lost: the line closes, and the buffer stays.
#[test]
fn nothing_is_due(rt: HostRuntime) -> Result<(), Fail> {
    let mut out = [0u8; 100];
    let mut talk = Talk::over(SheetLine::new(Sheet::read(VISITS)?, &mut out), 9);
    assert!(rt; talk.greets(b"mx1.example", b"220 mx1.example\r\n"));
    assert!(rt; talk.hears_nothing());
    assert!(rt; talk.buffer.starts_with(b"220 mx1.example\r\n\t"));
    assert_eq!(rt; talk.line.standing(), Standing::Closed);
    assert_eq!(rt; talk.line.room(), 75);
    Ok(())
}
