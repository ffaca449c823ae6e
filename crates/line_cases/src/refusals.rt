use line::{Line, Sheet, SheetLine, Trust};
use smtp::Refusal;
use std::test::Fail;

#[test]
fn a_closed_line(rt: HostRuntime) -> Result<(), Fail> {
    let mut out = [0u8; 100];
    let mut short = [0u8; 4095];
    let mut reply = [0u8; 4096];
    let sheet = Sheet::read(b"")?;
    let mut line = SheetLine::new(sheet, &mut out);
    assert_eq!(rt; line.put(b"x"), Err(Refusal::WrongStanding));
    assert_eq!(rt; line.take(&mut short), Err(Refusal::ShortBuffer));
    assert_eq!(rt; line.take(&mut reply), Err(Refusal::WrongStanding));
    assert_eq!(rt; line.cover(&mut short), Err(Refusal::ShortBuffer));
    assert_eq!(rt; line.cover(&mut reply), Err(Refusal::WrongStanding));
    assert_eq!(rt; line.close(), Err(Refusal::WrongStanding));
    assert_eq!(rt; line.open(b""), Err(Refusal::BadHost));
    assert_eq!(rt; line.open(b"a..b"), Err(Refusal::BadHost));
    assert!(rt; line.transcript().is_empty());
    Ok(())
}

#[test]
fn an_open_line(rt: HostRuntime) -> Result<(), Fail> {
    let mut out = [0u8; 15];
    let mut reply = [0u8; 4096];
    let sheet = Sheet::read(b"    1H    5 2 a\r\n")?;
    let mut line = SheetLine::new(sheet, &mut out);
    assert!(rt; line.open(b"a").is_ok());
    assert_eq!(rt; line.open(b"a b"), Err(Refusal::BadHost));
    assert_eq!(rt; line.open(b"b"), Err(Refusal::WrongStanding));
    assert_eq!(rt; line.put(b""), Err(Refusal::NoRoom));
    assert_eq!(rt; line.cover(&mut reply), Ok(Some((Trust::Dane, 1))));
    assert_eq!(rt; line.cover(&mut reply), Err(Refusal::WrongStanding));
    assert_eq!(rt; line.take(&mut reply), Ok(None));
    assert_eq!(rt; line.take(&mut reply), Err(Refusal::WrongStanding));
    assert_eq!(rt; line.visit(), 1);
    Ok(())
}

fn breaks_form(sheet: &[u8]) -> bool {
    Sheet::read(sheet).err() == Some(Refusal::BadSheet)
}

#[test]
fn sheets_that_break_their_form(rt: HostRuntime) {
    // letters and visit numbers
    assert!(rt; breaks_form(b"    1O    3 a\r\n"));
    assert!(rt; breaks_form(b"    1C    0 "));
    assert!(rt; breaks_form(b"    1T    0 "));
    assert!(rt; breaks_form(b"    0R    0 "));
    assert!(rt; breaks_form(b"    2R    0     1R    0 "));
}

#[test]
fn sheets_that_break_the_layout(rt: HostRuntime) {
    assert!(rt; breaks_form(b"00001R    0 "));
    assert!(rt; breaks_form(b"1    R    0 "));
    assert!(rt; breaks_form(b"    1R   01 x"));
    assert!(rt; breaks_form(b"    1R    1 "));
    assert!(rt; breaks_form(b"    1R    0x"));
    assert!(rt; breaks_form(b"    1R    0 x"));
    assert!(rt; breaks_form(b"    1R     "));
}

#[test]
fn handshakes_that_break_their_form(rt: HostRuntime) {
    assert!(rt; breaks_form(b"    1H    5 3 a\r\n"));
    assert!(rt; breaks_form(b"    1H    5 1-a\r\n"));
    assert!(rt; breaks_form(b"    1H    5 1 aa\n"));
    assert!(rt; breaks_form(b"    1H    5 1 \x7f\r\n"));
    assert!(rt; breaks_form(b"    1H    5 1 \t\r\n"));
    assert!(rt; breaks_form(b"    1H    3 1\r\n"));
}

#[test]
fn sheets_in_their_form(rt: HostRuntime) {
    assert!(rt; Sheet::read(b"").is_ok());
    assert!(rt; Sheet::read(b"    1R    0 ").is_ok());
    assert!(rt; Sheet::read(b"    1H    4 0 \r\n").is_ok());
    assert!(rt; Sheet::read(b"    3R    2 \r\n    3H    5 1 a\r\n99999R    1 x").is_ok());
}
