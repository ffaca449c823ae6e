use line::{HouseHost, HouseLine, Line, Trust};
use smtp::Refusal;
use std::test::Fail;

// A name, a trust and a recipients' code, and the refusal: the name comes first, then trust and code.
const REFUSED: [(&'static [u8], u8, u16, Refusal); 7] = [
    (b"", 0, 250, Refusal::BadHost),
    (b"a..b", 3, 251, Refusal::BadHost),
    (b"a", 3, 250, Refusal::BadHouseHost),
    (b"a", 255, 250, Refusal::BadHouseHost),
    (b"a", 2, 251, Refusal::BadHouseHost),
    (b"a", 2, 0, Refusal::BadHouseHost),
    (b"a", 2, 354, Refusal::BadHouseHost),
];

#[test]
fn hosts_that_are_refused(rt: HostRuntime) {
    for (name, trust, code, refusal) in &REFUSED {
        let host = HouseHost::new(*name, true, true, *trust, *code);
        assert_eq!(rt; host.err(), Some(*refusal));
    }
}

#[test]
fn hosts_that_are_not(rt: HostRuntime) {
    assert!(rt; HouseHost::new(b"a", false, false, 0, 250).is_ok());
    assert!(rt; HouseHost::new(b"a", false, true, 1, 450).is_ok());
    assert!(rt; HouseHost::new(b"a", true, false, 2, 550).is_ok());
}

#[test]
fn a_closed_line(rt: HostRuntime) -> Result<(), Fail> {
    let mut out = [0u8; 100];
    let mut small = [0u8; 4095];
    let mut reply = [0u8; 4096];
    let host = HouseHost::new(b"a", true, true, 1, 250)?;
    let mut line = HouseLine::new(host, &mut out);
    assert_eq!(rt; line.put(b"x"), Err(Refusal::WrongStanding));
    assert_eq!(rt; line.take(&mut small), Err(Refusal::ShortBuffer));
    assert_eq!(rt; line.take(&mut reply), Err(Refusal::WrongStanding));
    assert_eq!(rt; line.cover(&mut small), Err(Refusal::ShortBuffer));
    assert_eq!(rt; line.cover(&mut reply), Err(Refusal::WrongStanding));
    assert_eq!(rt; line.close(), Err(Refusal::WrongStanding));
    assert_eq!(rt; line.open(b""), Err(Refusal::BadHost));
    assert!(rt; line.transcript().is_empty());
    Ok(())
}

#[test]
fn an_open_line(rt: HostRuntime) -> Result<(), Fail> {
    let mut out = [0u8; 37];
    let mut reply = [0u8; 4096];
    let host = HouseHost::new(b"a", true, true, 0, 250)?;
    let mut line = HouseLine::new(host, &mut out);
    assert!(rt; line.open(b"a").is_ok());
    assert_eq!(rt; line.open(b"a b"), Err(Refusal::BadHost));
    assert_eq!(rt; line.open(b"b"), Err(Refusal::WrongStanding));
    assert!(rt; line.put(b"STARTTLS\r\n").is_ok());
    assert_eq!(rt; line.put(b""), Err(Refusal::NoRoom));
    assert_eq!(rt; line.cover(&mut reply), Ok(Some((Trust::None, 1))));
    assert_eq!(rt; line.cover(&mut reply), Err(Refusal::WrongStanding));
    assert_eq!(rt; line.take(&mut reply), Ok(None));
    assert_eq!(rt; line.take(&mut reply), Err(Refusal::WrongStanding));
    assert_eq!(rt; line.visit(), 1);
    Ok(())
}
