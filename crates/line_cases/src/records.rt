use line::record::head_of;
use line::{Entry, Letter};
use std::test::Fail;

#[test]
fn heads(rt: HostRuntime) {
    assert!(rt; &head_of(1, Letter::Opened, 13) == b"    1O   13 ");
    assert!(rt; &head_of(71428, Letter::Covered, 43693) == b"71428T43693 ");
    assert!(rt; &head_of(10, Letter::Clear, 0) == b"   10C    0 ");
}

#[test]
fn a_record_is_read(rt: HostRuntime) -> Result<(), Fail> {
    let Some(entry) = Entry::read(b"   12T    6 QUIT\r\n    1") else {
        return Err(Fail::new("no record"));
    };
    assert_eq!(rt; entry.visit, 12);
    assert_eq!(rt; entry.letter, Letter::Covered);
    assert!(rt; entry.bytes == b"QUIT\r\n".as_slice());
    assert_eq!(rt; entry.size(), 18);
    Ok(())
}

#[test]
fn no_record_is_read(rt: HostRuntime) {
    assert!(rt; Entry::read(b"   12T    6 QUIT\r").is_none());
    assert!(rt; Entry::read(b"   12X    6 QUIT\r\n").is_none());
    assert!(rt; Entry::read(b"  012T    6 QUIT\r\n").is_none());
    assert!(rt; Entry::read(b"").is_none());
}
