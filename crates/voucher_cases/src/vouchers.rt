// The vouchers other than a policy, each asked for names.
use crate::one_name::OneName;
use voucher::{Direct, Either, SignedList, Voucher};

#[test]
fn signed_lists(rt: HostRuntime) {
    let signed = SignedList::new(true);
    assert!(rt;
        signed.vouches(b"mx1.example.com"),
        "a signed list holds a host name"
    );
    assert!(rt;
        signed.vouches(b"MX1"),
        "a signed list holds each host name"
    );
    assert!(rt; !signed.vouches(b""), "the empty name is no host name");
    assert!(rt;
        !signed.vouches(b"mx1..example.com"),
        "nor is one with an empty label"
    );
    assert!(rt; !signed.vouches(b"*.example.com"), "nor is a pattern");
    assert!(rt;
        !signed.vouches(&[b'a'; 64]),
        "nor is one with a label of 64"
    );
    assert!(rt;
        !SignedList::new(false).vouches(b"mx1.example.com"),
        "a list without the mark holds none"
    );
}

#[test]
fn direct(rt: HostRuntime) {
    let domain = Direct::new(b"Example.COM", false);
    assert!(rt;
        domain.vouches(b"example.com"),
        "a domain without MX holds itself"
    );
    assert!(rt; domain.vouches(b"EXAMPLE.com"), "in any letter case");
    assert!(rt; !domain.vouches(b"mx.example.com"), "no name below it");
    assert!(rt; !domain.vouches(b"com"), "no name above it");
    assert!(rt;
        !Direct::new(b"example.com", true).vouches(b"example.com"),
        "with an MX it holds none"
    );
    assert!(rt;
        !Direct::new(b"example..com", false).vouches(b"example..com"),
        "an ill-formed domain holds none"
    );
    assert!(rt;
        !Direct::new(b"", false).vouches(b""),
        "nor does an empty one"
    );
}

#[test]
fn either_of_two(rt: HostRuntime) {
    let first = OneName::new(b"a.example");
    let second = OneName::new(b"b.example");
    let lent = Either::new(&first, &second);
    assert!(rt; lent.vouches(b"A.example"), "the first's name");
    assert!(rt; lent.vouches(b"b.EXAMPLE"), "the second's name");
    assert!(rt; !lent.vouches(b"c.example"), "neither's name");
    let three = Either::new(
        Either::new(first, SignedList::new(false)),
        Direct::new(b"c.example", false),
    );
    assert!(rt; three.vouches(b"a.example"), "the first of three");
    assert!(rt; three.vouches(b"c.example"), "the last of three");
    assert!(rt; !three.vouches(b"b.example"), "none of three");
}
