// Host names, patterns, names texts and addresses.
use smtp::names::{covers, is_address, is_host_name, names_cover};
use std::test::Fail;

const HOST_NAMES: [(&'static [u8], bool); 12] = [
    (b"a", true),
    (b"mx1.example", true),
    (b"-a-.b", true),
    (b"123.45", true),
    (b"", false),
    (b".", false),
    (b"a.", false),
    (b".a", false),
    (b"a..b", false),
    (b"a_b", false),
    (b"a b", false),
    (b"*.example", false),
];

#[test]
fn host_names(rt: HostRuntime) {
    for (name, good) in &HOST_NAMES {
        assert_eq!(rt; is_host_name(*name), *good);
    }
}

// `n` bytes of letters with a dot behind each `label` of them. By index: the place of a byte says which it is.
fn long_name(
    heap: std::alloc::Global,
    n: usize,
    label: usize,
) -> Result<Vec<u8>, std::alloc::AllocError> {
    let mut name = Vec::new(heap);
    for i in 0..n {
        let is_dot = i % label.saturating_add(1) == label;
        name.push(if is_dot { b'.' } else { b'x' })?;
    }
    Ok(name)
}

#[test]
fn a_label_has_at_most_63_bytes_and_a_name_253(rt: HostRuntime) -> Result<(), Fail> {
    for (n, label, good) in [
        (63usize, 63usize, true),
        (64, 64, false),
        (253, 63, true),
        (254, 63, false),
        (127, 63, true),
    ] {
        let name = long_name(rt.alloc(), n, label)?;
        assert_eq!(rt; is_host_name(&name), good);
    }
    Ok(())
}

// A pattern, a name, and whether the one covers the other.
const PATTERNS: [(&'static [u8], &'static [u8], bool); 14] = [
    (b"*.d.example", b"m.d.example", true),
    (b"*.d.example", b"d.example", false),
    (b"*.d.example", b"a.m.d.example", false),
    (b"mx1.example", b"MX1.Example", true),
    (b"*.D.EXAMPLE", b"m.d.example", true),
    (b"*.d.example", b"*.d.example", false),
    (b"*.d.example", b"md.example", false),
    (b"m.d.example", b"x.d.example", false),
    (b"*", b"example", false),
    (b"*.", b"example", false),
    (b"*.example", b"a.example", true),
    (b"m*.d.example", b"m1.d.example", false),
    (b"*.*.example", b"a.b.example", false),
    (b"", b"", false),
];

#[test]
fn patterns_cover_one_label(rt: HostRuntime) {
    for (pattern, name, covered) in &PATTERNS {
        assert_eq!(rt; covers(*pattern, *name), *covered);
        assert_eq!(rt; names_cover(*pattern, *name), *covered);
    }
}

// A names text, a host, and whether a name or pattern of the text covers it.
const NAMES_TEXTS: [(&'static [u8], &'static [u8], bool); 9] = [
    (b"a.example b.example", b"b.example", true),
    (b"a.example b.example", b"A.EXAMPLE", true),
    (b"a.example *.d.example c", b"m.d.example", true),
    (b"a.example *.d.example", b"d.example", false),
    (b"a.example  b.example", b"b.example", true),
    (b" a.example", b"a.example", true),
    (b"a.example b.exam", b"b.example", false),
    (b"a.example,b.example", b"b.example", false),
    (b"", b"a.example", false),
];

#[test]
fn names_texts_are_parted_by_single_blanks(rt: HostRuntime) {
    for (text, host, covered) in &NAMES_TEXTS {
        assert_eq!(rt; names_cover(*text, *host), *covered);
    }
}

const ADDRESSES: [(&'static [u8], bool); 13] = [
    (b"a@b.example", true),
    (b"first.last+tag@d.example", true),
    (b"!#$%&'*+-/=?^_`{|}~@b.example", true),
    (b"a@b", true),
    (b"", false),
    (b"a", false),
    (b"@b.example", false),
    (b"a@", false),
    (b".a@b.example", false),
    (b"a.@b.example", false),
    (b"a..b@c.example", false),
    (b"a@b@c.example", false),
    (b"\"a b\"@c.example", false),
];

#[test]
fn addresses(rt: HostRuntime) {
    for (address, good) in &ADDRESSES {
        assert_eq!(rt; is_address(*address), *good);
    }
}

#[test]
fn a_local_part_has_at_most_64_bytes(rt: HostRuntime) -> Result<(), Fail> {
    for (n, good) in [(64usize, true), (65, false)] {
        let mut address = long_name(rt.alloc(), n, 100)?;
        address.extend_from_slice(b"@b.example")?;
        assert_eq!(rt; is_address(&address), good);
    }
    Ok(())
}
