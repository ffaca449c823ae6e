// Content: the borders of its form, and dot-stuffing.
use crate::texts::{is_at_front, number, padded, repeated};
use message::content::check_content;
use message::stuffing::{stuff, stuffed_len};
use std::test::Fail;

// A text, and whether it has the form of content.
const FORMS: [(&'static [u8], bool); 16] = [
    (b"", true),
    (b"\r\n", true),
    (b"\r\n\r\n", true),
    (b"Subject: t\r\n\r\nhi\r\n", true),
    (b"\x01\x7f\t \r\n", true),
    (b"hi", false),
    (b"a\r\nhi", false),
    (b"hi\r", false),
    (b"hi\n", false),
    (b"\r", false),
    (b"\n", false),
    (b"\n\r\n", false),
    (b"a\rb\r\n", false),
    (b"a\r\r\n", false),
    (b"a\x00b\r\n", false),
    (b"a\x80b\r\n", false),
];

#[test]
fn content_is_lines_of_bytes_1_to_127(rt: HostRuntime) {
    for (text, good) in &FORMS {
        assert_eq!(rt; check_content(*text).is_ok(), *good);
    }
}

#[test]
fn a_line_has_at_most_998_bytes_and_content_32768(rt: HostRuntime) -> Result<(), Fail> {
    for (n, good) in [(998usize, true), (999, false)] {
        let line = padded(rt.alloc(), b"", n.saturating_add(2), b"\r\n")?;
        assert_eq!(rt; check_content(&line).is_ok(), good);
        let second = padded(rt.alloc(), b"\r\n", n.saturating_add(4), b"\r\n")?;
        assert_eq!(rt; check_content(&second).is_ok(), good);
    }
    for (last, good) in [(b"xxxxxx\r\n" as &[u8], true), (b"xxxxxxx\r\n", false)] {
        let content = repeated(rt.alloc(), b"xxxxxxxx\r\n", 3276, last)?;
        assert_eq!(rt; content.len(), last.len().saturating_add(32_760));
        assert_eq!(rt; check_content(&content).is_ok(), good);
    }
    Ok(())
}

// Content, and how it is stuffed.
const STUFFED: [(&'static [u8], &'static [u8]); 7] = [
    (b"", b".\r\n"),
    (b"\r\n", b"\r\n.\r\n"),
    (b".\r\n", b"..\r\n.\r\n"),
    (b"..\r\n", b"...\r\n.\r\n"),
    (
        b"Subject: t\r\n\r\nhi\r\n",
        b"Subject: t\r\n\r\nhi\r\n.\r\n",
    ),
    (b".a\r\nb.\r\n .\r\n", b"..a\r\nb.\r\n .\r\n.\r\n"),
    (b"a\r\n.\r\n\r\n.b.\r\n", b"a\r\n..\r\n\r\n..b.\r\n.\r\n"),
];

#[test]
fn a_dot_at_a_line_start_gets_one_more(rt: HostRuntime) {
    for (content, stuffed) in &STUFFED {
        let mut buffer = [7u8; 32];
        assert_eq!(rt; stuffed_len(*content), stuffed.len());
        assert_eq!(rt; stuff(*content, &mut buffer), Ok(stuffed.len()));
        assert!(rt; is_at_front(*stuffed, &buffer));
    }
}

// The number by which stuffing into a buffer of so many bytes is refused, if it is.
fn stuff_refusal(
    heap: std::alloc::Global,
    content: &[u8],
    room: usize,
) -> Result<Option<u8>, std::alloc::AllocError> {
    let mut buffer = Vec::from_elem(heap, 7u8, room)?;
    Ok(number(stuff(content, &mut buffer)))
}

// Lines of a single dot, as many as there is room for, and an empty line.
#[test]
fn the_longest_result_has_43693_bytes(rt: HostRuntime) -> Result<(), Fail> {
    let content = repeated(rt.alloc(), b".\r\n", 10_922, b"\r\n")?;
    assert_eq!(rt; content.len(), 32_768);
    assert_eq!(rt; stuffed_len(&content), 43_693);
    assert_eq!(rt; stuff_refusal(rt.alloc(), &content, 43_693)?, None);
    assert_eq!(rt; stuff_refusal(rt.alloc(), &content, 43_692)?, Some(10));
    // a broken form comes before a short buffer
    let longer = repeated(rt.alloc(), b".\r\n", 10_923, b"")?;
    assert_eq!(rt; stuff_refusal(rt.alloc(), &longer, 43_692)?, Some(9));
    assert_eq!(rt; stuff_refusal(rt.alloc(), b"hi", 0)?, Some(9));
    Ok(())
}
