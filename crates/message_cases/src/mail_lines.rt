// MAIL lines, read and written.
use crate::texts::{is_at_front, number, padded};
use message::mail_line::{MailLine, write_mail_line};
use std::test::Fail;

// A line, whether it came covered, and the number of its refusal, if any.
const LINES: [(&'static [u8], bool, Option<u8>); 45] = [
    // RFC 8689 appendix A.1
    (b"MAIL FROM:<roger@example.org> REQUIRETLS\r\n", true, None),
    (
        b"MAIL FROM:<roger@example.org> REQUIRETLS\r\n",
        false,
        Some(5),
    ),
    (b"MAIL FROM:<roger@example.org>\r\n", false, None),
    // each option, in any letter case and order
    (b"MAIL FROM:<>\r\n", false, None),
    (b"mail from:<a@b> requiretls\r\n", true, None),
    (
        b"MAIL FROM:<a@b> Ret=Hdrs Size=1 RequireTls\r\n",
        true,
        None,
    ),
    (b"MAIL FROM:<a@b> RET=FULL\r\n", false, None),
    // a size of 1 to 20 digits
    (b"MAIL FROM:<a@b> SIZE=0\r\n", false, None),
    (
        b"MAIL FROM:<a@b> SIZE=12345678901234567890\r\n",
        false,
        None,
    ),
    (
        b"MAIL FROM:<a@b> SIZE=123456789012345678901\r\n",
        false,
        Some(3),
    ),
    (b"MAIL FROM:<a@b> SIZE=\r\n", false, Some(3)),
    (b"MAIL FROM:<a@b> SIZE=1k\r\n", false, Some(3)),
    (b"MAIL FROM:<a@b> SIZE\r\n", false, Some(3)),
    // other options and values
    (b"MAIL FROM:<a@b> BODY=8BITMIME\r\n", false, Some(3)),
    (b"MAIL FROM:<a@b> REQUIRETLS=\r\n", true, Some(3)),
    (b"MAIL FROM:<a@b> RET=BODY\r\n", false, Some(3)),
    (b"MAIL FROM:<a@b> =\r\n", false, Some(3)),
    // one option twice, whatever its values
    (b"MAIL FROM:<a@b> REQUIRETLS requiretls\r\n", true, Some(4)),
    (
        b"MAIL FROM:<a@b> SIZE=1 RET=FULL SIZE=2\r\n",
        false,
        Some(4),
    ),
    (b"MAIL FROM:<a@b> RET=FULL RET=HDRS\r\n", false, Some(4)),
    // broken forms: the ends
    (b"", false, Some(2)),
    (b"\r\n", false, Some(2)),
    (b"MAIL FROM:<a@b>", false, Some(2)),
    (b"MAIL FROM:<a@b>\n", false, Some(2)),
    (b"MAIL FROM:<a@b>\r\n\r\n", false, Some(2)),
    (b"MAIL  FROM:<a@b>\r\n", false, Some(2)),
    (b"MAIL FROM: <a@b>\r\n", false, Some(2)),
    (b"MAIL TO:<a@b>\r\n", false, Some(2)),
    // the path
    (b"MAIL FROM:<a@b\r\n", false, Some(2)),
    (b"MAIL FROM:<a>\r\n", false, Some(2)),
    (b"MAIL FROM:<a b@c>\r\n", false, Some(2)),
    (b"MAIL FROM:<@x:a@b>\r\n", false, Some(2)),
    (b"MAIL FROM:<a@b>>\r\n", false, Some(2)),
    // the blanks before options, and their bytes
    (b"MAIL FROM:<a@b> \r\n", false, Some(2)),
    (b"MAIL FROM:<a@b>  RET=FULL\r\n", false, Some(2)),
    (b"MAIL FROM:<a@b>RET=FULL\r\n", false, Some(2)),
    (b"MAIL FROM:<a@b>\tRET=FULL\r\n", false, Some(2)),
    (b"MAIL FROM:<a@b> X=\x7f\r\n", false, Some(2)),
    // two faults: the lower number is given, wherever it stands in the line
    (b"MAIL FROM:<a@b> X  RET=FULL\r\n", false, Some(2)),
    (b"MAIL FROM:<a@b> SIZE=1 SIZE=1 \r\n", false, Some(2)),
    (b"MAIL FROM:<a@b> REQUIRETLS \r\n", false, Some(2)),
    (b"MAIL FROM:<a@b> SIZE=1 SIZE=1 X\r\n", false, Some(3)),
    (b"MAIL FROM:<a@b> REQUIRETLS X\r\n", false, Some(3)),
    (b"MAIL FROM:<a@b> REQUIRETLS REQUIRETLS\r\n", false, Some(4)),
    (
        b"MAIL FROM:<a@b> REQUIRETLS RET=FULL RET=FULL\r\n",
        false,
        Some(4),
    ),
];

#[test]
fn the_first_check_that_fails_gives_the_number(rt: HostRuntime) {
    for (line, covered, refusal) in &LINES {
        assert_eq!(rt; number(MailLine::read(*line, *covered)), *refusal);
    }
}

// The front and the back of a line, and the number of its refusal at 523 bytes; at 524 it is 1.
const LONG: [(&'static [u8], &'static [u8], u8); 6] = [
    (b"garbled", b"\r\n", 2),
    (b"MAIL FROM:<a@b> X=", b" \r\n", 2),
    (b"MAIL FROM:<a@b> X=", b"", 2),
    (b"MAIL FROM:<a@b> X=", b"\r\n", 3),
    (b"MAIL FROM:<a@b> X=", b" SIZE=1 SIZE=1\r\n", 3),
    (b"MAIL FROM:<a@b> X=", b" REQUIRETLS\r\n", 3),
];

#[test]
fn a_line_has_at_most_523_bytes(rt: HostRuntime) -> Result<(), Fail> {
    for (front, back, refusal) in &LONG {
        let line = padded(rt.alloc(), *front, 523, *back)?;
        assert_eq!(rt; line.len(), 523);
        assert_eq!(rt; number(MailLine::read(&line, false)), Some(*refusal));
        let longer = padded(rt.alloc(), *front, 524, *back)?;
        assert_eq!(rt; longer.len(), 524);
        assert_eq!(rt; number(MailLine::read(&longer, false)), Some(1));
    }
    Ok(())
}

// A path, whether TLS is required, and the line that says so.
const WRITTEN: [(&'static [u8], bool, &'static [u8]); 4] = [
    (
        b"roger@example.org",
        true,
        b"MAIL FROM:<roger@example.org> REQUIRETLS\r\n",
    ),
    (
        b"roger@example.org",
        false,
        b"MAIL FROM:<roger@example.org>\r\n",
    ),
    (b"", true, b"MAIL FROM:<> REQUIRETLS\r\n"),
    (b"", false, b"MAIL FROM:<>\r\n"),
];

#[test]
fn a_written_line_reads_back_and_leaves_what_is_behind_it(rt: HostRuntime) -> Result<(), Fail> {
    for (path, require_tls, line) in &WRITTEN {
        let mut buffer = [7u8; 600];
        assert_eq!(rt;
            write_mail_line(*path, *require_tls, &mut buffer),
            Ok(line.len())
        );
        assert!(rt; is_at_front(*line, &buffer));
        let mail = MailLine::read(*line, true)?;
        assert_eq!(rt; mail.path(), *path);
        assert_eq!(rt; mail.place(), 11);
        assert_eq!(rt; mail.require_tls(), *require_tls);
    }
    Ok(())
}

// The number by which writing into a buffer of 523 bytes, or one byte less, is refused, if it is, and whether a refusal changed the buffer.
fn write_refusal(path: &[u8], short: bool) -> (Option<u8>, bool) {
    let mut buffer = [7u8; 523];
    let (front, _) = buffer.split_at_mut(if short { 522 } else { 523 });
    let answer = write_mail_line(path, true, front);
    (number(answer), answer.is_err() && buffer != [7u8; 523])
}

#[test]
fn writing_is_refused_for_the_path_before_the_buffer(rt: HostRuntime) -> Result<(), Fail> {
    for (path, long, short) in [
        (b"a@b" as &[u8], None, Some(10u8)),
        (b"", None, Some(10)),
        (b"a", Some(8), Some(8)),
        (b"a@b\r\n", Some(8), Some(8)),
        (b"a@b>", Some(8), Some(8)),
    ] {
        assert_eq!(rt; write_refusal(path, false), (long, false));
        assert_eq!(rt; write_refusal(path, true), (short, false));
    }
    let local = padded(rt.alloc(), b"", 64 + 10, b"@b.example")?;
    assert_eq!(rt; write_refusal(&local, false), (None, false));
    let longer = padded(rt.alloc(), b"", 65 + 10, b"@b.example")?;
    assert_eq!(rt; write_refusal(&longer, false), (Some(8), false));
    Ok(())
}
