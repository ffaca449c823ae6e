// Policy texts: those that RFC 8461 prints, and a table for each rule of the form.
use std::process::Abort;
use std::test::Fail;
use voucher::{Mode, Policy, Voucher};

// Each of the texts is a policy in that mode, or refused by that number.
fn are_read_as(rt: &impl Abort, texts: &[&[u8]], answer: Result<Mode, u8>) {
    for (i, text) in texts.iter().enumerate() {
        let read = Policy::read(text)
            .map(|policy| policy.mode())
            .map_err(|refusal| refusal.number());
        assert_eq!(rt; (i, read), (i, answer));
    }
}

// Whether a policy of that text holds each of the names, or none of them.
fn vouches_for(rt: &impl Abort, text: &[u8], names: &[&[u8]], answer: bool) -> Result<(), Fail> {
    let Ok(policy) = Policy::read(text) else {
        return Err(Fail::new("a policy was refused"));
    };
    for (i, name) in names.iter().enumerate() {
        assert_eq!(rt; (i, policy.vouches(name)), (i, answer));
    }
    Ok(())
}

// RFC 8461 section 3.2
const EXAMPLE: &[u8] =
    b"version: STSv1\nmode: enforce\nmx: mail.example.com\nmx: *.example.net\nmx: backupmx.example.com\nmax_age: 604800\n";

// RFC 8461 appendix A
const APPENDIX: &[u8] =
    b"version: STSv1\r\nmode: testing\r\nmx: mx1.example.com\r\nmx: mx2.example.com\r\nmx: mx.backup-example.com\r\nmax_age: 1296000\r\n";

#[test]
fn printed_policies(rt: HostRuntime) -> Result<(), Fail> {
    are_read_as(&rt, &[APPENDIX], Ok(Mode::Testing));
    are_read_as(&rt, &[EXAMPLE], Ok(Mode::Enforce));
    vouches_for(
        &rt,
        EXAMPLE,
        &[
            b"mail.example.com",
            b"MAIL.Example.com",
            b"backupmx.example.com",
            b"mx1.example.net",
        ],
        true,
    )?;
    vouches_for(
        &rt,
        EXAMPLE,
        &[
            b"example.net",
            b"a.mx1.example.net",
            b"example.com",
            b"*.example.net",
        ],
        false,
    )?;
    vouches_for(&rt, APPENDIX, &[b"mx1.example.com"], false)
}

// Mode none, as section 8.3 has it where a domain gives MTA-STS up.
#[test]
fn modes(rt: HostRuntime) -> Result<(), Fail> {
    are_read_as(
        &rt,
        &[
            b"version: STSv1\nmode: none\nmax_age: 86400\n",
            b"version: STSv1\nmode: none\nmx: a.example\nmax_age: 86400\n",
        ],
        Ok(Mode::None),
    );
    are_read_as(
        &rt,
        &[b"version: STSv1\nmode: testing\nmx: a.example\nmax_age: 86400\n"],
        Ok(Mode::Testing),
    );
    are_read_as(
        &rt,
        &[b"version: STSv1\nmode: enforce\nmx: a.example\nmax_age: 86400\n"],
        Ok(Mode::Enforce),
    );
    are_read_as(
        &rt,
        &[
            b"version: STSv1\nmode: enforcing\nmx: a.example\nmax_age: 86400\n",
            b"version: STSv1\nmode:\nmx: a.example\nmax_age: 86400\n",
        ],
        Err(13),
    );
    vouches_for(
        &rt,
        b"version: STSv1\nmode: enforce\nmx: a.example\nmax_age: 86400\n",
        &[b"a.example"],
        true,
    )?;
    vouches_for(
        &rt,
        b"version: STSv1\nmode: testing\nmx: a.example\nmax_age: 86400\n",
        &[b"a.example"],
        false,
    )?;
    vouches_for(
        &rt,
        b"version: STSv1\nmode: none\nmx: a.example\nmax_age: 86400\n",
        &[b"a.example"],
        false,
    )
}

#[test]
fn line_ends(rt: HostRuntime) {
    are_read_as(
        &rt,
        &[
            b"version: STSv1\nmode: none\nmax_age: 1",
            b"version: STSv1\r\nmode: none\r\nmax_age: 1",
            b"version: STSv1\r\nmode: none\nmax_age: 1\r\n",
            b"version:STSv1\nmode:\t none \t\nmax_age:  1\t",
        ],
        Ok(Mode::None),
    );
    are_read_as(
        &rt,
        &[
            // a CR that no LF follows
            b"version: STSv1\nmode: none\nmax_age: 1\r",
            b"version: STSv1\rmode: none\rmax_age: 1\r",
            b"version: STSv1\r\r\nmode: none\nmax_age: 1\n",
            b"version: STSv1\nmode: none\nmax_age: 1\nx: a\rb\n",
            // empty lines, and blanks where none may stand
            b"",
            b"\n",
            b"\nversion: STSv1\nmode: none\nmax_age: 1\n",
            b"version: STSv1\n\nmode: none\nmax_age: 1\n",
            b"version: STSv1\nmode: none\nmax_age: 1\n\n",
            b"version: STSv1\r\nmode: none\r\nmax_age: 1\r\n\r\n",
            b"version: STSv1\nmode: none\nmax_age: 1\n ",
            b" version: STSv1\nmode: none\nmax_age: 1\n",
            b"version : STSv1\nmode: none\nmax_age: 1\n",
        ],
        Err(13),
    );
}

#[test]
fn keys(rt: HostRuntime) {
    are_read_as(
        &rt,
        &[
            // of a key that stands twice, the first counts
            b"version: STSv1\nversion: STSv2\nmode: none\nmode: enforce\nmax_age: 1\nmax_age: x\n",
            // other keys are passed over
            b"version: STSv1\nmode: none\nmax_age: 1\n9.a-b_c: what: ever \xc3\xa9\nx:\n",
            b"version: STSv1\nmode: none\nmax_age: 1\nabcdefghijklmnopqrstuvwxyz012345: x\n",
        ],
        Ok(Mode::None),
    );
    are_read_as(
        &rt,
        &[
            // in any order
            b"max_age: 1\nmx: a.example\nmode: enforce\nversion: STSv1\n",
        ],
        Ok(Mode::Enforce),
    );
    are_read_as(
        &rt,
        &[
            // each that is needed
            b"mode: enforce\nmx: a.example\nmax_age: 1\n",
            b"version: STSv1\nmx: a.example\nmax_age: 1\n",
            b"version: STSv1\nmode: enforce\nmx: a.example\n",
            b"version: STSv1\nmode: enforce\nmax_age: 1\n",
            b"version: STSv1\nmode: testing\nmax_age: 1\n",
            // letter case counts
            b"VERSION: STSv1\nmode: none\nmax_age: 1\n",
            b"version: STSV1\nmode: none\nmax_age: 1\n",
            b"version: STSv2\nmode: none\nmax_age: 1\n",
            b"version: STSv1\nMode: none\nmax_age: 1\n",
            b"version: STSv1\nmode: NONE\nmax_age: 1\n",
            b"version: STSv1\nmode: none\nMax_Age: 1\n",
            b"version: STSv1\nmode: enforce\nMX: a.example\nmax_age: 1\n",
            b"version: STSv2\nversion: STSv1\nmode: none\nmax_age: 1\n",
            b"version: STSv1\nmode: other\nmode: none\nmax_age: 1\n",
            b"version: STSv1\nmode: none\nmax_age: x\nmax_age: 1\n",
            b"version: STSv1\nmode: none\nmax_age: 1\nabcdefghijklmnopqrstuvwxyz0123456: x\n",
            b"version: STSv1\nmode: none\nmax_age: 1\n-a: x\n",
            b"version: STSv1\nmode: none\nmax_age: 1\na*: x\n",
            b"version: STSv1\nmode: none\nmax_age: 1\n: x\n",
            b"version: STSv1\nmode: none\nmax_age: 1\nword\n",
            b"version: STSv1\nmode: none\nmax_age: 1\na: \x00\n",
            b"version: STSv1\nmode: none\nmax_age: 1\na: \x7f\n",
        ],
        Err(13),
    );
}

#[test]
fn ages(rt: HostRuntime) {
    are_read_as(
        &rt,
        &[
            b"version: STSv1\nmode: none\nmax_age: 0",
            b"version: STSv1\nmode: none\nmax_age: 31557600",
            b"version: STSv1\nmode: none\nmax_age: 0031557600",
        ],
        Ok(Mode::None),
    );
    are_read_as(
        &rt,
        &[
            b"version: STSv1\nmode: none\nmax_age: 31557601",
            b"version: STSv1\nmode: none\nmax_age: 00000000001",
            b"version: STSv1\nmode: none\nmax_age: 9999999999",
            b"version: STSv1\nmode: none\nmax_age:",
            b"version: STSv1\nmode: none\nmax_age: -1",
            b"version: STSv1\nmode: none\nmax_age: +1",
            b"version: STSv1\nmode: none\nmax_age: 1 2",
            b"version: STSv1\nmode: none\nmax_age: 0x1",
        ],
        Err(13),
    );
}

#[test]
fn patterns(rt: HostRuntime) -> Result<(), Fail> {
    let text = b"version: STSv1\nmode: enforce\nmax_age: 1\nmx: *.D.example\nmx:\tm\t\n";
    are_read_as(
        &rt,
        &[
            b"version: STSv1\nmode: enforce\nmax_age: 1\nmx:\n",
            b"version: STSv1\nmode: enforce\nmax_age: 1\nmx: *\n",
            b"version: STSv1\nmode: enforce\nmax_age: 1\nmx: *.\n",
            b"version: STSv1\nmode: enforce\nmax_age: 1\nmx: *.*.example\n",
            b"version: STSv1\nmode: enforce\nmax_age: 1\nmx: a.*.example\n",
            b"version: STSv1\nmode: enforce\nmax_age: 1\nmx: a.example.\n",
            b"version: STSv1\nmode: enforce\nmax_age: 1\nmx: a.example b.example\n",
            b"version: STSv1\nmode: enforce\nmax_age: 1\nmx: a.example\nmx: a_b\n",
            b"version: STSv1\nmode: none\nmax_age: 1\nmx: a_b\n",
        ],
        Err(13),
    );
    vouches_for(&rt, text, &[b"m.d.example", b"M.D.EXAMPLE", b"m"], true)?;
    vouches_for(
        &rt,
        text,
        &[
            b"d.example",
            b"a.m.d.example",
            b".d.example",
            b"*.d.example",
            b"",
        ],
        false,
    )
}

// A text of 8,192 bytes, the last line long, and one byte more.
#[test]
fn longest(rt: HostRuntime) {
    let front = b"version: STSv1\nmode: none\nmax_age: 1\nx: ";
    let mut text = [b'a'; 8193];
    text[..40].copy_from_slice(front);
    are_read_as(&rt, &[&text[..8192]], Ok(Mode::None));
    are_read_as(&rt, &[&text], Err(13));
}
