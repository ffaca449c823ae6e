// Tags, by the option and by TLS-Required fields.
use message::tag::Tag;
use smtp::Refusal;

const NO: Result<Tag, Refusal> = Ok(Tag::No);

const NONE: Result<Tag, Refusal> = Ok(Tag::None);

const TWICE: Result<Tag, Refusal> = Err(Refusal::RepeatedTlsRequired);

const BROKEN: Result<Tag, Refusal> = Err(Refusal::BadContent);

// A header section, and the tag or refusal without the option.
const SECTIONS: [(&'static [u8], Result<Tag, Refusal>); 30] = [
    // RFC 8689 appendix A.2
    (
        b"From: Roger Reporter <roger@example.org>\r\nTo: Andy Admin <admin@example.com>\r\nSubject: Certificate problem?\r\nTLS-Required: No\r\nDate: Fri, 18 Jan 2019 10:26:55 -0800\r\nMessage-ID: <5c421a6f79c0e_d153ff8286d45c468473@mail.example.org>\r\n\r\nAndy, there seems to be a problem with the TLS certificate\r\non your mail server. Are you aware of this?\r\n\r\nRoger\r\n",
        NO,
    ),
    // any letter case, and any white space before the value
    (b"TLS-Required:No\r\n", NO),
    (b"tls-required: NO\r\n", NO),
    (b"TLS-Required: \t no\r\n", NO),
    // folded lines
    (b"TLS-Required:\r\n No\r\n", NO),
    (b"TLS-Required: \r\n\tNo\r\nSubject: t\r\n", NO),
    (b"TLS-Required:\r\n \r\n\t\r\n No\r\n", NO),
    (b"Subject: t\r\n u\r\nTLS-Required: No\r\n", NO),
    // other values
    (b"TLS-Required: Yes\r\n", NONE),
    (b"TLS-Required:\r\n", NONE),
    (b"TLS-Required: No \r\n", NONE),
    (b"TLS-Required: No\r\n \r\n", NONE),
    (b"TLS-Required: N\r\n o\r\n", NONE),
    (b"TLS-Required: No (at all)\r\n", NONE),
    // no such field
    (b"", NONE),
    (b"\r\n", NONE),
    (b"TLS-Required : No\r\n", NONE),
    (b"X-TLS-Required: No\r\n", NONE),
    (b" TLS-Required: No\r\n", NONE),
    (b"Subject: t\r\n TLS-Required: No\r\n", NONE),
    (b"Subject: t\r\n\r\nTLS-Required: No\r\n", NONE),
    // two or more, whatever they say; one behind the header does not count
    (b"TLS-Required: No\r\nTLS-Required: No\r\n", TWICE),
    (
        b"TLS-Required: No\r\nSubject: t\r\ntls-required:\r\n Yes\r\n",
        TWICE,
    ),
    (
        b"TLS-Required:\r\nTLS-Required:\r\nTLS-Required:\r\n",
        TWICE,
    ),
    (b"TLS-Required: No\r\n\r\nTLS-Required: No\r\n", NO),
    // a broken form, in the header and behind it, with one field or two
    (b"TLS-Required: No", BROKEN),
    (b"TLS-Required: No\n", BROKEN),
    (b"TLS-Required: No\r\nTLS-Required: No\r\n\n", BROKEN),
    (b"TLS-Required: No\r\n\r\na\x00b\r\n", BROKEN),
    (b"TLS-Required: No\r\n\r\na\rb\r\n", BROKEN),
];

// With the option the fields are not looked at, but the form is.
fn with_option(answer: Result<Tag, Refusal>) -> Result<Tag, Refusal> {
    if answer == BROKEN {
        BROKEN
    } else {
        Ok(Tag::Required)
    }
}

#[test]
fn sections_give_their_tags_and_the_option_goes_first(rt: HostRuntime) {
    for (section, answer) in &SECTIONS {
        assert_eq!(rt; Tag::read(false, *section), *answer);
        assert_eq!(rt; Tag::read(true, *section), with_option(*answer));
    }
}
