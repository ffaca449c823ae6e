// Replies: those that RFC 3207 and RFC 8689 print, and the borders of the grammar.
use smtp::{Reply, ReplyLine};
use std::test::Fail;

// A reply, and whether it lists STARTTLS and REQUIRETLS.
struct Listing {
    reply: &'static [u8],
    starttls: bool,
    requiretls: bool,
}

const LISTINGS: [Listing; 10] = [
    // RFC 3207 section 5, before and after the handshake
    Listing {
        reply: b"250-mail.imc.org offers a warm hug of welcome\r\n250-8BITMIME\r\n250-STARTTLS\r\n250 DSN\r\n",
        starttls: true,
        requiretls: false,
    },
    Listing {
        reply: b"250-mail.imc.org touches your hand gently for a moment\r\n250-8BITMIME\r\n250 DSN\r\n",
        starttls: false,
        requiretls: false,
    },
    // RFC 8689 appendix A.1, before and after the handshake
    Listing {
        reply: b"250-mail.example.net Hello example.org [192.0.2.1]\r\n250-SIZE 52428800\r\n250-8BITMIME\r\n250-PIPELINING\r\n250-STARTTLS\r\n250 HELP\r\n",
        starttls: true,
        requiretls: false,
    },
    Listing {
        reply: b"250-mail.example.net Hello example.org [192.0.2.1]\r\n250-SIZE 52428800\r\n250-8BITMIME\r\n250-PIPELINING\r\n250-REQUIRETLS\r\n250 HELP\r\n",
        starttls: false,
        requiretls: true,
    },
    // the last line is an entry of the list
    Listing {
        reply: b"250-mx.example\r\n250 REQUIRETLS\r\n",
        starttls: false,
        requiretls: true,
    },
    // the first line is none
    Listing {
        reply: b"250-REQUIRETLS\r\n250 STARTTLS\r\n",
        starttls: true,
        requiretls: false,
    },
    // any letter case, and nothing else on the line
    Listing {
        reply: b"250-a\r\n250-StartTLS\r\n250 RequireTLS 1\r\n",
        starttls: true,
        requiretls: false,
    },
    // a tab ends no keyword
    Listing {
        reply: b"250-a\r\n250-STARTTLS\t\r\n250 REQUIRETLS\tx\r\n",
        starttls: false,
        requiretls: false,
    },
    // a blank behind the keyword
    Listing {
        reply: b"250-a\r\n250-STARTTLS \r\n250  REQUIRETLS\r\n",
        starttls: false,
        requiretls: false,
    },
    // the last line, its digits alone
    Listing {
        reply: b"250-a\r\n250-STARTTLS\r\n250\r\n",
        starttls: true,
        requiretls: false,
    },
];

#[test]
fn printed_replies_list_what_they_say(rt: HostRuntime) -> Result<(), Fail> {
    for row in &LISTINGS {
        let reply = Reply::read(row.reply).ok_or("malformed")?;
        assert_eq!(rt; reply.code(), 250);
        assert_eq!(rt; reply.lists(b"STARTTLS"), row.starttls);
        assert_eq!(rt; reply.lists(b"requiretls"), row.requiretls);
    }
    Ok(())
}

const MALFORMED: [&'static [u8]; 16] = [
    b"",
    b"250",
    b"250 ok",
    b"250 ok\n",
    b"250 ok\r\n\r\n",
    b"250 ok\r\nx",
    b"250 a\r\n250 b\r\n",
    b"250-a\r\n",
    b"250-a\r\n251 b\r\n",
    b"250\r\n250 b\r\n",
    b"150 a\r\n",
    b"260 a\r\n",
    b"25x a\r\n",
    b"250_a\r\n",
    b"250 a\x7f\r\n",
    b"250 a\rb\r\n",
];

#[test]
fn broken_replies_are_malformed(rt: HostRuntime) {
    for bytes in &MALFORMED {
        assert!(rt; Reply::read(*bytes).is_none());
    }
}

// A reply of one line of `n` bytes, its CRLF counted.
fn line_of(heap: std::alloc::Global, n: usize) -> Result<Vec<u8>, std::alloc::AllocError> {
    let mut reply = Vec::new(heap);
    reply.extend_from_slice(b"220 ")?;
    reply.resize(n.saturating_sub(2), b'x')?;
    reply.extend_from_slice(b"\r\n")?;
    Ok(reply)
}

#[test]
fn a_line_has_at_most_512_bytes(rt: HostRuntime) -> Result<(), Fail> {
    for (n, well_formed) in [(511usize, true), (512, true), (513, false)] {
        let reply = line_of(rt.alloc(), n)?;
        assert_eq!(rt; reply.len(), n);
        assert_eq!(rt; Reply::read(&reply).is_some(), well_formed);
    }
    Ok(())
}

#[test]
fn lines_come_with_their_places(rt: HostRuntime) -> Result<(), Fail> {
    let bytes: &[u8] = b"250-mx1.example\r\n250-SIZE 1000\r\n250-X_Y\r\n250 REQUIRETLS\r\n";
    let reply = Reply::read(bytes).ok_or("malformed")?;
    let handed: Vec<(u8, usize)> = reply
        .lines()
        .map(|line| match line {
            ReplyLine::Greeting { place, .. } => (b'g', place),
            ReplyLine::Keyword { place, alone, .. } => (if alone { b'K' } else { b'k' }, place),
            ReplyLine::Other { place, .. } => (b'o', place),
        })
        .collect(rt.alloc())?;
    assert_eq!(rt;
        handed.as_slice(),
        [(b'g', 4), (b'k', 21), (b'o', 36), (b'K', 45)].as_slice()
    );
    Ok(())
}
