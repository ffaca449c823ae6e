ghost use Rattle.std.specs.Prelude.{◌≡◌, length, Some};
ghost use Rattle.std.specs.Iterator.{YieldsFirstRef, at_most};
ghost use Rattle.message.specs.Lines.{lines_of};
ghost use Rattle.message.specs.Tags.{folded, fields, white, behind_white, field_tag, is_tls_required, tag_of, tls_required, tagged, tag_name};
ghost use Rattle.message.specs.TagsHold.{TagsHold};

use crate::content::{check_content, header_len};
use crate::lines::{front_len, lines_of};
use smtp::Refusal;
use smtp::bytes::{from, same_word, upto};
use std::fmt;

// How a message's sender wants it carried.
#[derive(Clone, Copy, PartialEq, Eq, Debug)]
pub enum Tag {
    // over TLS to hosts that meet the requirement, or not at all: the REQUIRETLS option
    Required,
    // in the clear if need be: a TLS-Required field that says No
    No,
    // neither
    None,
}

impl Tag {
    // How it is printed.
    pub fn name(self) -> &'static str
        ensures { result.now ≡ tag_name self }
    {
        match self {
            Tag::Required => "required",
            Tag::No => "no",
            Tag::None => "none",
        }
    }
}

impl fmt::Display for Tag {
    ghost output = { λ tag. Some (tag_name tag) };

    fn fmt<W: fmt::Write>(&self, f: &mut fmt::Formatter<W>) -> fmt::Result {
        f.write_str(self.name())
    }
}

// Whether a line goes on with the field before it.
fn is_folded(line: &[u8]) -> bool
    ensures { result ≡ folded line.now }
{
    matches!(line, [b' ' | b'\t', ..])
}

// The fields of a header that are still to be handed out: each a line and the folded lines behind it.
#[derive(Drop)]
struct Fields<'h> {
    rest: &'h [u8],
}

impl<'h> Iterator for Fields<'h> {
    type Item = &'h [u8];

    ghost next_gives = { YieldsFirstRef (λ s. fields (lines_of s.rest.now)) };

    ghost remaining = { λ s. at_most (length s.rest.now) };

    fn next(&mut self) -> Option<&'h [u8]> {
        let rest = self.rest;
        let mut lines = lines_of(rest);
        let first = lines.next()?;
        let (field, behind) = rest.split_at(first.len() + front_len(lines, is_folded));
        self.rest = behind;
        Some(field)
    }
}

fn is_white(b: u8) -> bool
    ensures { result ≡ white b }
{
    matches!(b, b' ' | b'\t' | b'\r' | b'\n')
}

// What stands behind the white space at the front.
fn behind_white<'s>(s: &'s [u8]) -> &'s [u8]
    ensures { result.now ≡ behind_white s.now }
{
    let n = s.iter().position(|b| !is_white(*b)).unwrap_or(s.len());
    from(s, n)
}

// The tag by one TLS-Required field: behind the name and its colon, white space and `No`.
fn field_tag(field: &[u8]) -> Tag
    ensures { result ≡ field_tag field.now }
{
    if same_word(behind_white(from(field, 13)), b"No\r\n") {
        Tag::No
    } else {
        Tag::None
    }
}

fn is_tls_required(field: &[u8]) -> bool
    ensures { result ≡ is_tls_required field.now }
{
    same_word(upto(field, 13), b"TLS-Required:")
}

// The tag by the TLS-Required fields of a header; two or more are refused.
fn header_tag(header: &[u8]) -> Result<Tag, Refusal>
    ensures { result ≡ tag_of (tls_required (fields (lines_of header.now))) }
{
    let mut found = Fields { rest: header }.filter(|field| is_tls_required(field));
    let Some(field) = found.next() else {
        return Ok(Tag::None);
    };
    match found.next() {
        None => Ok(field_tag(field)),
        Some(_) => Err(Refusal::RepeatedTlsRequired),
    }
}

impl Tag {
    // Reads a message's tag off the REQUIRETLS option and its header section. With the option the fields are not looked at, but the section's
    // form is.
    pub fn read(require_tls: bool, section: &[u8]) -> Result<Tag, Refusal>
        ensures { result ≡ tagged require_tls section.now }
    {
        check_content(section)?;
        if require_tls {
            return Ok(Tag::Required);
        }
        header_tag(upto(section, header_len(section)))
    }
}

// Does nothing when it runs; its contract says that a header's fields are the whole of it, and gives the tags of some sections.
pub fn tags_hold() -> u8
    ensures { TagsHold }
{
    0
}
