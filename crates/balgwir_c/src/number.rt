ghost use Rattle.std.specs.Prelude.{◌≡◌};
ghost use Rattle.balgwir_c.specs.Numbers.{yes, refusal_int, tag_int};

use message::tag::Tag;
use smtp::Refusal;

// A flag as C has it: 0 is no, and any other number is yes.
pub(crate) fn is_set(flag: i32) -> bool
    ensures { result ≡ yes flag }
{
    flag != 0
}

// A refusal's number as C has it. A function, as the one below: neither `i32` nor the refusal nor the tag is of this crate, so no `From` can stand here.
pub(crate) fn refusal_int(refusal: Refusal) -> i32
    ensures { result ≡ refusal_int refusal }
{
    i32::from(refusal.number())
}

// A tag's number as C has it, by a table: the numbers are those of the C interface alone. 0 is no tag, so that memory of zeros does not pass for one.
pub(crate) fn tag_int(tag: Tag) -> i32
    ensures { result ≡ tag_int tag }
{
    match tag {
        Tag::Required => 1,
        Tag::No => 2,
        Tag::None => 3,
    }
}
