ghost use Rattle.std.specs.Prelude.{◌≡◌};
ghost use Rattle.balgwir_c.specs.Calls.{code_int, lists_int};

use smtp::Reply;

// What stands for the code of a malformed reply.
const MALFORMED: i32 = 0;

// The code of a reply, 200 to 559, or 0 where it is malformed. By match: at `map_or` the search for a proof stops at its limit of case splits.
#[unsafe(no_mangle)]
pub extern "C" fn balgwir_reply_code(reply: &[u8]) -> i32
    ensures { result ≡ code_int reply.now }
{
    match Reply::read(reply) {
        Some(read) => i32::from(read.code()),
        None => MALFORMED,
    }
}

// Whether a reply lists a word, 1 or 0: one that is malformed lists nothing.
// By match: at `map_or` and `is_some_and` the search for a proof stops at its limit of case splits.
#[unsafe(no_mangle)]
pub extern "C" fn balgwir_reply_lists(reply: &[u8], word: &[u8]) -> i32
    ensures { result ≡ lists_int reply.now word.now }
{
    match Reply::read(reply) {
        Some(read) => i32::from(read.lists(word)),
        None => 0,
    }
}
