ghost use Rattle.std.specs.Prelude.{◌≡◌, ◌+◌, ◌≤◌, ◌++◌, length};
ghost use Rattle.line.specs.Buffers.{laid_at};

// Lays a text into a buffer at a place; the place behind it. With the place as a parameter: each call on a writer that keeps
// it would also have to say that the buffer stays the same one and as long.
pub(crate) fn lay(out: &mut [u8], at: usize, text: &[u8]) -> usize
    requires { at + length text.now ≤ length out.old }
    ensures end { result ≡ at + length text.now }
    ensures laid { out.new ≡ laid_at at text.now out.old }
{
    let end = at + text.len();
    out[at..end].copy_from_slice(text);
    end
}

// Lays three texts into a buffer at a place, one behind the other; the place behind them.
pub(crate) fn lay_parts(
    out: &mut [u8],
    at: usize,
    front: &[u8],
    text: &[u8],
    ending: &[u8],
) -> usize
    requires { at + length (front.now ++ (text.now ++ ending.now)) ≤ length out.old }
    ensures end { result ≡ at + length (front.now ++ (text.now ++ ending.now)) }
    ensures laid { out.new ≡ laid_at at (front.now ++ (text.now ++ ending.now)) out.old }
{
    let behind = lay(out, at, front);
    let behind = lay(out, behind, text);
    lay(out, behind, ending)
}
