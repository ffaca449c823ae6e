ghost use Rattle.std.specs.Prelude.{◌≡◌, ℕ, ◌≤◌, length};
ghost use Rattle.line.specs.Sheet.{clear_count, covered_count};
ghost use Rattle.line.specs.Pieces.{pieces_of};

// A visit as the other side sees it: its number, the name that it was opened to, and the records of the pieces put in it,
// one after the other, with how many of them are clear and how many covered.
#[derive(Clone, Copy)]
pub struct Visit<'v> {
    pub number: usize,
    pub name: &'v [u8],
    pub pieces: &'v [u8],
    pub clear: usize,
    pub covered: usize,
    ghost short: { length name.now ≤ 253 },
    ghost clears: { clear ≡ clear_count (pieces_of pieces.now) },
    ghost covereds: { covered ≡ covered_count (pieces_of pieces.now) },
}
