ghost use Rattle.std.specs.Prelude.{◌≡◌, ℕ, ◌+◌, ◌≤◌, List, [], ◌++◌, length};
ghost use Rattle.message.specs.Writing.{Written};

// A lent buffer, and how many bytes are written at its front.
#[derive(Drop)]
pub(crate) struct Writer<'b> {
    out: &'b mut [u8],
    len: usize,
}

impl<'b> Writer<'b> {
    // Nothing is written yet.
    pub(crate) fn new(out: &'b mut [u8]) -> Writer<'b>
        ensures same_reference { result.out.ghost_name ≡ out.entry.ghost_name }
        ensures room { length result.out.now ≡ length out.old }
        ensures written { Written result.len result.out.now [] out.old }
    {
        Writer { out, len: 0 }
    }

    // Puts a part behind what is written.
    pub(crate) fn put(&mut self, part: &[u8])
        requires { self.old.len + length part.now ≤ length self.old.out.now }
        ensures same_reference { self.new.out.ghost_name ≡ self.old.out.ghost_name }
        ensures len { self.new.len ≡ self.old.len + length part.now }
        ensures room { length self.new.out.now ≡ length self.old.out.now }
        ensures written { (text lent : List ℕ) → Written self.old.len self.old.out.now text lent → Written self.new.len self.new.out.now (text ++ part.now) lent }
    {
        let end = self.len + part.len();
        self.out[self.len..end].copy_from_slice(part);
        self.len = end;
    }

    pub(crate) fn len(&self) -> usize
        ensures { result ≡ self.now.len }
    {
        self.len
    }
}
