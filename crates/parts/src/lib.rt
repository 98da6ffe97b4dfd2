// Parts of a lent slice that are cut at its end, places in it, and a copy into it: total, so that callers need no test of their own.
#![tactic(auto)]

ghost use Rattle.std.specs.Prelude.{◌≡◌, ◌+◌, [], ◌∷◌, min, take, drop};
ghost use Rattle.laws.specs.Parts.{written};
ghost use Rattle.laws.specs.Appending.{Room, Appended};

// The first n bytes, or all where there are fewer.
pub fn front(s: &[u8], n: usize) -> &[u8]
    ensures { result.now ≡ take n s.now }
{
    &s[..n.min(s.len())]
}

// The bytes from an index on; none past the end.
pub fn rest(s: &[u8], at: usize) -> &[u8]
    ensures { result.now ≡ drop at s.now }
{
    &s[at.min(s.len())..]
}

// The index `used` bytes behind an index, and at most the length.
pub fn past(at: usize, used: usize, len: usize) -> usize
    ensures { result ≡ min (at + used) len }
{
    at.saturating_add(used).min(len)
}

// Copies a piece to an index of a buffer, where it fits; else the buffer stays as it is.
pub fn copy_at(buffer: &mut [u8], at: usize, piece: &[u8])
    ensures { buffer.new ≡ written buffer.old at piece.now }
{
    let n = piece.len();
    if at <= buffer.len() && n <= buffer.len() - at {
        buffer[at..at + n].copy_from_slice(piece);
    }
}

// A buffer that is written from the front: `at` is the index behind what was put so far.
#[derive(Drop)]
pub struct Cursor<'a> {
    pub buffer: &'a mut [u8],
    pub at: usize,
}

impl<'a> Cursor<'a> {
    // Puts a piece, for which there is room.
    pub fn put(&mut self, piece: &[u8])
        requires { Room self.old.buffer.now self.old.at piece.now }
        ensures appended { Appended self.old.buffer.now self.old.at piece.now self.new.at self.new.buffer.now }
        ensures lent { self.new.buffer.ghost_name ≡ self.old.buffer.ghost_name }
    {
        let at = self.at;
        copy_at(self.buffer, at, piece);
        self.at = at + piece.len();
    }

    // Puts one byte, for which there is room.
    pub fn push(&mut self, b: u8)
        requires { Room self.old.buffer.now self.old.at (b ∷ []) }
        ensures appended { Appended self.old.buffer.now self.old.at (b ∷ []) self.new.at self.new.buffer.now }
        ensures lent { self.new.buffer.ghost_name ≡ self.old.buffer.ghost_name }
    {
        let at = self.at;
        self.buffer[at] = b;
        self.at = at + 1;
    }
}
