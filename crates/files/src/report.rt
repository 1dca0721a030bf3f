// A report on its way: the bytes that it is written into, and how many of them were written.
ghost use Rattle.std.specs.Prelude.{◌≤◌, length};

/// No line is longer, its end included.
const MAX_LINE: usize = 20;

/// The bytes of a report; the first of them are written.
#[derive(Drop)]
pub(crate) struct Report<'a> {
    bytes: &'a mut [u8],
    written: usize,
    ghost within: { written ≤ length bytes.now },
}

impl<'a> Report<'a> {
    ghost use Rattle.std.specs.Prelude.{◌≡◌, ◌++◌, IsTrue, ◌↔◌};
    ghost use Rattle.files.specs.Lines.{ended};
    ghost use Rattle.files.specs.Reports.{Fits, HasRoom, Wrote};

    /// A report where nothing is written yet.
    pub(crate) fn new(bytes: &'a mut [u8]) -> Report<'a>
        ensures place { result.bytes.ghost_name ≡ bytes.entry.ghost_name }
        ensures bytes { result.bytes.now ≡ bytes.old }
        ensures fresh { result.written ≡ 0 }
    {
        Report { bytes, written: 0 }
    }

    /// How many bytes were written.
    pub(crate) fn written(&self) -> usize
        ensures { result ≡ self.now.written }
    {
        self.written
    }

    /// Whether any line fits.
    pub(crate) fn has_room(&self) -> bool
        ensures { IsTrue result ↔ HasRoom self.now }
    {
        self.bytes.len() - self.written >= MAX_LINE
    }

    fn put(&mut self, text: &[u8])
        requires { Fits self.old text.now }
        ensures { Wrote self.old self.new text.now }
    {
        let end = self.written + text.len();
        self.bytes[self.written..end].copy_from_slice(text);
        self.written = end;
    }

    /// Writes a word, a value and the line's end.
    pub(crate) fn put_line(&mut self, word: &[u8], value: &[u8])
        requires { Fits self.old (word.now ++ ended value.now) }
        ensures { Wrote self.old self.new (word.now ++ ended value.now) }
    {
        self.put(word);
        self.put(value);
        self.put(b"\n");
    }
}
