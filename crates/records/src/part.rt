// The parts of a rule, which stand in lists behind their count.
ghost use Rattle.std.specs.Prelude.{◌≡◌, ℕ, List, map};
ghost use Rattle.records.specs.Fields.{Read};
ghost use Rattle.records.specs.Records.{Reads, read_parts, repeated};
ghost use Rattle.records.specs.declared.fault.ReaderFault.{ReaderFault};

use crate::fault::ReaderFault;
use crate::reader::Reader;
use std::alloc::Global;

/// A part of a rule, which stands in a list of its kind.
pub(crate) trait Part: Drop {
    /// How many parts a list may have.
    const MOST: u8;

    ghost MOST: { ℕ };

    /// The fault of a list that has more.
    const TOO_MANY: ReaderFault;

    ghost TOO_MANY: { ReaderFault };

    // What a part means.
    ghost Means: { Type 0 };

    ghost view: { Self → Means };

    // What the bytes that are left read as.
    ghost reads: { List ℕ → Read Means };

    /// The next part, whole.
    fn read(reader: &mut Reader<'_>, heap: Global) -> Result<Self, ReaderFault>
        ensures { Reads view result reader.new (reads reader.old) };
}

impl Reader<'_> {
    /// A list of parts, behind their count.
    pub(crate) fn parts<T: Part>(&mut self, heap: Global) -> Result<Vec<T>, ReaderFault>
        ensures { Reads (λ v. map T.view v.items) result self.new (read_parts T.MOST T.TOO_MANY T.reads self.old) }
    {
        let count = self.byte()?;
        if count > T::MOST {
            return Err(T::TOO_MANY);
        }
        self.counted(heap, count)
    }

    // This many parts; room for them is asked for first.
    #[tactic(auto, using(crate::proofs::Repeats::repeat_more, std::proofs::lemmas::List::map_push))]
    fn counted<T: Part>(&mut self, heap: Global, count: u8) -> Result<Vec<T>, ReaderFault>
        ensures { Reads (λ v. map T.view v.items) result self.new (repeated T.reads count self.old) }
    {
        let mut parts = Vec::with_capacity(heap, usize::from(count))?;
        for _ in 0..count {
            parts.push_reserved(T::read(self, heap)?);
        }
        Ok(parts)
    }
}
