// The records of a file, each read whole.
ghost use Rattle.std.specs.Prelude.{◌≡◌, slice_index};
ghost use Rattle.records.specs.Fields.{read_word, read_in};
ghost use Rattle.records.specs.Records.{Reads, expect, mark_of, read_element, read_judge, read_mark, read_name, read_record, read_rule, read_tally, record_of, same_mark};
ghost use Rattle.records.specs.declared.fault.ReaderFault.TheVariants.{TooManyElements, TooManyTallies};
ghost use Rattle.rules.specs.Views.{element_of, rule_of, tally_of};
ghost use Rattle.theory.specs.Rules.{Element as element, Tally as tally};

use crate::fault::ReaderFault;
use crate::letter::ReadingName;
use crate::part::Part;
use crate::reader::Reader;
use rules::{Element, MAX_ELEMENTS, MAX_TALLIES, Relation, Rule, Sign, Tally};
use sets::AtomSet;
use std::alloc::Global;

/// The two bytes that a record, or a part of a rule, begins with.
#[derive(Clone, Copy, Debug, PartialEq, Eq)]
pub enum Mark {
    Name,
    Rule,
    Tally,
    Element,
    Judge,
}

impl TryFrom<[u8; 2]> for Mark {
    type Error = ReaderFault;

    ghost try_from_gives = { λ bytes answer. answer ≡ mark_of (slice_index bytes 0) (slice_index bytes 1) };

    fn try_from(bytes: [u8; 2]) -> Result<Mark, ReaderFault> {
        match &bytes {
            b"NA" => Ok(Mark::Name),
            b"RU" => Ok(Mark::Rule),
            b"TA" => Ok(Mark::Tally),
            b"EL" => Ok(Mark::Element),
            b"JU" => Ok(Mark::Judge),
            _ => Err(ReaderFault::UnknownMark),
        }
    }
}

/// A record, as it was written.
#[derive(Drop)]
pub enum Record<'a> {
    Name(&'a [u8]),
    Rule(Rule),
    Judge(ReadingName, AtomSet),
}

impl Part for Element {
    const MOST: u8 = MAX_ELEMENTS;

    ghost MOST = { 12 };

    const TOO_MANY: ReaderFault = ReaderFault::TooManyElements;

    ghost TOO_MANY = { TooManyElements };

    ghost Means = { element };

    ghost view = { element_of };

    ghost reads = { read_element };

    // An element asks for no memory: whatever it answers is what its bytes read as.
    fn read(reader: &mut Reader<'_>, _heap: Global) -> Result<Element, ReaderFault>
        ensures part { Reads element_of result reader.new (read_element reader.old) }
        ensures exact { read_in element_of result reader.new ≡ read_element reader.old }
    {
        reader.expect(Mark::Element)?;
        let ins = reader.set()?;
        let outs = reader.set()?;
        let weight = reader.signed()?;
        Ok(Element { ins, outs, weight })
    }
}

impl Part for Tally {
    const MOST: u8 = MAX_TALLIES;

    ghost MOST = { 2 };

    const TOO_MANY: ReaderFault = ReaderFault::TooManyTallies;

    ghost TOO_MANY = { TooManyTallies };

    ghost Means = { tally };

    ghost view = { tally_of };

    ghost reads = { read_tally };

    fn read(reader: &mut Reader<'_>, heap: Global) -> Result<Tally, ReaderFault> {
        reader.expect(Mark::Tally)?;
        let kind = reader.byte()?;
        let relation = reader.byte()?;
        let sign = reader.byte()?;
        let bound = reader.signed()?;
        let elements = reader.parts(heap)?;
        Ok(Tally {
            kind,
            relation: Relation::from(relation),
            sign: Sign::from(sign),
            bound,
            elements,
        })
    }
}

impl<'a> Reader<'a> {
    fn mark(&mut self) -> Result<Mark, ReaderFault>
        ensures { read_in (λ m. m) result self.new ≡ read_mark self.old }
    {
        Mark::try_from(self.array()?)
    }

    // The mark that is due here.
    fn expect(&mut self, wanted: Mark) -> Result<(), ReaderFault>
        ensures { read_in (λ m. m) result self.new ≡ expect (same_mark wanted) self.old }
    {
        if self.mark()? == wanted {
            Ok(())
        } else {
            Err(ReaderFault::UnknownMark)
        }
    }

    fn set(&mut self) -> Result<AtomSet, ReaderFault>
        ensures { read_in (λ s. s.0) result self.new ≡ read_word self.old }
    {
        Ok(AtomSet(self.word()?))
    }

    fn rule(&mut self, heap: Global) -> Result<Rule, ReaderFault>
        ensures { Reads rule_of result self.new (read_rule self.old) }
    {
        let head = self.set()?;
        let must = self.set()?;
        let must_not = self.set()?;
        let tallies = self.parts(heap)?;
        Ok(Rule {
            head,
            must,
            must_not,
            tallies,
        })
    }

    fn name(&mut self) -> Result<&'a [u8], ReaderFault>
        ensures { read_in (λ s. s.now) result self.new ≡ read_name self.old }
    {
        let size = self.byte()?;
        self.slice(usize::from(size))
    }

    fn judge(&mut self) -> Result<Record<'a>, ReaderFault>
        ensures { read_in record_of result self.new ≡ read_judge self.old }
    {
        let reading = ReadingName::try_from(self.byte()?)?;
        let candidate = self.set()?;
        Ok(Record::Judge(reading, candidate))
    }

    /// The next record, whole.
    pub fn record(&mut self, heap: Global) -> Result<Record<'a>, ReaderFault>
        ensures { Reads record_of result self.new (read_record self.old) }
    {
        match self.mark()? {
            Mark::Name => Ok(Record::Name(self.name()?)),
            Mark::Rule => Ok(Record::Rule(self.rule(heap)?)),
            Mark::Judge => self.judge(),
            Mark::Tally | Mark::Element => Err(ReaderFault::UnknownMark),
        }
    }
}
