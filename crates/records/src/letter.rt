// The letter of a reading.
ghost use Rattle.records.specs.Letters.{letter_answer};
ghost use Rattle.std.specs.Prelude.{◌≡◌};

use crate::fault::ReaderFault;

/// The readings that a file can ask for.
#[derive(Clone, Copy, Debug, PartialEq, Eq)]
pub enum ReadingName {
    Flp,
    Ferraris,
}

/// The reading with this letter: `L` is FLP and `R` is Ferraris.
impl TryFrom<u8> for ReadingName {
    type Error = ReaderFault;

    ghost try_from_gives = { λ byte answer. answer ≡ letter_answer byte };

    fn try_from(byte: u8) -> Result<ReadingName, ReaderFault> {
        match char::from(byte) {
            'L' => Ok(ReadingName::Flp),
            'R' => Ok(ReadingName::Ferraris),
            _ => Err(ReaderFault::UnknownLetter),
        }
    }
}
