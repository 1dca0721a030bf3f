// The names of atoms: made of bytes that pass the tests of them, and compared with bytes.
ghost use Rattle.std.specs.Prelude.{◌≡◌, Some, None, MatchResult};
ghost use Rattle.std.specs.Str.{bytes_eq};
ghost use Rattle.plans.specs.PlanView.{text_of, texts_of};
ghost use Rattle.plans.specs.Refusals.{refusal_of};
ghost use Rattle.theory.specs.Calls.{borne, first_applying, is_name_byte, text_tests};

use crate::plan::Name;
use crate::refusal::Refusal;
use arrayvec::ArrayVec;

fn is_name_byte(byte: u8) -> bool
    ensures { result ≡ is_name_byte byte }
{
    byte.is_ascii_alphanumeric() || byte == b'-'
}

/// The name of these bytes, or the refusal of their length or of one of them.
impl TryFrom<&[u8]> for Name {
    type Error = Refusal;

    ghost try_from_gives = { λ bytes r. MatchResult r
        (λ n. (text_of n ≡ bytes.now) × (first_applying (text_tests bytes.now) ≡ None))
        (λ f. first_applying (text_tests bytes.now) ≡ Some (refusal_of f)) };

    fn try_from(bytes: &[u8]) -> Result<Name, Refusal> {
        let text = match ArrayVec::try_from(bytes) {
            Ok(text) if !text.is_empty() => text,
            _ => return Err(Refusal::NameLength),
        };
        if !bytes.iter().all(|byte| is_name_byte(*byte)) {
            return Err(Refusal::NameByte);
        }
        Ok(Name { text })
    }
}

impl Name {
    // Whether the name agrees with the bytes in length and in every byte.
    fn agrees(&self, bytes: &[u8]) -> bool
        ensures { result ≡ bytes_eq (text_of self.now) bytes.now }
    {
        self.text.as_slice() == bytes
    }
}

// Whether one of the names agrees with the bytes.
pub(super) fn is_borne(names: &[Name], bytes: &[u8]) -> bool
    ensures { result ≡ borne (texts_of names.now) bytes.now }
{
    names.iter().any(|name| name.agrees(bytes))
}
