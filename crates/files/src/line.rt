// The lines of a report, and how they are written into it.
ghost use Rattle.std.specs.Prelude.{◌≡◌, ◌<◌};
ghost use Rattle.files.specs.Lines.{eight_hex, element_tested, hex_digit, located_line, located_text, said_line, said_of, tally_tested, two_digits};
ghost use Rattle.files.specs.Reports.{HasRoom, Wrote};
ghost use Rattle.files.specs.Turns.{FaultPut};

use crate::fault::{FileFault, Located};
use crate::play::PlayFault;
use crate::report::Report;
use judging::Verdict;
use records::fault::ReaderFault;

/// What a call answers where it is not refused.
#[derive(Clone, Copy, Debug, PartialEq, Eq)]
pub enum Answer {
    /// The new atom's number.
    Atom(u8),
    /// The new rule's place.
    Entered(u8),
    /// What judge said.
    Judged(Verdict),
}

// Two digits for any number: `{:02}` would write a third from 100 on.
fn two_digits(n: u8) -> [u8; 2]
    ensures { result ≡ two_digits n }
{
    [b'0' + n / 10 % 10, b'0' + n % 10]
}

fn hex_digit(d: u32) -> u8
    requires { d < 16 }
    ensures { result ≡ hex_digit d }
{
    char::from_digit(d, 16).unwrap() as u8
}

fn eight_hex(n: u32) -> [u8; 8]
    ensures { result ≡ eight_hex n }
{
    std::array::from_fn(|place| hex_digit((n >> (28 - 4 * place)) % 16))
}

// The places in a refusal's line. The match is by the layer that gave the fault, and only the plan's have places: a method
// of each layer's fault would be no plainer.
fn places(fault: FileFault) -> (u8, u8)
    ensures { (result.0 ≡ tally_tested fault) × (result.1 ≡ element_tested fault) }
{
    match fault {
        FileFault::Reader(_) => (0, 0),
        FileFault::Plan(refused) => refused.tested.places(),
    }
}

// The number, the offset and the places, with spaces between them.
fn refusal_text(located: Located) -> [u8; 16]
    ensures { result ≡ located_text located }
{
    let [n, m] = two_digits(u8::from(located.fault));
    let [a, b, c, d, e, f, g, h] = eight_hex(located.offset);
    let (tally, element) = places(located.fault);
    let t = b'0' + tally % 10;
    let [v, w] = two_digits(element);
    [n, m, b' ', a, b, c, d, e, f, g, h, b' ', t, b' ', v, w]
}

// Lines are put as bytes, and not by `Display`: no contract says when a formatter succeeds, and each line is promised.
impl Report<'_> {
    /// Writes the line of an answer.
    pub(crate) fn put_answer(&mut self, answer: Answer)
        requires { HasRoom self.old }
        ensures { Wrote self.old self.new (said_line (said_of answer)) }
    {
        match answer {
            Answer::Atom(n) => self.put_line(b"ATOM ", &two_digits(n)),
            Answer::Entered(place) => self.put_line(b"RULE ", &two_digits(place)),
            Answer::Judged(Verdict::Broken(place)) => {
                self.put_line(b"BROKEN ", &two_digits(place));
            }
            Answer::Judged(Verdict::Smaller(set)) => self.put_line(b"SMALLER ", &eight_hex(set.0)),
            Answer::Judged(Verdict::Stable) => self.put_line(b"STABLE", b""),
        }
    }

    /// Writes the line of a refusal.
    pub(crate) fn put_refusal(&mut self, located: Located)
        requires { HasRoom self.old }
        ensures { Wrote self.old self.new (located_line located) }
    {
        self.put_line(b"NO ", &refusal_text(located));
    }

    /// Writes the line of a refused record, which ends the play if the reader gave the fault. Want of memory has no line, and
    /// nothing else is told as that.
    pub(crate) fn put_fault(&mut self, located: Located) -> Result<(), PlayFault>
        requires { HasRoom self.old }
        ensures { FaultPut result located self.old self.new }
    {
        if let FileFault::Reader(ReaderFault::NoMemory) = located.fault {
            return Err(PlayFault::NoMemory);
        }
        self.put_refusal(located);
        match located.fault {
            FileFault::Reader(fault) => Err(PlayFault::Unreadable(located.offset, fault)),
            FileFault::Plan(_) => Ok(()),
        }
    }
}
