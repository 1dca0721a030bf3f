// A table of cases: each line's file is played, and its report and its ending are printed.
#![tactic(auto)]

ghost use Rattle.std.specs.Prelude.{◌≡◌, ◌==◌, ◌≤◌, IfOk, not};
ghost use Rattle.std.specs.List.{list_any};

use files::play::play;
use hex::FromHexError;
use std::alloc::{AllocError, AllocFailed, Global};
use std::io;
use std::io::{BufRead, BufReader};

/// The length of a report where the case does not give one.
const USUAL_ROOM: usize = 65_536;

/// The most that a report's length, or a count of repetitions, may be.
const MAX_NUMBER: usize = 70_000;

/// Every byte of a report before the play.
const UNTOUCHED: u8 = b'.';

/// Why a line gives no case.
#[derive(Drop)]
enum LineFault {
    /// It is not of the form of a case.
    BadForm,
    /// No memory for the file.
    NoMemory(AllocError),
}

impl From<AllocError> for LineFault {
    fn from(error: AllocError) -> LineFault {
        LineFault::NoMemory(error)
    }
}

impl<T: Drop> From<AllocFailed<T>> for LineFault {
    fn from(_refused: AllocFailed<T>) -> LineFault {
        LineFault::NoMemory(AllocError)
    }
}

impl From<FromHexError> for LineFault {
    fn from(error: FromHexError) -> LineFault {
        match error {
            FromHexError::OutOfMemory => LineFault::NoMemory(AllocError),
            _ => LineFault::BadForm,
        }
    }
}

/// A file, and the length of the report that it is played with.
#[derive(Drop)]
struct Case {
    room: usize,
    file: Vec<u8>,
}

/// A word of a case: hexadecimal digits, and how often their bytes are repeated.
#[derive(Clone, Copy)]
struct Word<'a> {
    digits: &'a str,
    count: usize,
}

fn number(text: &str) -> Result<usize, LineFault>
    ensures { IfOk result (λ n. n ≤ 70000) }
{
    match text.parse::<usize>() {
        Ok(n) if n <= MAX_NUMBER => Ok(n),
        _ => Err(LineFault::BadForm),
    }
}

impl<'a> TryFrom<&'a str> for Word<'a> {
    type Error = LineFault;

    fn try_from(text: &'a str) -> Result<Word<'a>, LineFault> {
        match text.split_once('*') {
            Some((digits, count)) => Ok(Word {
                digits,
                count: number(count)?,
            }),
            None => Ok(Word {
                digits: text,
                count: 1,
            }),
        }
    }
}

fn append(file: &mut Vec<u8>, bytes: &[u8], count: usize) -> Result<(), LineFault> {
    for _ in 0..count {
        file.extend_from_slice(bytes)?;
    }
    Ok(())
}

fn file_of(heap: Global, words: &str) -> Result<Vec<u8>, LineFault> {
    let mut file = Vec::new(heap);
    for text in words.split_whitespace() {
        let Word { digits, count } = Word::try_from(text)?;
        // Before `decode` asks for room: a word that is no hexadecimal takes none.
        if !digits.as_bytes().iter().all(u8::is_ascii_hexdigit) {
            return Err(LineFault::BadForm);
        }
        let bytes = hex::decode(heap, digits)?;
        append(&mut file, bytes.as_slice(), count)?;
    }
    Ok(file)
}

// The case that a line writes: the report's length may stand before the file.
fn case_of(heap: Global, line: &str) -> Result<Case, LineFault> {
    let (room, words) = match line.strip_prefix('@') {
        None => (USUAL_ROOM, line),
        Some(rest) => {
            let (room, words) = rest.split_once(' ').unwrap_or((rest, ""));
            (number(room)?, words)
        }
    };
    let file = file_of(heap, words)?;
    Ok(Case { room, file })
}

fn is_touched(rest: &[u8]) -> bool
    ensures { result ≡ list_any (λ byte. not (byte == 46)) rest.now }
{
    rest.iter().any(|byte| *byte != UNTOUCHED)
}

fn show_case(rt: &HostRuntime, case: &Case) -> io::Result<()> {
    let heap = rt.alloc();
    let mut report = Vec::from_elem(heap, UNTOUCHED, case.room)?;
    let played = play(heap, case.file.as_slice(), report.as_mut_slice());
    let written = played.written;
    let fault = played.number();
    let (lines, rest) = report.as_slice().split_at(written.min(report.len()));
    rt.write_all(lines)?;
    println!(rt; "= {written} bytes, fault {fault}")?;
    if is_touched(rest) {
        println!(rt; "! touched")?;
    }
    Ok(())
}

fn show_line(rt: &HostRuntime, line: &str) -> io::Result<()> {
    if line.is_empty() || line.starts_with('#') {
        return println!(rt; "{line}");
    }
    match case_of(rt.alloc(), line) {
        Ok(case) => show_case(rt, &case),
        Err(LineFault::BadForm) => println!(rt; "? bad line"),
        Err(LineFault::NoMemory(error)) => Err(error.into()),
    }
}

fn main(rt: HostRuntime) -> io::Result<()> {
    for line in BufReader::new(rt.alloc(), rt.stdin())?.lines(rt.alloc()) {
        show_line(&rt, line?.as_str())?;
    }
    Ok(())
}
