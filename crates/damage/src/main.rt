// A good file and damaged copies of it are played through the exported call, and what each gave is printed.
#![tactic(auto)]

ghost use Rattle.std.specs.Prelude.{◌<◌, length};

use host::{PlayAnswer, linenscribe_play};
use std::alloc::{AllocError, Global};
use std::io::Read;
use std::{fmt, io};

/// The length of a report where the series does not give one.
const USUAL_ROOM: usize = 4_096;

/// Reports that are full early: 20 bytes must be free for each record.
const SHORT_ROOMS: [usize; 4] = [0, 19, 20, 39];

/// The most bytes that a file may have, and one more.
const SIZES: [usize; 2] = [65_536, 65_537];

/// A report that the longest file fills.
const FULL_ROOM: usize = 65_536;

/// A report that no file fills.
const LONG_ROOM: usize = 1_000_000;

/// Every byte of a report before a play.
const UNTOUCHED: u8 = b'.';

const FNV_START: u32 = 2_166_136_261;

const FNV_PRIME: u32 = 16_777_619;

/// A running digest of plays: 32-bit FNV-1a.
#[derive(Clone, Copy)]
struct Digest(u32);

impl Digest {
    fn new() -> Digest {
        Digest(FNV_START)
    }

    fn add(&mut self, bytes: &[u8]) {
        for byte in bytes {
            self.0 = (self.0 ^ u32::from(*byte)).wrapping_mul(FNV_PRIME);
        }
    }

    fn add_play(&mut self, answer: PlayAnswer, text: &[u8]) {
        let written = u32::try_from(answer.written).unwrap_or(u32::MAX);
        let fault = u8::try_from(answer.fault).unwrap_or(u8::MAX);
        self.add(&written.to_be_bytes());
        self.add(&[fault]);
        self.add(&answer.offset.to_be_bytes());
        self.add(text);
    }
}

impl fmt::Display for Digest {
    fn fmt<W: fmt::Write>(&self, f: &mut fmt::Formatter<W>) -> fmt::Result {
        let value = self.0;
        write!(f, "{value:08x}")
    }
}

/// What a single play gave.
#[derive(Clone, Copy)]
struct Outcome {
    answer: PlayAnswer,
    digest: Digest,
}

impl fmt::Display for Outcome {
    fn fmt<W: fmt::Write>(&self, f: &mut fmt::Formatter<W>) -> fmt::Result {
        let written = self.answer.written;
        let fault = self.answer.fault;
        let offset = self.answer.offset;
        let digest = self.digest;
        write!(
            f,
            "{written} bytes, fault {fault}, offset {offset}, digest {digest}"
        )
    }
}

/// Plays files into reports that all stand at the front of one buffer, and counts the plays.
#[derive(Drop)]
struct Player {
    heap: Global,
    buffer: Vec<u8>,
    plays: u32,
    touched: u32,
}

impl Player {
    fn new(heap: Global) -> Result<Player, AllocError> {
        let buffer = Vec::from_elem(heap, UNTOUCHED, LONG_ROOM)?;
        Ok(Player {
            heap,
            buffer,
            plays: 0,
            touched: 0,
        })
    }

    // Plays the file with a report of `room` bytes, and adds what it gave to the digest.
    fn play(&mut self, file: &[u8], room: usize, digest: &mut Digest) -> PlayAnswer {
        let end = room.min(self.buffer.len());
        let report = &mut self.buffer.as_mut_slice()[0..end];
        report.fill(UNTOUCHED);
        let answer = linenscribe_play(self.heap, file, report);
        let (text, rest) = report.split_at(answer.written);
        digest.add_play(answer, text);
        self.plays = self.plays.saturating_add(1);
        // All differences of bits in one, many bytes at a time. `any` looks at one at a time, and a run is mostly this look.
        let differences = rest
            .iter()
            .fold(0, |other, byte| other | (byte ^ UNTOUCHED));
        if differences != 0 {
            self.touched = self.touched.saturating_add(1);
        }
        answer
    }

    fn play_once(&mut self, file: &[u8], room: usize) -> Outcome {
        let mut digest = Digest::new();
        let answer = self.play(file, room, &mut digest);
        Outcome { answer, digest }
    }

    // The digest of the file's plays with each other value of one byte, which is put back.
    fn play_changed(&mut self, file: &mut [u8], position: usize) -> Digest
        requires { position < length file.old }
    {
        let good = file[position];
        let mut digest = Digest::new();
        for value in 0..=u8::MAX {
            if value != good {
                file[position] = value;
                self.play(file, USUAL_ROOM, &mut digest);
            }
        }
        file[position] = good;
        digest
    }

    // The digest of the plays of all fronts of the file, by their lengths: no iterator gives a slice's fronts.
    fn play_fronts(&mut self, good: &[u8], room: usize) -> Digest {
        let mut digest = Digest::new();
        for length in 0..=good.len() {
            self.play(&good[0..length], room, &mut digest);
        }
        digest
    }
}

// The good file repeated, and cut to `size` bytes.
fn repeated(heap: Global, good: &[u8], size: usize) -> Result<Vec<u8>, AllocError> {
    good.iter().copied().cycle().take(size).collect(heap)
}

// By lengths, which are printed.
fn show_fronts(rt: &HostRuntime, player: &mut Player, good: &[u8]) -> io::Result<()> {
    for length in 0..=good.len() {
        let outcome = player.play_once(&good[0..length], USUAL_ROOM);
        println!(rt; "front {length}: {outcome}")?;
    }
    Ok(())
}

// By positions, which are printed, and each of which is changed in the whole file.
fn show_changed(rt: &HostRuntime, player: &mut Player, file: &mut [u8]) -> io::Result<()> {
    for position in 0..file.len() {
        let digest = player.play_changed(file, position);
        println!(rt; "changed {position}: digest {digest}")?;
    }
    Ok(())
}

fn show_rooms(rt: &HostRuntime, player: &mut Player, good: &[u8]) -> io::Result<()> {
    for room in SHORT_ROOMS {
        let outcome = player.play_once(good, room);
        println!(rt; "room {room}: {outcome}")?;
        let digest = player.play_fronts(good, room);
        println!(rt; "room {room}, fronts: digest {digest}")?;
    }
    Ok(())
}

fn show_sizes(rt: &HostRuntime, player: &mut Player, good: &[u8]) -> io::Result<()> {
    for size in SIZES {
        let file = repeated(rt.alloc(), good, size)?;
        let outcome = player.play_once(file.as_slice(), FULL_ROOM);
        println!(rt; "size {size}: {outcome}")?;
        let outcome = player.play_once(file.as_slice(), LONG_ROOM);
        println!(rt; "size {size}, long report: {outcome}")?;
    }
    Ok(())
}

fn main(rt: HostRuntime) -> io::Result<()> {
    let heap = rt.alloc();
    let mut good = Vec::new(heap);
    rt.stdin().read_to_end(&mut good)?;
    let mut player = Player::new(heap)?;
    show_fronts(&rt, &mut player, good.as_slice())?;
    show_changed(&rt, &mut player, good.as_mut_slice())?;
    show_rooms(&rt, &mut player, good.as_slice())?;
    show_sizes(&rt, &mut player, good.as_slice())?;
    let plays = player.plays;
    let touched = player.touched;
    println!(rt; "{plays} plays, {touched} with bytes touched past the text")
}
