// Lines from an input of any bytes, and the answers to them.
ghost use Rattle.std.specs.Prelude.{◌≡◌, ◌≢◌, ◌↔◌, ◌<◌, ◌≤◌, ℕ, List, [], ◌++◌, length, take, slice_index, All, vec_len, IfSome, IfOk, OnOk, IsTrue};
ghost use Rattle.std.specs.Io.BufRead.{first_piece, DropsThrough};
ghost use Rattle.lineplay.specs.Reading.{Gives};

use answers::{LONGEST, write_answer};
use rules::Answer;
use script::{Fault, MOST_BYTES};
use std::alloc::AllocError;
use std::io;
use std::io::{BufRead, BufReader, BufWriter, Chain, Empty, ErrorKind, Read, Stdout, Write};

// As many bytes as are kept of a line: one more than a line may have, so that a line that is too long is known.
const MOST_KEPT: usize = MOST_BYTES + 1;

// A source of lines with the line that was read last, and the answers that are not written yet.
#[derive(Drop)]
pub struct Feed<S: Read> {
    source: BufReader<Chain<S, Empty>>,
    line: Vec<u8>,
    answers: BufWriter<Stdout>,
}

// Why no more of a line was taken.
enum Stop {
    // Its byte 10 came.
    LineEnd,
    // What was read is used up, or a signal broke the read off.
    ChunkEnd,
    // The source has ended.
    SourceEnd,
}

// The index of the first byte 10, or the length where there is none.
fn line_end(bytes: &[u8]) -> usize
    ensures within { result ≤ length bytes.now }
    ensures before { (k : ℕ) → k < result → slice_index bytes.now k ≢ 10 }
    ensures found { result < length bytes.now → slice_index bytes.now result ≡ 10 }
{
    bytes
        .iter()
        .position(|byte| *byte == b'\n')
        .unwrap_or(bytes.len())
}

// Adds bytes to a line; of a line that is too long, one byte more than a line may have is kept.
fn keep(line: &mut Vec<u8>, bytes: &[u8]) -> Result<(), AllocError>
    ensures { OnOk result (vec_len line.old ≤ 121 → line.new.items ≡ take 121 (line.old.items ++ bytes.now)) }
{
    let room = MOST_KEPT.saturating_sub(line.len());
    line.extend_from_slice(&bytes[..room.min(bytes.len())])
}

// Takes what is read of the source's line, or reads on where nothing is, and answers why it took no more.
fn take_part<B: BufRead>(source: &mut B, line: &mut Vec<u8>) -> io::Result<Stop>
    ensures { IfOk result (λ stop. (part : List ℕ) × All (λ byte. byte ≢ 10) part
        × (vec_len line.old ≤ 121 → line.new.items ≡ take 121 (line.old.items ++ part))
        × Gives stop part (B.remaining source.old) (B.remaining source.new)) }
{
    let read = match source.fill_buf() {
        Ok(read) => read,
        Err(error) => {
            return if error.kind() == ErrorKind::Interrupted {
                Ok(Stop::ChunkEnd)
            } else {
                Err(error)
            };
        }
    };
    if read.is_empty() {
        return Ok(Stop::SourceEnd);
    }
    let end = line_end(read);
    keep(line, &read[..end])?;
    if end < read.len() {
        // The byte 10 is used up too.
        source.consume(end + 1);
        Ok(Stop::LineEnd)
    } else {
        source.consume(end);
        Ok(Stop::ChunkEnd)
    }
}

// Takes the source's next line, all of it with its byte 10, and keeps it without that; of a line that is too long, one byte more
// than a line may have. Answers whether there was a line: tried with the line as its answer, no fact of the borrow that comes back
// could be cited.
fn take_line<B: BufRead>(source: &mut B, line: &mut Vec<u8>) -> io::Result<bool>
    ensures bytes { OnOk result (IfSome (B.remaining source.old) (λ left. line.new.items ≡ take 121 (first_piece 10 left))) }
    ensures end { IfOk result (λ found. IfSome (B.remaining source.old) (λ left. IsTrue found ↔ (left ≢ []))) }
    ensures whole { OnOk result (All (λ byte. byte ≢ 10) line.new.items) }
    ensures short { OnOk result (vec_len line.new ≤ 121) }
    ensures rest { OnOk result (DropsThrough (B.remaining source.old) (B.remaining source.new) 10) }
{
    line.clear();
    // Each loop has to end and a line may not, so this one ends by a count that no line reaches.
    for _ in 0..u64::MAX {
        match take_part(source, line)? {
            Stop::LineEnd => return Ok(true),
            Stop::ChunkEnd => {}
            Stop::SourceEnd => return Ok(!line.is_empty()),
        }
    }
    Err(ErrorKind::TimedOut.into())
}

impl<S: Read + Drop> Feed<S> {
    pub fn new(rt: &HostRuntime, source: S) -> io::Result<Feed<S>> {
        let heap = rt.alloc();
        // Nothing stands behind the source, so that its end is met once and not waited for again.
        Ok(Feed {
            source: BufReader::new(heap, source.chain(io::empty()))?,
            line: Vec::new(heap),
            answers: BufWriter::new(heap, rt.stdout())?,
        })
    }

    // The next line.
    pub fn next_line(&mut self) -> io::Result<Option<&[u8]>> {
        if !self.source.buffer().contains(&b'\n') {
            // Answers are out before more input is waited for.
            self.answers.flush()?;
        }
        Ok(take_line(&mut self.source, &mut self.line)?.then_some(self.line.as_slice()))
    }

    // Notes what a line brings.
    pub fn answer(&mut self, line: Result<Answer, Fault>) -> io::Result<()> {
        // Every answer line fits.
        let mut text = [0u8; LONGEST];
        let Ok(end) = write_answer(&mut text, 0, line) else {
            unreachable!()
        };
        self.answers.write_all(&text[..end])
    }

    // Lets go of answers that could not be written: where it is dropped, the writer would try once more.
    pub fn close(self) {
        let _ = self.answers.into_parts();
    }
}
