// One answer line in the caller's buffer.
ghost use Rattle.std.specs.Prelude.{◌≡◌, ◌+◌, ◌≤◌, length, if◌then◌else◌, Ok, Err, IsOk, nat_le};
ghost use Rattle.plant.specs.declared.refusals.Refusal.TheVariants.{BufferTooShort};
ghost use Rattle.answers.specs.Placed.{placed};
ghost use Rattle.answers.specs.AnswerText.{answer_bytes, answered, faulted};
ghost use Rattle.answers.specs.Printing.{PrintsRight};

use arrayvec::ArrayString;
use itoa::Buffer;
use plant::Refusal;
use rules::{Answer, Fate};
use script::Fault;

// As many bytes as an answer line may have: the longest is a fault with three digits and twenty.
pub const LONGEST: usize = 33;

// An answer line. Its parts are pushed and not written by `write!`, since that promises nothing of a value whose printing fails,
// and no answer line may fail.
type Line = ArrayString<LONGEST>;

// The line of a call's answer.
fn answer_text(answer: Answer) -> Line
    ensures { result.bytes ≡ answered answer }
{
    let mut text = ArrayString::new();
    match answer {
        Answer::Done => text.push_str("(ok)\n"),
        Answer::Number(value) => {
            text.push_str("(ok ");
            text.push_str(Buffer::new().format(value));
            text.push_str(")\n");
        }
        Answer::WroteBack(element, fate) => {
            text.push_str("(ok ");
            text.push_str(Buffer::new().format(element.0));
            text.push_str(match fate {
                Fate::Written => " written)\n",
                Fate::Dropped => " dropped)\n",
            });
        }
        Answer::Wait => text.push_str("(wait)\n"),
        Answer::Lost => text.push_str("(lost)\n"),
        Answer::Refused(refusal) => {
            text.push_str("(no ");
            text.push_str(Buffer::new().format(refusal.number()));
            text.push_str(")\n");
        }
    }
    text
}

// The line of a fault.
fn fault_text(fault: Fault) -> Line
    ensures { result.bytes ≡ faulted fault }
{
    let mut text = ArrayString::new();
    text.push_str("(fault ");
    text.push_str(Buffer::new().format(fault.refusal.number()));
    text.push_str(" ");
    text.push_str(Buffer::new().format(fault.place));
    text.push_str(")\n");
    text
}

// Writes what a line of a script brings, the call's answer or the line's own fault, from a place on, and gives the place
// behind; a buffer that is too short, or a place beyond it, is refused, and the buffer left as it is. The place stands beside the
// buffer, since a place beyond it is refused too, and `&mut out[at..]` would stop there.
pub fn write_answer(
    out: &mut [u8],
    at: usize,
    line: Result<Answer, Fault>,
) -> Result<usize, Refusal>
    ensures answer { result ≡ (if nat_le (at + length (answer_bytes line)) (length out.old) then Ok (at + length (answer_bytes line)) else Err BufferTooShort) }
    ensures after { out.new ≡ (if nat_le (at + length (answer_bytes line)) (length out.old) then placed at (answer_bytes line) out.old else out.old) }
    ensures fits { at + 33 ≤ length out.old → IsOk result }
{
    let text = match line {
        Ok(answer) => answer_text(answer),
        Err(fault) => fault_text(fault),
    };
    let bytes = text.as_str().as_bytes();
    let end = at
        .checked_add(bytes.len())
        .filter(|end| *end <= out.len())
        .ok_or(Refusal::BufferTooShort)?;
    out[at..end].copy_from_slice(bytes);
    Ok(end)
}

// The law that every number of 64 bits is printed right.
pub fn prints_right()
    ensures { PrintsRight }
{}
