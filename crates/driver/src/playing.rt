// A line of a script, played on an engine.
ghost use Rattle.driver.specs.Playing.{Opens, Plays};

use super::asked::ScriptRank;
use super::opening::Opening;
use engine::Engine;
use forms::Form;
use plant::Table;
use rules::Answer;
use script::{Fault, read_line};

// A line before the open.
pub fn first_line(line: &[u8]) -> Result<Opening, Fault>
    ensures { Opens line.now result }
{
    let Form::Open { count, kind } = read_line(None, line)? else {
        // Before an open, nothing else is in turn.
        unreachable!()
    };
    Ok(Opening { count, kind })
}

// A line after an open with ranks of this kind.
pub fn play_line<T: Table, K: ScriptRank>(
    engine: &mut Engine<T>,
    ranks: &mut [K],
    line: &[u8],
) -> Result<Answer, Fault>
    ensures { Plays K.KIND K.call_of T.meaning K.above engine.old ranks.old line.now result engine.new ranks.new }
{
    let form = read_line(Some(K::KIND), line)?;
    let Some(call) = K::call_of(form) else {
        // Every form that is in turn asks for a call.
        unreachable!()
    };
    Ok(engine.perform(ranks, call))
}
