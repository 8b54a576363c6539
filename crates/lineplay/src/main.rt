// Plays a script: one answer line for each line that comes in.
#![tactic(auto)]

mod feed;

use driver::{Opening, ScriptRank, first_line, play_line};
use engine::Engine;
use feed::Feed;
use forms::RankKind;
use plant::{NumberList, Table};
use ranks::{Due, Grade};
use rules::Answer;
use std::io::Read;
use std::process::ExitCode;
use std::{env, fs, io};

// As in `plantimage`: a crate of its own for these ten lines would be no plainer.
fn main(rt: HostRuntime) -> ExitCode {
    match run(&rt) {
        Ok(code) => code,
        Err(error) => {
            let _ = eprintln!(rt; "lineplay: {error}");
            ExitCode::FAILURE
        }
    }
}

// Two messages, each where it comes up: a type of them, as in `plantimage`, would be longer than they are.
fn run(rt: &HostRuntime) -> io::Result<ExitCode> {
    let words: Vec<String> = env::args(rt)?.collect(rt.alloc())?;
    match words.as_slice() {
        [_] => play(rt, rt.stdin())?,
        [_, file] => {
            if let Err(error) = play_file(rt, file.as_str()) {
                eprintln!(rt; "lineplay: cannot play {file}: {error}")?;
                return Ok(ExitCode::FAILURE);
            }
        }
        _ => {
            eprintln!(rt; "usage: lineplay < SCRIPT\n       lineplay FILE")?;
            return Ok(ExitCode::FAILURE);
        }
    }
    Ok(ExitCode::SUCCESS)
}

fn play_file(rt: &HostRuntime, file: &str) -> io::Result<()> {
    play(rt, fs::open(rt, file)?)
}

// However the script goes, nothing is written behind a write that failed.
fn play<S: Read + Drop>(rt: &HostRuntime, source: S) -> io::Result<()> {
    let mut feed = Feed::new(rt, source)?;
    let played = play_script(&mut feed);
    feed.close();
    played
}

// One table of zeros and one engine for the whole script.
fn play_script<S: Read + Drop>(feed: &mut Feed<S>) -> io::Result<()> {
    let Some(opening) = until_open(feed)? else {
        return Ok(());
    };
    let mut numbers = [0i32; 256];
    let count = usize::from(opening.count);
    play_opened(feed, opening.kind, open_engine(&mut numbers[..count]))
}

// Apart and not inlined, as `play_opened` is, since an engine is large: so fewer copies of it lie on the stack at a time.
#[inline(never)]
fn open_engine(numbers: &mut [i32]) -> Engine<NumberList<'_>> {
    Engine::open(NumberList::new(numbers))
}

// The lines behind the open, with one rank list of its kind.
#[inline(never)]
fn play_opened<S: Read + Drop, T: Table + Drop>(
    feed: &mut Feed<S>,
    kind: RankKind,
    mut engine: Engine<T>,
) -> io::Result<()> {
    let played = match kind {
        RankKind::Grade => play_on(feed, &mut engine, &mut [Grade(0); 16]),
        RankKind::Due => {
            let due = Due {
                minute: 0,
                weight: 0,
            };
            play_on(feed, &mut engine, &mut [due; 16])
        }
    };
    drop(engine.close());
    played
}

// Up to the open each line is faulty; `None` where no open comes.
fn until_open<S: Read + Drop>(feed: &mut Feed<S>) -> io::Result<Option<Opening>> {
    // Each loop has to end and an input may not, so this one ends by a count that no input reaches.
    for _ in 0..u64::MAX {
        let Some(line) = feed.next_line()? else {
            break;
        };
        let opened = first_line(line);
        feed.answer(opened.map(|_| Answer::Done))?;
        if let Ok(opening) = opened {
            return Ok(Some(opening));
        }
    }
    Ok(None)
}

// The lines behind the open. One loop for both would bring a value from each line, of which this one has none.
fn play_on<S: Read + Drop, T: Table, K: ScriptRank>(
    feed: &mut Feed<S>,
    engine: &mut Engine<T>,
    ranks: &mut [K],
) -> io::Result<()> {
    // Bounded as above.
    for _ in 0..u64::MAX {
        let Some(line) = feed.next_line()? else {
            break;
        };
        let answer = play_line(engine, ranks, line);
        feed.answer(answer)?;
    }
    Ok(())
}
