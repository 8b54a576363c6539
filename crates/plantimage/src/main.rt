// Shows the numbers of a plant image, and corrects one of them.
#![tactic(auto)]

use correction::{correct, line, read_element, read_number};
use plant::{Element, Image, Refusal, Table};
use std::fs::File;
use std::io::Write;
use std::process::ExitCode;
use std::{env, fs, io};
use thiserror::Error;

const USAGE: &str = "usage: plantimage show FILE\n       plantimage set FILE ELEMENT NUMBER";

// What stops a run, as its message says it.
#[derive(Debug, Drop, Error)]
enum Failure<'a> {
    #[error("these arguments are not understood\n{USAGE}")]
    Arguments,
    #[error("'{text}' is no element number: write 0 to 65535")]
    NoElement { text: &'a str },
    #[error("'{text}' is no whole number within 64 bits")]
    NoNumber { text: &'a str },
    #[error("cannot read {file}: {error}")]
    NotRead { file: &'a str, error: io::Error },
    #[error("{file}: refused ({}): {}", .refusal.number(), .refusal)]
    Refused { file: &'a str, refusal: Refusal },
    #[error("cannot write {file}: {error}")]
    NotWritten { file: &'a str, error: io::Error },
    #[error(transparent)]
    Printing(#[from] io::Error),
}

// As in `lineplay`: a crate of its own for these ten lines would be no plainer.
fn main(rt: HostRuntime) -> ExitCode {
    match run(&rt) {
        Ok(code) => code,
        Err(error) => {
            let _ = eprintln!(rt; "plantimage: {error}");
            ExitCode::FAILURE
        }
    }
}

fn run(rt: &HostRuntime) -> io::Result<ExitCode> {
    let words: Vec<String> = env::args(rt)?.collect(rt.alloc())?;
    match obey(rt, words.as_slice()) {
        Ok(()) => Ok(ExitCode::SUCCESS),
        // What cannot be printed is said once, by `main`.
        Err(Failure::Printing(error)) => Err(error),
        Err(failure) => {
            eprintln!(rt; "plantimage: {failure}")?;
            Ok(ExitCode::FAILURE)
        }
    }
}

// Called with nothing the program explains itself; called wrongly it fails too.
fn obey<'a>(rt: &HostRuntime, words: &'a [String]) -> Result<(), Failure<'a>> {
    match words {
        [_, command, file] if command.as_str() == "show" => show(rt, file.as_str()),
        [_, command, file, element, number] if command.as_str() == "set" => {
            set(rt, file.as_str(), element.as_str(), number.as_str())
        }
        [] | [_] => Ok(println!(rt; "{USAGE}")?),
        _ => Err(Failure::Arguments),
    }
}

// The handle and the file's name go on as they came; a struct of the two would have nothing to say.
fn read<'a>(rt: &HostRuntime, file: &'a str) -> Result<Vec<u8>, Failure<'a>> {
    fs::read(rt, file).map_err(|error| Failure::NotRead { file, error })
}

fn show<'a>(rt: &HostRuntime, file: &'a str) -> Result<(), Failure<'a>> {
    let mut bytes = read(rt, file)?;
    Image::check(bytes.as_slice()).map_err(|refusal| Failure::Refused { file, refusal })?;
    Ok(list(rt, &Image::open(bytes.as_mut_slice()))?)
}

fn list(rt: &HostRuntime, image: &Image) -> io::Result<()> {
    let count = image.count();
    let lowest = image.lowest();
    let highest = image.highest();
    println!(rt; "count {count}, lowest {lowest}, highest {highest}")?;
    for element in (0..count).map(Element) {
        if let Ok(value) = image.get(element) {
            rt.println(line(rt.alloc(), element, value)?)?;
        }
    }
    Ok(())
}

fn set<'a>(
    rt: &HostRuntime,
    file: &'a str,
    element: &'a str,
    number: &'a str,
) -> Result<(), Failure<'a>> {
    let element = read_element(element).ok_or(Failure::NoElement { text: element })?;
    let number = read_number(number).ok_or(Failure::NoNumber { text: number })?;
    let mut bytes = read(rt, file)?;
    let done = correct(bytes.as_mut_slice(), element, number).map_err(|refusal| Failure::Refused {
        file,
        refusal,
    })?;
    replace(rt, file, bytes.as_slice()).map_err(|error| Failure::NotWritten { file, error })?;
    Ok(println!(rt; "{done}")?)
}

// A crash leaves the old image or the new one, since the new one is complete before it takes the name.
fn replace(rt: &HostRuntime, file: &str, bytes: &[u8]) -> io::Result<()> {
    let beside = format!(in rt.alloc(); "{file}.new")?;
    let written = write_beside(rt, file, beside.as_str(), bytes);
    if written.is_err() {
        let _ = fs::remove_file(rt, beside.as_str());
    }
    written
}

fn write_beside(rt: &HostRuntime, file: &str, beside: &str, bytes: &[u8]) -> io::Result<()> {
    // A copy has the permissions of its source.
    fs::copy(rt, file, beside)?;
    let mut out = File::create(rt, beside)?;
    out.write_all(bytes)?;
    out.sync_all()?;
    drop(out);
    fs::rename(rt, beside, file)
}
