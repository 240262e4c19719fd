// Answers numbering cases: those of numbers.txt, compared with the answers recorded there, or those of the input.
#![tactic(auto)]

mod answers;
mod cases;
mod hex;
mod replay;

use answers::answer_line;
use console::Page;
use replay::{Tally, replay};
use std::alloc::AllocError;
use std::fmt::Display;
use std::io::{BufRead, BufReader};
use std::process::ExitCode;
use std::{env, fs, io};

const RECORDED: &str = "numbers.txt";

// The program ends with status 1.
#[derive(Debug, Drop)]
struct Failed;

// What the system refuses.
#[derive(Clone, Copy)]
enum Halt {
    Memory,
    Streams,
}

impl From<AllocError> for Halt {
    fn from(_error: AllocError) -> Halt {
        Halt::Memory
    }
}

impl From<io::Error> for Halt {
    fn from(_error: io::Error) -> Halt {
        Halt::Streams
    }
}

fn main(rt: HostRuntime) -> ExitCode {
    match start(&rt) {
        Ok(()) => ExitCode::SUCCESS,
        Err(_) => ExitCode::FAILURE,
    }
}

// Each program says in words of its own what is wrong, so one function for all of them would be no plainer.
fn start(rt: &HostRuntime) -> Result<(), Failed> {
    match env::args(rt) {
        Ok(args) => match args.skip(1).collect::<Vec<String>>(rt.alloc()) {
            Ok(words) => run(rt, words.as_slice()),
            Err(_) => fail(rt, "there is not enough memory"),
        },
        Err(_) => fail(rt, "the words after the program's name are not text"),
    }
}

fn fail<T: Display + Drop>(rt: &HostRuntime, why: T) -> Result<(), Failed> {
    let _ = eprintln!(rt; "vectors: {why}");
    Err(Failed)
}

fn run(rt: &HostRuntime, words: &[String]) -> Result<(), Failed> {
    match words {
        [] => settle(rt, check_recorded(rt)),
        [word] if word.as_str() == "answer" => settle(rt, answer_input(rt)),
        _ => fail(
            rt,
            "give no word to compare numbers.txt, or 'answer' to answer the cases of the input",
        ),
    }
}

fn settle(rt: &HostRuntime, done: Result<bool, Halt>) -> Result<(), Failed> {
    match done {
        Ok(true) => Ok(()),
        Ok(false) => Err(Failed),
        Err(Halt::Memory) => fail(rt, "there is not enough memory"),
        Err(Halt::Streams) => fail(rt, "a file or a stream cannot be read or written"),
    }
}

// Whether each recorded case is answered as recorded.
fn check_recorded(rt: &HostRuntime) -> Result<bool, Halt> {
    let heap = rt.alloc();
    let text = fs::read_to_string(rt, RECORDED)?;
    let mut page = Page::new(heap);
    let Tally { cases, same } = replay(heap, &mut page, text.as_str())?;
    let other = cases - same;
    writeln!(page, "{cases} cases, {same} as recorded, {other} not")?;
    rt.print(page.as_str())?;
    Ok(other == 0 && cases > 0)
}

// Answers each line of the input.
fn answer_input(rt: &HostRuntime) -> Result<bool, Halt> {
    let heap = rt.alloc();
    for (k, line) in BufReader::new(heap, rt.stdin())?.lines(heap).enumerate() {
        let answer = answer_line(heap, line?.as_str(), k + 1)?;
        rt.println(answer.as_str())?;
    }
    Ok(true)
}
