//! The program `vsim`.
#![tactic(auto)]

use std::io::IsTerminal;
use std::process::ExitCode;
use std::{env, io};
use vs_program::vs_outputs::DiskFile;
use vs_program::vs_preprocess::Disk;
use vs_program::{Counting, Writers, program_on, refuse_start};

/// Runs the program on the words of the call and the standard streams, and answers its exit status.
fn run(rt: &HostRuntime) -> io::Result<u8> {
    let alloc = rt.alloc();
    let words: Vec<String> = env::args(rt)?.collect(alloc)?;
    let mut texts = Vec::new(alloc);
    for word in &words {
        texts.push(word.as_str())?;
    }
    let mut disk = Disk { runtime: rt };
    let mut watch = Counting::new(rt.stderr(), rt.stderr().is_terminal());
    let writers = Writers {
        out: rt.stdout(),
        is_terminal: rt.stdout().is_terminal(),
        text: DiskFile::new(rt),
        dump: DiskFile::new(rt),
        other: DiskFile::new(rt),
    };
    let (status, _) = program_on(
        alloc,
        &texts,
        &mut disk,
        rt.stdin(),
        writers,
        &mut watch,
        rt.stderr(),
    );
    Ok(status)
}

fn main(rt: HostRuntime) -> ExitCode {
    let status = match run(&rt) {
        Ok(status) => status,
        Err(error) => refuse_start(&error, rt.stderr()),
    };
    ExitCode::from(status)
}
