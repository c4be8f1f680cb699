// The program: the real files, input, output and standard error under the top call, with the largest limits.
#![tactic(auto)]

use obs_engine::{Limits, serve};
use obs_io::{DirFiles, FromRead, ToWrite};
use obs_notice::{Noted, or_status, words_of};
use std::io;
use std::process::ExitCode;

fn main(rt: HostRuntime) -> ExitCode {
    let words = match or_status(rt.alloc(), words_of(&rt)) {
        Ok(words) => words,
        Err(status) => return ExitCode::from(status.code()),
    };
    let mut files = Noted::new(DirFiles::new(&rt, &words));
    let mut input = FromRead::new(rt.reader());
    let mut output = ToWrite::new(io::writer(&rt));
    let stderr = rt.stderr();
    let mut errors = ToWrite::new(io::writer(&stderr));
    let status = serve(
        rt.alloc(),
        Limits::large(),
        &words,
        &mut files,
        &mut input,
        &mut output,
        &mut errors,
    );
    ExitCode::from(status.code())
}
