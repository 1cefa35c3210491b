//! Runs the cases of a script.
#![tactic(auto)]

mod building;
mod cases;
mod halt;
mod reports;
mod running;
mod session;
mod telling;
mod tokens;
mod words;

use halt::Halt;
use session::Session;
use std::io;
use std::process::ExitCode;
use std::sync::Wait;
use std::thread::Threads;

// Takes the lines of a script.
fn take_all(
    rt: &(impl AllocGlobal + Threads + Wait + Sync),
    session: &mut Session,
    script: &str,
) -> Result<(), Halt> {
    for line in script.lines() {
        session.take(rt, line)?;
    }
    session.end()
}

fn main(rt: HostRuntime) -> io::Result<ExitCode> {
    let script = io::read_to_string(rt.alloc(), rt.reader())?;
    let Ok(mut session) = Session::new(rt.alloc()) else {
        return Ok(ExitCode::from(2));
    };
    let taken = take_all(&rt, &mut session, script.as_str());
    let told = session.telling.text.as_str();
    print!(rt; "{told}")?;
    if let Err(Halt { why }) = taken {
        let line = session.telling.line;
        println!(rt; "line {line}: {why}")?;
        return Ok(ExitCode::from(2));
    }
    Ok(ExitCode::from(if session.wrong == 0 { 0 } else { 1 }))
}
