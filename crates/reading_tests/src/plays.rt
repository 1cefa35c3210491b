//! Which messages are due at the lines of a script, and which bytes are one.
ghost use Rattle.std.specs.Prelude.{IfOk};
ghost use Rattle.play_clock.specs.Times.{TimesRise, times_of};

use mcap_model::{Place, Replayed, Shown};
use mcap_wire::Bytes;
use play_clock::{ScriptRefused, play, read_script};
use std::alloc::Global;
use std::test::Fail;

// A replay of messages with these log times, of which none is before an earlier one.
fn replayed(alloc: Global, times: &[u64]) -> Result<Replayed, Fail>
    ensures { IfOk result (λ list. TimesRise (times_of list.shown.items)) }
{
    let mut shown = Vec::new(alloc);
    let mut last: u64 = 0;
    'times: for i in 0..times.len() {
        last = last.max(times[i]);
        shown.push(Shown {
            place: Place { top: 34, inner: 0 },
            log_time: last,
            publish_time: 9,
            channel: 1,
            sequence: 1,
            payload: Bytes::new(Vec::new(alloc)),
        })?;
    }
    return Ok(Replayed {
        topics: Vec::new(alloc),
        shown,
    });
}

// Whether these are due at the lines of the script.
fn plays(
    alloc: Global,
    times: &[u64],
    script: &[u8],
    wanted: &[(usize, usize)],
) -> Result<bool, Fail> {
    let list = match replayed(alloc, times) {
        Ok(list) => list,
        Err(why) => return Err(why),
    };
    let Ok(lines) = read_script(alloc, script) else {
        return Ok(false);
    };
    let Ok(stretches) = play(alloc, &list, &lines) else {
        return Ok(false);
    };
    if stretches.len() != wanted.len() {
        return Ok(false);
    }
    for i in 0..wanted.len() {
        if (stretches[i].from, stretches[i].to) != wanted[i] {
            return Ok(false);
        }
    }
    return Ok(true);
}

// At which line the script is refused; 0 where it has too many lines, or none is.
fn bad_line(alloc: Global, script: &[u8]) -> u64 {
    match read_script(alloc, script) {
        Err(ScriptRefused::BadLine { line }) => line,
        _ => 0,
    }
}

fn lines_in(alloc: Global, script: &[u8]) -> Option<usize> {
    match read_script(alloc, script) {
        Ok(lines) => Some(lines.len()),
        Err(_) => None,
    }
}

fn has_too_many(alloc: Global, script: &[u8]) -> bool {
    match read_script(alloc, script) {
        Err(ScriptRefused::TooMany) => true,
        _ => false,
    }
}

// The first moment is that of the first message; at half the speed a message is due between two moments.
#[test]
fn messages_are_due(rt: HostRuntime) -> Result<(), Fail> {
    let alloc = rt.alloc();
    let two = plays(
        alloc,
        &[10, 11],
        b"at 100\nat 100\nat 101\n",
        &[(0, 1), (1, 1), (1, 2)],
    )?;
    let none = plays(
        alloc,
        &[],
        b"at 5\nat 6\nseek 7 3\n",
        &[(0, 0), (0, 0), (0, 0)],
    )?;
    let empty = plays(alloc, &[10, 11], b"", &[])?;
    let steps = plays(
        alloc,
        &[0, 1, 2, 499, 500, 501],
        b"rate 0 1 2\nat 1\nat 2\nat 3\nat 5\nat 999\nat 1000\n",
        &[(0, 1), (1, 1), (1, 2), (2, 2), (2, 3), (3, 4), (4, 5)],
    )?;
    assert!(rt; two && none && empty && steps);
    Ok(())
}

// A seek shows again what was shown, also as the first line and to the same time; it changes neither a pause nor the rate.
#[test]
fn seeks(rt: HostRuntime) -> Result<(), Fail> {
    let alloc = rt.alloc();
    let half = plays(
        alloc,
        &[10, 11],
        b"rate 0 1 2\nat 1\nat 2\nseek 5 11\nseek 6 10\nat 8\n",
        &[(0, 1), (1, 1), (1, 2), (1, 2), (0, 1), (1, 2)],
    )?;
    let first = plays(
        alloc,
        &[10, 12, 12, 20],
        b"seek 7 12\nseek 7 12\nat 15\nseek 15 21\nat 99\n",
        &[(1, 3), (1, 3), (3, 4), (4, 4), (4, 4)],
    )?;
    let paused = plays(
        alloc,
        &[10, 12, 20],
        b"pause 0\nseek 5 12\nat 9\nseek 9 10\nresume 20\nat 22\n",
        &[(0, 1), (1, 2), (2, 2), (0, 1), (1, 1), (1, 2)],
    )?;
    assert!(rt; half && first && paused);
    Ok(())
}

// The clock stops between a pause and the line that lets it run again; values may pass the last time that can be told.
#[test]
fn pauses_and_the_last_times(rt: HostRuntime) -> Result<(), Fail> {
    let alloc = rt.alloc();
    let paused = plays(
        alloc,
        &[10, 12, 12, 20],
        b"at 0\npause 1\nat 5\nresume 6\nat 7\nat 15\n",
        &[(0, 1), (1, 1), (1, 1), (1, 1), (1, 3), (3, 4)],
    )?;
    let last = plays(
        alloc,
        &[0, 18446744073709551614, 18446744073709551615],
        b"rate 0 1000000 1\nat 18446744073709\nat 18446744073710\nat 18446744073709551615\n",
        &[(0, 1), (1, 1), (1, 3), (3, 3)],
    )?;
    let slow = plays(
        alloc,
        &[0, 18446744073709, 18446744073710],
        b"rate 0 1 1000000\nat 18446744073709551615\nat 18446744073709551615\n",
        &[(0, 1), (1, 2), (2, 2)],
    )?;
    assert!(rt; paused && last && slow);
    Ok(())
}

#[test]
fn lines_that_are_none(rt: HostRuntime) -> Result<(), Fail> {
    let alloc = rt.alloc();
    let firsts: [&[u8]; 14] = [
        b"at",
        b"at\n",
        b"at 1",
        b"\n",
        b"at  1\n",
        b"at 1 \n",
        b"At 1\n",
        b"at 1\r\n",
        b"at +1\n",
        b"at 18446744073709551616\n",
        b"at 000000000000000000001\n",
        b"rate 1 0 1\n",
        b"rate 1 1 0\n",
        b"rate 1 1000001 1\n",
    ];
    for script in firsts {
        assert!(rt; bad_line(alloc, script) == 1);
    }
    let later = bad_line(alloc, b"at 1\nseek 2\n") == 2
        && bad_line(alloc, b"at 1\nat 2\nat 1\n") == 3
        && bad_line(alloc, b"at 1\nat 2") == 2;
    let good = lines_in(alloc, b"") == Some(0)
        && lines_in(alloc, b"at 00000000000000000001\nat 1\n") == Some(2)
        && lines_in(alloc, b"seek 18446744073709551615 18446744073709551615\n") == Some(1)
        && lines_in(alloc, b"rate 1 1000000 1000000\n") == Some(1);
    assert!(rt; later && good);
    Ok(())
}

// A million lines are a script; with one more there are too many, whatever they are.
#[test]
fn a_million_lines(rt: HostRuntime) -> Result<(), Fail> {
    let alloc = rt.alloc();
    let mut bytes = Vec::new(alloc);
    for _ in 0..1_000_000 {
        bytes.extend_from_slice(b"at 1\n")?;
    }
    let many = lines_in(alloc, &bytes) == Some(1_000_000);
    bytes.push(b'\n')?;
    assert!(rt; many && has_too_many(alloc, &bytes));
    Ok(())
}
