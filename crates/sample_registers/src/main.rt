// Runs the script `script`, from the reset state on, and prints what each entry is answered. An entry is four bytes: its
// kind, a number, high first, and a value.
#![tactic(auto)]

use host::files::read_file;
use reply::{Reply, reply_of};
use state::{Answer, State};
use std::io;

// As much of the script as is read.
const SCRIPT: usize = 4096;

// A write's line. The state goes on.
fn written(
    rt: &impl Print,
    word: &str,
    number: u16,
    value: u8,
    answer: Answer,
) -> io::Result<State> {
    let reply = answer.reply;
    println!(rt; "{word} {number} {value}: {}", u8::from(reply))?;
    Ok(answer.state)
}

// A read's line, with 0 where it is refused.
fn told(rt: &impl Print, word: &str, number: u16, reading: Result<u8, Reply>) -> io::Result<()> {
    let reply = u8::from(reply_of(reading));
    println!(rt; "{word} {number}: {reply} {}", reading.unwrap_or(0))
}

fn write_register(rt: &impl Print, s: State, number: u8, value: u8) -> io::Result<State> {
    let answer = registers::write_register(s, number, value);
    written(rt, "wr", u16::from(number), value, answer)
}

fn write_port(rt: &impl Print, s: State, port: u16, value: u8) -> io::Result<State> {
    written(rt, "wp", port, value, registers::write_port(s, port, value))
}

fn read_register(rt: &impl Print, s: State, number: u8) -> io::Result<State> {
    let reading = registers::read_register(s, number);
    told(rt, "rr", u16::from(number), reading)?;
    Ok(s)
}

fn read_port(rt: &impl Print, s: State, port: u16) -> io::Result<State> {
    told(rt, "rp", port, registers::read_port(s, port))?;
    Ok(s)
}

fn next_frame(rt: &impl Print, s: State) -> io::Result<State> {
    let answer = frame::next_frame(s);
    let reply = answer.reply;
    println!(rt; "nf: {}", u8::from(reply))?;
    Ok(answer.state)
}

fn reset(rt: &impl Print) -> io::Result<State> {
    println!(rt; "rs: {}", u8::from(Reply::Done))?;
    Ok(state::reset())
}

// One entry, and the state after it.
fn step(rt: &impl Print, s: State, kind: u8, high: u8, low: u8, value: u8) -> io::Result<State> {
    let port = u16::from(high) * 256 + u16::from(low);
    match kind {
        0 => write_register(rt, s, low, value),
        1 => write_port(rt, s, port, value),
        2 => read_register(rt, s, low),
        3 => read_port(rt, s, port),
        4 => next_frame(rt, s),
        _ => reset(rt),
    }
}

fn run(rt: &impl Print, script: &[u8]) -> io::Result<()> {
    let mut s = state::reset();
    for at in 0..script.len() / 4 {
        let i = at * 4;
        s = step(
            rt,
            s,
            script[i],
            script[i + 1],
            script[i + 2],
            script[i + 3],
        )?;
    }
    Ok(())
}

fn main(rt: HostRuntime) -> io::Result<()> {
    let mut buffer = [0u8; SCRIPT];
    match read_file(&rt, b"script", &mut buffer)? {
        Some(n) => run(&rt, &buffer[..n]),
        None => println!(rt; "no script"),
    }
}
