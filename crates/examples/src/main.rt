// The one example of document 01 that is not starred: a psf with the sum 1,024 is taken, and one with 1,025 draws 6, here at
// the autocorrelation and at a start. Then numbers as they are written (C-13), with the bytes before and after them. The
// file stdout beside src/ is what must be printed.
#![tactic(auto)]

ghost use Rattle.std.specs.Prelude.{◌≤◌, length};

use model::{Measures, Reason, Setting};
use std::io;
use std::io::{Print, Write};
use text_decimal::put_number;

// the psf with that last entry
fn psf_to(last: u8) -> [u8; 9] {
    [255, 255, 255, 255, 4, 0, 0, 0, last]
}

// what was called with such a psf, and whether it was taken
fn print_answer<R: Print, T: Drop>(
    rt: &R,
    name: &str,
    last: u8,
    answer: Result<T, Reason>,
) -> io::Result<()> {
    print!(rt; "{name}, psf 255 255 255 255 4 0 0 0 {last}: ")?;
    match answer {
        Ok(_) => println!(rt; "taken"),
        Err(reason) => println!(rt; "refused {reason}"),
    }
}

fn autocorrelation<R: Print>(rt: &R, last: u8) -> io::Result<()> {
    let answer = filter::autocorrelation(1, &psf_to(last), &mut [0; 25]);
    print_answer(rt, "autocorrelation", last, answer)
}

fn start<R: Print>(rt: &R, last: u8) -> io::Result<()> {
    let setting = Setting {
        measures: Measures {
            width: 1,
            height: 1,
            radius: 1,
            reach: 0,
            start: 0,
        },
        psf: &psf_to(last),
        gray: &[0],
    };
    let answer = starts::start(setting, &mut [0], &mut [0]);
    print_answer(rt, "start", last, answer)
}

// Puts a number at place 1, where every number fits, and answers the place after it.
fn put(out: &mut [u8], n: usize) -> usize
    requires { 21 ≤ length out.old }
{
    put_number(out, 1, n)
}

// a number among bytes `x`
fn print_number<R: Print>(rt: &R, n: usize) -> io::Result<()> {
    let mut out = *b"xxxxxxxxxxxxxxxxxxxxxx";
    let next = put(&mut out, n);
    print!(rt; "number {n}: ")?;
    io::writer(rt).write_all(&out)?;
    println!(rt; ", then {next}")
}

fn main(rt: HostRuntime) -> io::Result<()> {
    autocorrelation(&rt, 0)?;
    autocorrelation(&rt, 1)?;
    start(&rt, 0)?;
    start(&rt, 1)?;
    let numbers = [
        0,
        9,
        10,
        99,
        100,
        999,
        1000,
        1001,
        999999,
        1000000,
        usize::MAX,
    ];
    for n in numbers {
        print_number(&rt, n)?;
    }
    Ok(())
}
