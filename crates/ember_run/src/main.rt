// The running program: the first argument names a job's file, the second a values file. It prints the number in the work table, kind, a and b of each
// entry of the result, then where the result begins and how many entries it has; or only the refusal and its place. What cannot be run on is told on
// standard error, and then nothing is printed: a file that cannot be read or whose name is not UTF-8, a values file of more than 2 MiB, another number of
// arguments.
// The tables have full capacity. Of the job it reads the first 43,520 bytes: with these tables running them is running the whole job, however long
// (`first_bytes_suffice` in proofs/Whole).
#![tactic(auto)]

ghost use Rattle.std.specs.Prelude.{◌≡◌, ◌++◌, ◌≤◌, length, IfOk, IfSome, OnOk};
ghost use Rattle.std.specs.Io.KnownBytes.{Appends};
ghost use Rattle.intake.specs.Counts.{IsPrefixLen};
ghost use Rattle.report.specs.Text.{stretch_lines, stretch_line};
ghost use Rattle.ember_run.specs.Prints.{run_text};

use ran::Ran;
use std::env::{Env, FillError};
use std::fmt::Display;
use std::fs::File;
use std::io;
use std::io::Write;

// The system's numbers of an argument that is not there, of a name that is too long, and of one that is no text.
const EINVAL: i32 = 22;

const ENAMETOOLONG: i32 = 36;

const EILSEQ: i32 = 84;

// Room for the values, and for one byte more: a file that fills it is too long.
fn values_room() -> [u8; 2097153]
    ensures { 2097153 ≡ length result }
{
    [0; 2097153]
}

// How many bytes a value takes as text, which goes to the front of a room as far as that holds it.
fn spell<D: Display + Drop>(room: &mut [u8], value: D) -> usize
    ensures { result ≤ length room.new }
{
    let all = room.len();
    let mut rest = &mut room[..];
    let _ = rest.write_fmt(value);
    let left = rest.len();
    all.saturating_sub(left)
}

// Why it failed, in the system's words, without the number in brackets that std puts behind them.
fn reason(e: io::Error, room: &mut [u8]) -> usize
    ensures { result ≤ length room.new }
{
    let all = spell(room, e);
    match e.raw_os_error() {
        Some(code) => {
            let mut number = [0u8; 64];
            all.saturating_sub(spell(&mut number, format_args!(" (os error {code})")))
        }
        None => all,
    }
}

// Tells on standard error what failed and why. What cannot be told is left out.
fn tell(rt: HostRuntime, what: &[u8], e: io::Error) {
    let mut text = [0u8; 256];
    let n = reason(e, &mut text);
    let mut out = rt.stderr();
    let _ = out.write_all(what);
    let _ = out.write_all(b": ");
    let _ = out.write_all(&text[..n]);
    let _ = out.write_all(b"\n");
}

// Why an argument is not there as a whole, by the system's number.
fn not_there(why: FillError) -> io::Error {
    io::Error::from_raw_os_error(match why {
        FillError::NotPresent => EINVAL,
        FillError::TooLong => ENAMETOOLONG,
    })
}

// Reads the file of a name into a room. Paths of std are UTF-8, so another name is refused.
fn read_file(rt: HostRuntime, name: &[u8], room: &mut [u8]) -> io::Result<usize>
    ensures { IfOk result (λ n. IsPrefixLen n room.new) }
{
    let Ok(path) = str::from_utf8(name) else {
        return Err(io::Error::from_raw_os_error(EILSEQ));
    };
    let mut file = File::open(&rt, path)?;
    let got = intake::fill(&mut file, room);
    match got.failed {
        Some(e) => Err(e),
        None => Ok(got.bytes),
    }
}

// Reads the file that an argument names into a room, or says why it cannot.
fn load(rt: HostRuntime, i: usize, room: &mut [u8]) -> Option<usize>
    ensures { IfSome result (λ n. IsPrefixLen n room.new) }
{
    let mut name = [0u8; 4096];
    let n = match rt.arg(i, &mut name) {
        Ok(n) => n,
        Err(why) => {
            tell(rt, b"a file's name", not_there(why));
            return None;
        }
    };
    match read_file(rt, &name[..n], room) {
        Ok(bytes) => Some(bytes),
        Err(e) => {
            tell(rt, &name[..n], e);
            None
        }
    }
}

// Says that the file that an argument names is longer than its room.
fn too_long(rt: HostRuntime, i: usize) {
    let mut name = [0u8; 4096];
    let n = rt.arg(i, &mut name).unwrap_or(0);
    let mut out = rt.stderr();
    let _ = out.write_all(&name[..n]);
    let _ = out.write_all(b": longer than 2097152 bytes, the most that is read\n");
}

// An accepted run: the result's entries, then where they stand.
fn accepted<W: Write>(out: &mut W, work: &[u16], ran: &Ran) -> io::Result<()>
    ensures { OnOk result (Appends (W.contents out.old) (W.contents out.new) (stretch_lines work.now ran.now.first ran.now.length ++ stretch_line ran.now.first ran.now.length)) }
{
    report::stretch(out, work, ran.first, ran.length)?;
    report::result_at(out, ran.first, ran.length)
}

// The operation on a job and values, and what is printed of it.
fn outcome<W: Write>(
    out: &mut W,
    job: &[u8],
    values: &[u8],
    types: &mut [u16],
    query: &mut [u16],
    work: &mut [u16],
) -> io::Result<()>
    ensures { OnOk result (Appends (W.contents out.old) (W.contents out.new) (run_text job.now values.now (length types.old) (length query.old) (length work.old))) }
{
    match emberstitch::run_job(job, values, types, query, work) {
        Ok(ran) => accepted(out, work, &ran),
        Err(refusal) => report::refused(out, refusal),
    }
}

// A job on the values of the second argument's file.
fn run_on(rt: HostRuntime, job: &[u8]) -> io::Result<()> {
    let mut values = values_room();
    let Some(n) = load(rt, 2, &mut values) else {
        return Ok(());
    };
    if n == values.len() {
        too_long(rt, 2);
        return Ok(());
    }
    let mut types = [0u16; 12288];
    let mut query = [0u16; 4096];
    let mut work = [0u16; 24576];
    outcome(
        &mut rt.stdout(),
        job,
        &values[..n],
        &mut types,
        &mut query,
        &mut work,
    )
}

// The job of the first argument's file, on the values of the second's.
fn run(rt: HostRuntime) -> io::Result<()> {
    let mut job = [0u8; 43520];
    let Some(n) = load(rt, 1, &mut job) else {
        return Ok(());
    };
    run_on(rt, &job[..n])
}

// Whether the program has such an argument, however long.
fn is_given(rt: HostRuntime, i: usize) -> bool {
    let mut byte = [0u8; 1];
    !matches!(rt.arg(i, &mut byte), Err(FillError::NotPresent))
}

fn main(rt: HostRuntime) -> io::Result<()> {
    if !is_given(rt, 2) || is_given(rt, 3) {
        let _ = rt.stderr().write_all(b"usage: ember_run JOB VALUES\n");
        return Ok(());
    }
    run(rt)
}
