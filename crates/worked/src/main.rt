// Runs vectors through the public operations, each with tables and a buffer of exactly the lengths that it gives, and prints for each its name and what
// came of it. Typing a job (0): what the typing program prints. Answering a job (1): the answer file's bytes in hex, or the refusal. Reading an answer
// file (2): the entries as for typing, the definitions, the result, or the refusal. Running a job (3): the entries of the work table, where the result
// begins and its length, or the refusal.
// Standard input has one vector after the other, in words of two bytes with the low byte first: the length of the name, the operation, the lengths of the
// type table and of the query table in words, of the answer buffer in bytes, of the work table in words, of the job or answer file and of the values file
// in bytes; then the name, the job or answer file, and the values file.
// Beside the lines it looks at all that the operation was lent: it is zero after a refusal, and behind the entries or the answer after an acceptance. The
// type table and the query table of a run are word for word those that typing the job leaves.
#![tactic(auto)]

ghost use Rattle.std.specs.Prelude.{◌≡◌, true, ℕ, ◌≤◌, ◌<◌, length, get_or, drop};
ghost use Rattle.intake.specs.Counts.{IsPrefixLen};

use answered::Answered;
use back::Back;
use ran::Ran;
use reading::Given;
use refusals::Refusal;
use std::io;
use std::io::{Read, Write};
use typed::Typed;

// What stands in the tables and in the buffer before: what an operation promises of a table it promises of every word. They are longer than any job can use.
const OLD: u16 = 43690;

// Reads the next n bytes of the input to the front of a buffer, as many as there are and as it holds; the bytes behind stay.
fn read_next<R: Read>(input: &mut R, buf: &mut [u8], n: usize) -> usize
    ensures prefix_len { IsPrefixLen result buf.new }
    ensures upper_bound { result ≤ n }
    ensures buf_unchanged { drop n buf.new ≡ drop n buf.old }
{
    if n > buf.len() {
        return 0;
    }
    intake::fill(input, &mut buf[..n]).bytes
}

// Whether all words from a place on are zero.
fn is_clean(words: &[u16], from: usize) -> bool
    ensures { result ≡ true → (k : ℕ) → from ≤ k → k < length words.now → get_or words.now k 0 ≡ 0 }
{
    words.iter().skip(from).all(|word| *word == 0)
}

// Whether all bytes from a place on are zero.
// kept: a generic function of both would have to say for each type what its zero is.
fn is_clean_after(bytes: &[u8], from: usize) -> bool
    ensures { result ≡ true → (k : ℕ) → from ≤ k → k < length bytes.now → get_or bytes.now k 0 ≡ 0 }
{
    bytes.iter().skip(from).all(|byte| *byte == 0)
}

// Whether all words behind so many entries and so many nodes are zero.
fn is_clean_behind(types: &[u16], count: usize, query: &[u16], nodes: usize) -> bool {
    count <= 4096 && nodes <= 1024 && is_clean(types, 3 * count) && is_clean(query, 4 * nodes)
}

fn tell<W: Write>(out: &mut W, clean: bool) -> io::Result<()> {
    if clean {
        return Ok(());
    }
    out.write_all(b"what was lent is not clean\n")
}

// ---- Typing

// An accepted job: its entries and its result.
fn accepted<W: Write>(out: &mut W, types: &[u16], query: &[u16], typed: &Typed) -> io::Result<()> {
    report::table(out, types, typed.types)?;
    report::result(out, typed.result)?;
    tell(out, is_clean_behind(types, typed.types, query, typed.nodes))
}

// A refused job: the refusal alone.
fn refused<W: Write>(
    out: &mut W,
    types: &[u16],
    query: &[u16],
    refusal: Refusal,
) -> io::Result<()> {
    report::refused(out, refusal)?;
    tell(out, is_clean_behind(types, 0, query, 0))
}

// The operation on a job, and what is printed of it.
fn type_it<W: Write>(
    out: &mut W,
    job: &[u8],
    types: &mut [u16],
    query: &mut [u16],
) -> io::Result<()> {
    match emberstitch::type_job(job, types, query) {
        Ok(typed) => accepted(out, types, query, &typed),
        Err(refusal) => refused(out, types, query, refusal),
    }
}

// ---- Answering

// The first bytes of a buffer, in hex, each after a space.
fn print_bytes<W: Write>(out: &mut W, bytes: &[u8], n: usize) -> io::Result<()> {
    for byte in bytes.iter().take(n) {
        write!(out, " {byte:02x}")?;
    }
    Ok(())
}

// An answered job: its file.
fn answered<W: Write>(
    out: &mut W,
    types: &[u16],
    query: &[u16],
    answer: &[u8],
    told: &Answered,
) -> io::Result<()> {
    out.write_all(b"answer")?;
    print_bytes(out, answer, told.length)?;
    out.write_all(b"\n")?;
    tell(out, is_clean_behind(types, told.types, query, told.nodes))?;
    tell(out, is_clean_after(answer, told.length))
}

// The operation on a job, and what is printed of it.
fn answer_it<W: Write>(
    out: &mut W,
    job: &[u8],
    types: &mut [u16],
    query: &mut [u16],
    answer: &mut [u8],
) -> io::Result<()> {
    match emberstitch::answer_job(job, types, query, answer) {
        Ok(told) => answered(out, types, query, answer, &told),
        Err(refusal) => {
            refused(out, types, query, refusal)?;
            tell(out, is_clean_after(answer, 0))
        }
    }
}

// ---- Reading an answer file

// The first definitions, a line for each: its number and its type.
fn print_definitions<W: Write>(out: &mut W, defs: &[u16], n: usize) -> io::Result<()> {
    for (d, e) in defs.iter().take(n).enumerate() {
        writeln!(out, "definition {d} {e}")?;
    }
    Ok(())
}

// An accepted file: its entries, its definitions and its result. Nothing is given behind the definitions.
fn read_back<W: Write>(out: &mut W, types: &[u16], back: &Back) -> io::Result<()> {
    let defs = &back.given.defs;
    let used = back.given.used;
    report::table(out, types, back.types)?;
    print_definitions(out, defs, used)?;
    report::result(out, back.result)?;
    tell(out, is_clean_behind(types, back.types, &[], 0))?;
    tell(out, is_clean(defs, used) && is_clean(&back.given.vars, 0))
}

// The operation on a file, and what is printed of it. There is no query.
fn read_it<W: Write>(out: &mut W, file: &[u8], types: &mut [u16]) -> io::Result<()> {
    match emberstitch::read_answer(file, types) {
        Ok(back) => read_back(out, types, &back),
        Err(refusal) => refused(out, types, &[], refusal),
    }
}

// ---- Running

// Whether the same is given.
fn is_same(given: &Given, other: &Given) -> bool {
    given.used == other.used
        && given.declared == other.declared
        && given.defs == other.defs
        && given.vars == other.vars
}

// Types a job in the front of each table, so many words.
fn type_within(
    job: &[u8],
    types: &mut [u16],
    a: usize,
    query: &mut [u16],
    b: usize,
) -> Result<Typed, Refusal>
    requires types_inside { a ≤ length types.old }
    requires query_inside { b ≤ length query.old }
{
    emberstitch::type_job(job, &mut types[..a], &mut query[..b])
}

// Whether typing the job by itself gives and leaves the same.
fn is_as_typed(job: &[u8], types: &[u16], query: &[u16], ran: &Ran) -> bool {
    let mut other_types = [OLD; 12300];
    let mut other_query = [OLD; 4104];
    let (a, b) = (types.len(), query.len());
    if a > other_types.len() || b > other_query.len() {
        return false;
    }
    let Ok(typed) = type_within(job, &mut other_types, a, &mut other_query, b) else {
        return false;
    };
    typed.result == ran.result
        && typed.types == ran.types
        && typed.nodes == ran.nodes
        && is_same(&ran.given, &typed.given)
        && other_types.starts_with(types)
        && other_query.starts_with(query)
}

// The entries of a work table, the values and the result; where the result begins, and how many entries it has. Of more than a table can have nothing is
// printed, so that the lines are missed.
fn print_run<W: Write>(out: &mut W, work: &[u16], first: usize, length: usize) -> io::Result<()> {
    if first > 8192 || length > 8192 {
        return Ok(());
    }
    let end = first + length;
    report::table(out, work, end)?;
    writeln!(out, "first {first} length {length}")?;
    tell(out, is_clean(work, 3 * end))
}

// The operation on a job and values, and what is printed of it.
fn run_it<W: Write>(
    out: &mut W,
    job: &[u8],
    values: &[u8],
    types: &mut [u16],
    query: &mut [u16],
    work: &mut [u16],
) -> io::Result<()> {
    match emberstitch::run_job(job, values, types, query, work) {
        Ok(ran) => {
            print_run(out, work, ran.first, ran.length)?;
            tell(out, is_as_typed(job, types, query, &ran))
        }
        Err(refusal) => {
            refused(out, types, query, refusal)?;
            tell(out, is_clean(work, 0))
        }
    }
}

// ---- Vectors

// Answering with the front of a buffer. Of a vector with a longer one nothing is printed, so that its lines are missed; so with longer tables below.
fn answer_within<W: Write>(
    out: &mut W,
    job: &[u8],
    types: &mut [u16],
    query: &mut [u16],
    answer: &mut [u8],
    n: usize,
) -> io::Result<()> {
    if n > answer.len() {
        return Ok(());
    }
    answer_it(out, job, types, query, &mut answer[..n])
}

// Running with the front of a work table.
fn run_within<W: Write>(
    out: &mut W,
    job: &[u8],
    values: &[u8],
    types: &mut [u16],
    query: &mut [u16],
    work: &mut [u16],
    n: usize,
) -> io::Result<()> {
    if n > work.len() {
        return Ok(());
    }
    run_it(out, job, values, types, query, &mut work[..n])
}

// What stands before the name of a vector.
#[derive(Clone, Copy)]
struct Head {
    name: usize,
    operation: usize,
    types: usize,
    query: usize,
    answer: usize,
    work: usize,
    job: usize,
    values: usize,
}

fn head_of(bytes: &[u8; 16]) -> Head {
    Head {
        name: usize::from(words::word(bytes, 0)),
        operation: usize::from(words::word(bytes, 2)),
        types: usize::from(words::word(bytes, 4)),
        query: usize::from(words::word(bytes, 6)),
        answer: usize::from(words::word(bytes, 8)),
        work: usize::from(words::word(bytes, 10)),
        job: usize::from(words::word(bytes, 12)),
        values: usize::from(words::word(bytes, 14)),
    }
}

// The operation of a vector.
fn outcome<W: Write>(
    out: &mut W,
    head: Head,
    job: &[u8],
    values: &[u8],
    types: &mut [u16],
    query: &mut [u16],
) -> io::Result<()> {
    match head.operation {
        0 => type_it(out, job, types, query),
        1 => {
            let mut answer = [170u8; 33200];
            answer_within(out, job, types, query, &mut answer, head.answer)
        }
        2 => read_it(out, job, types),
        _ => {
            let mut work = [OLD; 24600];
            run_within(out, job, values, types, query, &mut work, head.work)
        }
    }
}

// The same with the front of the type table and of the query table.
fn within<W: Write>(
    out: &mut W,
    head: Head,
    job: &[u8],
    values: &[u8],
    types: &mut [u16],
    query: &mut [u16],
) -> io::Result<()> {
    let (a, b) = (head.types, head.query);
    if a > types.len() || b > query.len() {
        return Ok(());
    }
    outcome(out, head, job, values, &mut types[..a], &mut query[..b])
}

// Prints the name that comes next; whether it was there.
fn title<R: Read, W: Write>(input: &mut R, out: &mut W, n: usize) -> io::Result<bool> {
    let mut name = [0u8; 4096];
    let got = read_next(input, &mut name, n);
    out.write_all(&name[..got])?;
    out.write_all(b"\n")?;
    Ok(got == n)
}

// Runs the job that comes next, on the values that come then; whether they were there.
fn run<R: Read, W: Write>(input: &mut R, out: &mut W, head: Head) -> io::Result<bool> {
    let mut job = [0u8; 65536];
    let got = read_next(input, &mut job, head.job);
    if got < head.job {
        return Ok(false);
    }
    let mut values = [0u8; 65536];
    let more = read_next(input, &mut values, head.values);
    if more < head.values {
        return Ok(false);
    }
    let mut types = [OLD; 12300];
    let mut query = [OLD; 4104];
    within(
        out,
        head,
        &job[..got],
        &values[..more],
        &mut types,
        &mut query,
    )?;
    Ok(true)
}

// Reads and runs the next vector; whether there was one.
fn vector<R: Read, W: Write>(input: &mut R, out: &mut W) -> io::Result<bool> {
    let mut bytes = [0u8; 16];
    let got = intake::fill(input, &mut bytes);
    if got.bytes < 16 {
        return Ok(false);
    }
    let head = head_of(&bytes);
    if title(input, out, head.name)? {
        return run(input, out, head);
    }
    Ok(false)
}

// A proved loop has to end, and nothing says that the input does: so many vectors no file has.
fn main(rt: HostRuntime) -> io::Result<()> {
    let mut input = rt.stdin();
    let mut out = rt.stdout();
    for _ in 0..1000000 {
        if !vector(&mut input, &mut out)? {
            break;
        }
    }
    Ok(())
}
