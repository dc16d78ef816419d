// The typing program: a job on standard input; it prints the number, kind, a and b of each entry, then the result; or only the refusal and its place.
// The tables have full capacity. It reads the first 43,520 bytes: with these tables typing them is typing the whole job, however long
// (`first_bytes_suffice` in proofs/Whole).
#![tactic(auto)]

ghost use Rattle.std.specs.Prelude.{◌≡◌, ◌++◌, length, OnOk};
ghost use Rattle.std.specs.Io.KnownBytes.{Appends};
ghost use Rattle.report.specs.Text.{stretch_lines, result_line};
ghost use Rattle.ember_type.specs.Prints.{typing_text};

use std::io;
use std::io::Write;
use typed::Typed;

// An accepted job: its entries, then its result.
fn accepted<W: Write>(out: &mut W, types: &[u16], typed: &Typed) -> io::Result<()>
    ensures { OnOk result (Appends (W.contents out.old) (W.contents out.new) (stretch_lines types.now 0 typed.now.types ++ result_line typed.now.result)) }
{
    report::table(out, types, typed.types)?;
    report::result(out, typed.result)
}

// The operation on a job, and what is printed of it.
fn outcome<W: Write>(
    out: &mut W,
    job: &[u8],
    types: &mut [u16],
    query: &mut [u16],
) -> io::Result<()>
    ensures { OnOk result (Appends (W.contents out.old) (W.contents out.new) (typing_text job.now (length types.old) (length query.old))) }
{
    match emberstitch::type_job(job, types, query) {
        Ok(typed) => accepted(out, types, &typed),
        Err(refusal) => report::refused(out, refusal),
    }
}

// A read that fails ends the job, as its end does.
fn main(rt: HostRuntime) -> io::Result<()> {
    let mut job = [0u8; 43520];
    let n = intake::fill(&mut rt.stdin(), &mut job).bytes;
    let mut types = [0u16; 12288];
    let mut query = [0u16; 4096];
    outcome(&mut rt.stdout(), &job[..n], &mut types, &mut query)
}
