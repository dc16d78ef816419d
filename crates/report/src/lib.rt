// What the programs print: a line for each entry of a type table, or of a stretch of a work table, then a line with the result; or a refusal alone.
// Lines are gathered on a page, so that a full table takes a few calls. A page has room for what is put on it, so that an `Err` is the writer's alone. What
// stands on the page each contract says, and what a writer then has, where the writer tells what it has.
#![tactic(auto)]

ghost use Rattle.std.specs.Prelude.{◌≡◌, ◌++◌, ◌+◌, ◌*◌, ◌≤◌, length, get_or, OnOk};
ghost use Rattle.std.specs.Fmt.{decimal};
ghost use Rattle.std.specs.Io.KnownBytes.{Appends};
ghost use Rattle.arrayvec.specs.ArrayString.{array_string_len};
ghost use Rattle.meaning.specs.Base.{type_width};
ghost use Rattle.refusals.specs.Says.{number_of};
ghost use Rattle.report.specs.Text.{entry_line, stretch_lines, result_line, stretch_line, refused_line};
ghost use Rattle.report.specs.Pages.{Printed};

use arrayvec::ArrayString;
use itoa::Buffer;
use refusals::Refusal;
use std::io;
use std::io::Write;

// Lines that are not written out yet.
type Page = ArrayString<4096>;

// A line that is written out at once.
type Line = ArrayString<64>;

// Puts a number on a page, and a text behind it: 20 digits hold every number of 64 bits.
fn put<const CAP: usize>(page: &mut ArrayString<CAP>, n: usize, behind: &str)
    requires room { array_string_len page.old + 20 + length behind.now ≤ CAP }
    ensures bytes { page.new.bytes ≡ page.old.bytes ++ (decimal n ++ behind.now) }
    ensures len { array_string_len page.new ≤ array_string_len page.old + 20 + length behind.now }
{
    let mut digits = Buffer::new();
    page.push_str(digits.format(n));
    page.push_str(behind);
}

// The line of an entry of a table: its number, its kind, a and b.
fn put_entry(page: &mut Page, table: &[u16], e: usize)
    requires room { array_string_len page.old + 84 ≤ 4096 }
    requires type_width_in_bounds { type_width * e + type_width ≤ length table.now }
    ensures { page.new.bytes ≡ page.old.bytes ++ entry_line e (get_or table.now (type_width * e) 0) (get_or table.now (type_width * e + 1) 0) (get_or table.now (type_width * e + 2) 0) }
{
    let x = words::read_entry(table, e);
    put(page, e, " ");
    put(page, usize::from(x.kind), " ");
    put(page, usize::from(x.a), " ");
    put(page, usize::from(x.b), "\n");
}

// A page without room for one line more is written out: an entry's line has 84 bytes at most.
fn turn<W: Write>(out: &mut W, page: &mut Page) -> io::Result<()>
    ensures room { OnOk result (array_string_len page.new + 84 ≤ 4096) }
    ensures printed { OnOk result (Printed (W.contents out.old) (W.contents out.new) page.new.bytes page.old.bytes) }
{
    if page.remaining_capacity() >= 84 {
        return Ok(());
    }
    out.write_all(page.as_str().as_bytes())?;
    page.clear();
    Ok(())
}

// Prints a table's entries from one on, so many, as far as the table has them: a line for each.
pub fn stretch<W: Write>(out: &mut W, table: &[u16], first: usize, count: usize) -> io::Result<()>
    ensures { OnOk result (Appends (W.contents out.old) (W.contents out.new) (stretch_lines table.now first count)) }
{
    let most = table.len() / 3;
    let from = first.min(most);
    let end = from + count.min(most - from);
    let mut page = Page::new();
    for e in from..end {
        turn(out, &mut page)?;
        put_entry(&mut page, table, e);
    }
    out.write_all(page.as_str().as_bytes())
}

// Prints the first entries of a type table.
pub fn table<W: Write>(out: &mut W, types: &[u16], count: usize) -> io::Result<()>
    ensures { OnOk result (Appends (W.contents out.old) (W.contents out.new) (stretch_lines types.now 0 count)) }
{
    stretch(out, types, 0, count)
}

// Prints the result: the last line of a typed job.
pub fn result<W: Write>(out: &mut W, n: usize) -> io::Result<()>
    ensures { OnOk result (Appends (W.contents out.old) (W.contents out.new) (result_line n)) }
{
    let mut line = Line::new();
    line.push_str("result ");
    put(&mut line, n, "\n");
    out.write_all(line.as_str().as_bytes())
}

// Prints where the result's entries begin and how many they are: the last line of a run.
pub fn result_at<W: Write>(out: &mut W, first: usize, length: usize) -> io::Result<()>
    ensures { OnOk result (Appends (W.contents out.old) (W.contents out.new) (stretch_line first length)) }
{
    let mut line = Line::new();
    line.push_str("result ");
    put(&mut line, first, " ");
    put(&mut line, length, "\n");
    out.write_all(line.as_str().as_bytes())
}

// Prints a refusal: the only line of a refused job.
pub fn refused<W: Write>(out: &mut W, refusal: Refusal) -> io::Result<()>
    ensures { OnOk result (Appends (W.contents out.old) (W.contents out.new) (refused_line (number_of refusal.reason) refusal.place)) }
{
    refused_by_number(out, refusal.reason.number(), refusal.place)
}

// The same line by a refusal's number, whichever it is.
pub fn refused_by_number<W: Write>(out: &mut W, number: u16, place: usize) -> io::Result<()>
    ensures { OnOk result (Appends (W.contents out.old) (W.contents out.new) (refused_line number place)) }
{
    let mut line = Line::new();
    line.push_str("refused ");
    put(&mut line, usize::from(number), " at ");
    put(&mut line, place, "\n");
    out.write_all(line.as_str().as_bytes())
}
