// The query section of a job, written into a lent buffer: a record for each node of a query table, with as many fields as its kind has. 30, or its bytes.
#![tactic(auto)]

ghost use Rattle.std.specs.Prelude.{◌≡◌, ◌+◌, ◌≤◌, length};
ghost use Rattle.meaning.specs.Base.{concat_map};
ghost use Rattle.meaning.specs.Records.{node};
ghost use Rattle.meaning.specs.Texts.{node_record, fitted};
ghost use Rattle.answers.specs.Parts.{Extends};
ghost use Rattle.sections.specs.Says.{size_of, Left};

use refusals::{Reason, Refusal};
use tables::Nodes;
use words::Node;

// How long a record of a kind is.
fn size_of(kind: u16) -> usize
    ensures { result ≡ size_of kind }
{
    match records::form_of(kind) {
        Some(form) => form.length,
        None => 4,
    }
}

// A node's record; the place behind it.
fn put_record(out: &mut [u8], at: usize, x: Node) -> usize
    requires { at + size_of x.kind ≤ length out.old }
    ensures { Extends at result (node_record (node x.kind x.a x.b x.c)) out.old out.new }
{
    let size = size_of(x.kind);
    words::put_word(out, at, size as u16);
    words::put_word(out, at + 2, x.kind);
    let fields = [x.a, x.b, x.c];
    let count = (size - 4) / 2;
    for i in 0..count {
        words::put_word(out, at + 4 + 2 * i, fields[i]);
    }
    at + size
}

// How long the section is.
fn size_all(code: &Nodes) -> usize
    requires { length code.now ≤ 1024 }
    ensures { result ≡ length (concat_map node_record code.now) }
{
    let mut n = 0;
    for i in 0..code.len() {
        n += size_of(code.get(i).kind);
    }
    n
}

// The records, from the front of a buffer that has room for them.
fn put_all(code: &Nodes, out: &mut [u8])
    requires room { length (concat_map node_record code.now) ≤ length out.old }
    ensures { Extends 0 (length (concat_map node_record code.now)) (concat_map node_record code.now) out.old out.new }
{
    let mut at = 0;
    for i in 0..code.len() {
        at = put_record(out, at, code.get(i));
    }
}

// Writes the section into a lent buffer of any length, with zeros after it; where it is too short, zeros everywhere. How many bytes the section has.
pub fn write(code: &Nodes, out: &mut [u8]) -> Result<usize, Refusal>
    requires { length code.now ≤ 1024 }
    ensures { Left (length out.old) result out.new (fitted (length out.old) (concat_map node_record code.now)) }
{
    let needed = size_all(code);
    if out.len() < needed {
        out.fill(0);
        return Err(Refusal {
            reason: Reason::RoomShort,
            place: needed,
        });
    }
    put_all(code, out);
    words::clear_bytes(out, needed);
    Ok(needed)
}
