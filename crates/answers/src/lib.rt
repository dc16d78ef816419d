// The answer file, written into a lent buffer from a type table, the definitions and a result: 17, or its bytes.
#![tactic(auto)]

ghost use Rattle.std.specs.Prelude.{◌≡◌, [], ◌∷◌, length};
ghost use Prim.Native.Nat.{◌+◌, ◌*◌, ◌≤◌};
ghost use Rattle.meaning.specs.Base.{bytes_of};
ghost use Rattle.meaning.specs.Answers.{record_of, type_record, answer_file, fitted};
ghost use Rattle.entries.specs.Says.{shown};
ghost use Rattle.answers.specs.Says.{Ready, Left};
ghost use Rattle.answers.specs.Parts.{type_bytes, def_bytes, Typed, Extends};

use entries::Ty;
use refusals::{Reason, Refusal};
use tables::Types;

// The words that each record begins with: its length and its kind.
fn put_start(answer: &mut [u8], at: usize, size: u16, kind: u16)
    requires { at + 4 ≤ length answer.old }
    ensures { Extends at (at + 4) (bytes_of (size ∷ kind ∷ [])) answer.old answer.new }
{
    words::put_word(answer, at, size);
    words::put_word(answer, at + 2, kind);
}

// A record with one field, and one with two; the place behind it.
fn put_one(answer: &mut [u8], at: usize, kind: u16, a: u16) -> usize
    requires { at + 6 ≤ length answer.old }
    ensures { Extends at result (record_of kind (a ∷ [])) answer.old answer.new }
{
    put_start(answer, at, 6, kind);
    words::put_word(answer, at + 4, a);
    at + 6
}

fn put_two(answer: &mut [u8], at: usize, kind: u16, a: u16, b: u16) -> usize
    requires { at + 8 ≤ length answer.old }
    ensures { Extends at result (record_of kind (a ∷ b ∷ [])) answer.old answer.new }
{
    put_start(answer, at, 8, kind);
    words::put_word(answer, at + 4, a);
    words::put_word(answer, at + 6, b);
    at + 8
}

// How long a type record is.
#[tactic(auto, unfolding(meaning::specs::Base::bytes_of, meaning::specs::Types::fields_of))]
fn size_of(x: Ty) -> usize
    ensures { result ≡ length (type_record (shown x)) }
{
    match x {
        Ty::Empty | Ty::Text => 4,
        Ty::Element(_, _) | Ty::Pair(_, _) | Ty::Union(_, _) => 8,
        Ty::Star(_) | Ty::Plus(_) | Ty::Opt(_) | Ty::Name(_) => 6,
    }
}

// A type record; the place behind it.
fn put_type(answer: &mut [u8], at: usize, x: Ty) -> usize
    requires { at + length (type_record (shown x)) ≤ length answer.old }
    ensures { Extends at result (type_record (shown x)) answer.old answer.new }
{
    let kind = x.kind();
    match x {
        Ty::Empty | Ty::Text => {
            put_start(answer, at, 4, kind);
            at + 4
        }
        Ty::Element(a, b) | Ty::Pair(a, b) | Ty::Union(a, b) => put_two(answer, at, kind, a, b),
        Ty::Star(a) | Ty::Plus(a) | Ty::Opt(a) | Ty::Name(a) => put_one(answer, at, kind, a),
    }
}

// How long the type records are.
fn types_size(types: &Types) -> usize
    requires { Typed types.now }
    ensures { result ≡ length (type_bytes types.now) }
{
    let mut n = 0;
    for i in 2..types.len() {
        n += size_of(types.get(i));
    }
    n
}

// The type records, from the front; the place behind them.
fn put_types(types: &Types, answer: &mut [u8]) -> usize
    requires typed { Typed types.now }
    requires room { length (type_bytes types.now) ≤ length answer.old }
    ensures { Extends 0 result (type_bytes types.now) answer.old answer.new }
{
    let mut at = 0;
    for e in 2..types.len() {
        at = put_type(answer, at, types.get(e));
    }
    at
}

// The definition records; the place behind them.
fn put_defs(defs: &[u16], answer: &mut [u8], from: usize) -> usize
    requires { from + 6 * length defs.now ≤ length answer.old }
    ensures { Extends from result (def_bytes defs.now) answer.old answer.new }
{
    let mut at = from;
    for d in defs {
        at = put_one(answer, at, 16, *d);
    }
    at
}

// The file, from the front of a buffer that has room for it.
fn put_file(types: &Types, defs: &[u16], res: u16, answer: &mut [u8])
    requires ready { Ready types.now defs.now res }
    requires room { length (answer_file types.now defs.now res) ≤ length answer.old }
    ensures { Extends 0 (length (answer_file types.now defs.now res)) (answer_file types.now defs.now res) answer.old answer.new }
{
    let from = put_types(types, answer);
    let last = put_defs(defs, answer, from);
    put_one(answer, last, 80, res);
}

// Writes an answer file into a lent buffer of any length, with zeros after it, and answers its length; where the buffer is too short, zeros everywhere.
pub fn write(types: &Types, defs: &[u16], res: usize, answer: &mut [u8]) -> Result<usize, Refusal>
    requires { Ready types.now defs.now res }
    ensures { Left (length answer.old) result answer.new (fitted (length answer.old) (answer_file types.now defs.now res)) }
{
    let needed = types_size(types) + 6 * defs.len() + 6;
    if answer.len() < needed {
        words::clear_bytes(answer, 0);
        return Err(Refusal {
            reason: Reason::AnswerShort,
            place: needed,
        });
    }
    put_file(types, defs, res as u16, answer);
    words::clear_bytes(answer, needed);
    Ok(needed)
}
