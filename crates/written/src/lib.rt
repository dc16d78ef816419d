// The text of a query table's query, written into a lent buffer: its parts are taken off a stack, pieces are spelled, and a query or a condition gives way
// to its own parts. 23 and 30, or its bytes.
#![tactic(auto)]

ghost use Rattle.std.specs.Prelude.{◌≡◌, ℕ, ◌++◌, ◌≤◌, length};
ghost use Rattle.meaning.specs.Written.{piece_bytes, between, spoken};
ghost use Rattle.words.specs.Says.{found};
ghost use Rattle.spelling.specs.Says.{Spells};
ghost use Rattle.written.specs.Says.{Ready, root_of, lowered, joined, owns, inside, spaced, Tells, Left};

use parts::Part;
use refusals::{Reason, Refusal};
use tables::Nodes;

// What a walk has come to: how many bytes the text has, and the lowest node that opens too deep.
#[derive(Drop)]
struct Told {
    bytes: usize,
    deep: Option<usize>,
}

// The lower of a node and the lowest so far.
fn lower(low: Option<usize>, node: usize) -> Option<usize>
    ensures { found result ≡ lowered (found low) node }
{
    match low {
        Some(n) => Some(n.min(node)),
        None => Some(node),
    }
}

// The same with a node that may open, where so many are open.
#[tactic(auto, unfolding(crate::specs::Says::joined))]
fn note(low: Option<usize>, opens: bool, deep: u16, node: usize) -> Option<usize>
    ensures { found result ≡ joined (found low) (owns opens deep node) }
{
    if opens && deep >= 100 {
        return lower(low, node);
    }
    low
}

// How many are open inside it.
fn deeper(opens: bool, deep: u16) -> u16
    ensures { result ≡ inside opens deep }
{
    if opens && deep < 100 {
        return deep + 1;
    }
    deep
}

// Whether a piece has a space before it: where another stands before it, and one of the two wants one. Of the last one it is known whether it does.
fn is_spaced(last: Option<bool>, kind: u16) -> bool
    ensures { (v : ℕ) → result ≡ spaced last (kind, v) }
{
    match last {
        Some(wide) => wide || spelling::is_wide(kind),
        None => false,
    }
}

// The next piece, with a space before it or without.
fn put_next(text: &mut [u8], at: usize, last: Option<bool>, kind: u16, value: u16) -> usize
    requires { at ≤ 65536 }
    ensures { Spells at result (between (spaced last (kind, value)) ++ piece_bytes (kind, value)) text.old text.new }
{
    let next = spelling::space(text, at, is_spaced(last, kind));
    spelling::put(text, next, kind, value)
}

// The walk over the parts of the query. A node makes way for five pieces and two nodes at most, and each of 1,024 nodes comes once: 6,150 parts are room enough.
fn walk(code: &Nodes, stack: &mut [Part], text: &mut [u8]) -> Told
    requires ready { Ready code.now }
    requires room { 6150 ≤ length stack.old }
    ensures { Tells (root_of code.now) result text.old text.new }
{
    let mut top = stack.len() - 1;
    stack[top] = Part::Query(true, 0, (code.len() - 1) as u16);
    let mut at = 0;
    let mut last = None;
    let mut low = None;
    while top < stack.len() {
        let part = stack[top];
        top += 1;
        match part {
            Part::Piece(kind, value) => {
                at = put_next(text, at, last, kind, value);
                last = Some(spelling::is_wide(kind));
            }
            Part::Query(_, deep, node) | Part::Cond(deep, node) => {
                let opens = parts::opens(code, part);
                low = note(low, opens, deep, usize::from(node));
                top = parts::expand(code, stack, top, part, deeper(opens, deep));
            }
        }
    }
    Told {
        bytes: at,
        deep: low,
    }
}

// Writes the text with a lent stack.
fn write_with(code: &Nodes, stack: &mut [Part], text: &mut [u8]) -> Result<usize, Refusal>
    requires ready { Ready code.now }
    requires room { 6150 ≤ length stack.old }
    ensures { Left (length text.old) result text.new (spoken (length text.old) (root_of code.now)) }
{
    let told = walk(code, stack, text);
    let bytes = told.bytes;
    if let Some(place) = told.deep {
        words::clear_bytes(text, 0);
        return Err(Refusal {
            reason: Reason::TooDeep,
            place,
        });
    }
    if text.len() < bytes {
        words::clear_bytes(text, 0);
        return Err(Refusal {
            reason: Reason::RoomShort,
            place: bytes,
        });
    }
    words::clear_bytes(text, bytes);
    Ok(bytes)
}

// Writes the text into a lent buffer of any length, with zeros after it; where it is refused, zeros everywhere: 23 at the lowest node that opens too deep,
// and 30 with how many bytes a longer buffer would need.
pub fn write(code: &Nodes, text: &mut [u8]) -> Result<usize, Refusal>
    requires { Ready code.now }
    ensures { Left (length text.old) result text.new (spoken (length text.old) (root_of code.now)) }
{
    let mut stack = [Part::Piece(0, 0); 6150];
    write_with(code, &mut stack, text)
}
