// The query of a text: one loop over a stack of what is open, then the end of the text, 5, and the records of its nodes, or 30.
#![tactic(auto)]

ghost use Rattle.std.specs.Prelude.{◌≡◌, ◌+◌, ◌≤◌, ◌<◌, length, IfOk};
ghost use Rattle.meaning.specs.Texts.{parse, parse_text};
ghost use Rattle.parses.specs.Says.{list, Opened, items_of, Going, Items, Finishes, Parses, Settles, Left};

use items::{Act, Open, Task};
use refusals::{Reason, Refusal};
use rows::Part;
use tables::Nodes;
use tokens::Token;

// Whether there are items behind it that commas may follow.
fn is_list(x: Open) -> bool
    ensures { result ≡ list x }
{
    matches!(
        x,
        Open::Tail(_) | Open::Second(_) | Open::Group | Open::Inside(_)
    )
}

// What is open in the place of the last task, and above it the items, or the item, that are to be read where so many are open. How many tasks there are then.
fn put_frame(stack: &mut [Task], tasks: usize, x: Open, deep: u16) -> usize
    requires some { 0 < tasks }
    requires room { tasks + 2 ≤ length stack.old }
    ensures { Opened tasks x deep stack.old result stack.new }
{
    stack[tasks - 1] = Task::Behind(x);
    if is_list(x) {
        stack[tasks] = Task::Behind(Open::Tail(deep));
        stack[tasks + 1] = Task::Item(deep);
        return tasks + 2;
    }
    stack[tasks] = Task::Item(deep);
    tasks + 1
}

// Reads the items of a text into a query table, from a stack on which they are to be read.
fn run(s: &[u8], code: &mut [u16], stack: &mut [Task]) -> Result<Part, Refusal>
    requires code_room { 4096 ≤ length code.old }
    requires stack_room { 1280 ≤ length stack.old }
    requires begun { Going s.now (items_of s.now) 0 0 2 code.old stack.old }
    ensures { Items s.now code.new (items_of s.now) result }
{
    let mut tasks: usize = 2;
    let mut here = Part { next: 0, nodes: 0 };
    while 0 < tasks {
        let top = stack[tasks - 1];
        let act = items::step(s, here.next, top, code, here.nodes)?;
        match act {
            Act::Done(part) => {
                here = part;
                tasks -= 1;
            }
            Act::More(x, deep, part) => {
                tasks = put_frame(stack, tasks, x, deep);
                here = part;
            }
            Act::Again(deep, next) => {
                stack[tasks - 1] = Task::Behind(Open::Tail(deep));
                stack[tasks] = Task::Item(deep);
                tasks += 1;
                here = Part { next, nodes: 1025 };
            }
        }
    }
    Ok(here)
}

// The same with a stack that is scratch.
fn read_items(s: &[u8], code: &mut [u16], stack: &mut [Task]) -> Result<Part, Refusal>
    requires code_room { 4096 ≤ length code.old }
    requires stack_room { 1280 ≤ length stack.old }
    ensures { Items s.now code.new (items_of s.now) result }
{
    stack[0] = Task::Behind(Open::Tail(0));
    stack[1] = Task::Item(0);
    run(s, code, stack)
}

// Behind the items: the end of the text, and 5. How many nodes there are.
fn finish(s: &[u8], here: Part) -> Result<u16, Refusal>
    requires { here.next ≤ length s.now }
    ensures { Finishes s.now here.next here.nodes result }
{
    let t = tokens::token_at(s, here.next);
    let goes_on = t.token != Token::End;
    if goes_on {
        return Err(Refusal {
            reason: Reason::NoSuchText,
            place: t.place,
        });
    }
    let too_many = 1024 < here.nodes;
    if too_many {
        return Err(Refusal {
            reason: Reason::TooMany,
            place: 0,
        });
    }
    Ok(here.nodes)
}

// The query of a text into a query table: how many nodes it has. `stack` is scratch.
fn parse_with(s: &[u8], code: &mut [u16], stack: &mut [Task]) -> Result<u16, Refusal>
    requires code_room { 4096 ≤ length code.old }
    requires stack_room { 1280 ≤ length stack.old }
    ensures { Parses (parse s.now) code.new result }
{
    let here = read_items(s, code, stack)?;
    finish(s, here)
}

// The section of a query that was parsed, or of none: how many bytes it has.
fn settle(parsed: Result<u16, Refusal>, code: &[u16], out: &mut [u8]) -> Result<usize, Refusal>
    requires code_room { 4096 ≤ length code.now }
    requires few { IfOk parsed (λ n. n ≤ 1024) }
    ensures { Settles parsed code.now (length out.old) result out.new }
{
    match parsed {
        Ok(nodes) => sections::write(&Nodes::new(code, usize::from(nodes)), out),
        Err(refusal) => {
            out.fill(0);
            Err(refusal)
        }
    }
}

// The same with a query table and a stack that are lent.
fn parse_into(
    s: &[u8],
    code: &mut [u16],
    stack: &mut [Task],
    out: &mut [u8],
) -> Result<usize, Refusal>
    requires code_room { 4096 ≤ length code.old }
    requires stack_room { 1280 ≤ length stack.old }
    ensures { Left (length out.old) result out.new (parse_text (length out.old) s.now) }
{
    let parsed = parse_with(s, code, stack);
    settle(parsed, code, out)
}

// Parses a text of any bytes into a lent buffer of any length: the query section of a job, with zeros after it, and how many bytes it has. A refusal leaves
// every byte of the buffer zero.
pub fn parse_text(text: &[u8], section: &mut [u8]) -> Result<usize, Refusal>
    ensures { Left (length section.old) result section.new (parse_text (length section.old) text.now) }
{
    let mut code = [0u16; 4096];
    let mut stack = [Task::Item(0); 1280];
    parse_into(text, &mut code, &mut stack, section)
}
