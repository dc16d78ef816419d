// Typing a job: reading it, then the walk from the query's root, with 13 to 16 where they are met.
#![tactic(auto)]

ghost use Rattle.std.specs.Prelude.{◌*◌, ◌≤◌, length};
ghost use Rattle.meaning.specs.Base.{caps_of, code_width};
ghost use Rattle.meaning.specs.Typing.{type_job};
ghost use Rattle.typed.specs.Says.{Left, Ready, Grows, from_root, Settled};

use grow::Made;
use jobs::Job;
use reading::Given;
use refusals::Refusal;
use tables::{Nodes, Types, Vars};

// The result's entry, and how many type entries and query nodes there are, with the definitions and the declared variables.
#[derive(Clone, Copy)]
pub struct Typed {
    pub result: usize,
    pub types: usize,
    pub nodes: usize,
    pub given: Given,
}

// The walk from the root of a job's query, in the scope of its declared variables. Classes, marks and the walk's stack are scratch for a table of full
// capacity; filling the classes takes the marks for its ways back.
fn walk(types: &mut [u16], query: &[u16], job: &Job) -> Result<Made, Refusal>
    requires { Ready types.old query.now job.now }
    ensures { Grows types.old types.new result (from_root types.old query.now job.now) }
{
    let mut classes = [0u16; 4096];
    let mut marks = [0u16; 8192];
    let mut stack = [0u16; 2048];
    let count = job.types;
    let defs = &job.given.defs[..job.given.used];
    classes::fill(&Types::new(types, count), defs, &mut classes, &mut marks);
    let vars = Vars::new(&job.given.vars, job.given.declared);
    let scope = scope::declared(&vars);
    let code = Nodes::new(query, job.nodes);
    let root = job.nodes - 1;
    typing::walk(
        types,
        &mut classes,
        &mut marks,
        defs,
        &code,
        count,
        scope,
        root,
        &mut stack,
    )
}

// After the walk the tables stay, or what was read is cleared, and the type table as a whole: a walk that stops may have filled it.
fn settle(
    types: &mut [u16],
    query: &mut [u16],
    job: Job,
    made: Result<Made, Refusal>,
) -> Result<Typed, Refusal>
    requires { code_width * job.nodes ≤ length query.old }
    ensures { Settled types.old query.old job made result types.new query.new }
{
    match made {
        Ok(made) => Ok(Typed {
            result: made.at,
            types: made.count,
            nodes: job.nodes,
            given: job.given,
        }),
        Err(refusal) => {
            words::clear(types);
            words::clear_nodes(query, job.nodes);
            Err(refusal)
        }
    }
}

// Types a job in two lent tables: of any bytes, and of any lengths. A refusal leaves every word of them zero.
pub fn type_job(job: &[u8], types: &mut [u16], query: &mut [u16]) -> Result<Typed, Refusal>
    ensures { Left (length types.old) (length query.old) result types.new query.new (type_job (caps_of (length types.old) (length query.old)) job.now) }
{
    let read = jobs::read_job(job, types, query)?;
    let made = walk(types, query, &read);
    settle(types, query, read, made)
}
