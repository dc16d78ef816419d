// Reading a job: 1 to 7 record by record, then 8 to 12 over the whole.
#![tactic(auto)]

ghost use Rattle.std.specs.Prelude.{length};
ghost use Rattle.meaning.specs.Base.{caps_of};
ghost use Rattle.meaning.specs.Checks.{read_job};
ghost use Rattle.jobs.specs.Says.{Ready, Left, Settled};

use reading::{Given, Read};
use refusals::Refusal;
use tables::{Nodes, Types, Vars};

// How many type entries and query nodes a job has, with its definitions and its declared variables.
#[derive(Clone, Copy)]
pub struct Job {
    pub types: usize,
    pub nodes: usize,
    pub given: Given,
}

// The job that was read: it passes the checks and stays, or both tables are cleared.
fn settle(bytes: usize, types: &mut [u16], query: &mut [u16], read: Read) -> Result<Job, Refusal>
    requires { Ready types.old query.old read.types read.nodes read.given }
    ensures { Settled (length types.old) (length query.old) types.old query.old read.given read.types read.nodes bytes result types.new query.new }
{
    let count = read.types;
    let nodes = read.nodes;
    let given = read.given;
    let checked = checks::check_job(
        bytes,
        &Types::new(types, count),
        &given.defs[..given.used],
        &Vars::new(&given.vars, given.declared),
        &Nodes::new(query, nodes),
    );
    match checked {
        Ok(()) => Ok(Job {
            types: count,
            nodes,
            given,
        }),
        Err(refusal) => {
            words::clear_entries(types, count);
            words::clear_nodes(query, nodes);
            Err(refusal)
        }
    }
}

// Reads a job into two lent tables: of any bytes, and of any lengths. A refusal leaves every word of them zero.
pub fn read_job(job: &[u8], types: &mut [u16], query: &mut [u16]) -> Result<Job, Refusal>
    ensures { Left (length types.old) (length query.old) result types.new query.new (read_job (caps_of (length types.old) (length query.old)) job.now) }
{
    let read = reading::read_records(records::File::Job, job, types, query)?;
    settle(job.len(), types, query, read)
}
