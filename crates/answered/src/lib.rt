// Answering a job: typing it, then its answer file into a lent buffer, or 17.
#![tactic(auto)]

ghost use Rattle.std.specs.Prelude.{length};
ghost use Rattle.meaning.specs.Base.{caps_of};
ghost use Rattle.meaning.specs.Answers.{answer_job};
ghost use Rattle.answered.specs.Says.{Left, Ready, Settled};

use reading::Given;
use refusals::Refusal;
use tables::Types;
use typed::Typed;

// The answer file's length, the result's entry, and how many type entries and query nodes there are, with the definitions and the declared variables.
#[derive(Clone, Copy)]
pub struct Answered {
    pub length: usize,
    pub result: usize,
    pub types: usize,
    pub nodes: usize,
    pub given: Given,
}

// The answer file of a typed job: the tables stay, or 17 and what typing wrote is cleared.
fn settle(
    types: &mut [u16],
    query: &mut [u16],
    answer: &mut [u8],
    typed: Typed,
) -> Result<Answered, Refusal>
    requires { Ready types.old query.old typed }
    ensures { Settled types.old query.old (length answer.old) typed result types.new query.new answer.new }
{
    let given = typed.given;
    let known = Types::new(types, typed.types);
    let defs = &given.defs[..given.used];
    match answers::write(&known, defs, typed.result, answer) {
        Ok(length) => Ok(Answered {
            length,
            result: typed.result,
            types: typed.types,
            nodes: typed.nodes,
            given,
        }),
        Err(refusal) => {
            words::clear_entries(types, typed.types);
            words::clear_nodes(query, typed.nodes);
            Err(refusal) // 17
        }
    }
}

// Answers a job in two lent tables and a lent buffer: of any bytes, and of any lengths. A refusal leaves every word and every byte of them zero.
pub fn answer_job(
    job: &[u8],
    types: &mut [u16],
    query: &mut [u16],
    answer: &mut [u8],
) -> Result<Answered, Refusal>
    ensures { Left (length types.old) (length query.old) (length answer.old) result types.new query.new answer.new (answer_job (caps_of (length types.old) (length query.old)) (length answer.old) job.now) }
{
    match typed::type_job(job, types, query) {
        Ok(typed) => settle(types, query, answer, typed),
        Err(refusal) => {
            words::clear_bytes(answer, 0);
            Err(refusal) // as typing was
        }
    }
}
