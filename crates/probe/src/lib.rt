// Every public operation for C, over tables of any length: for tests and benchmarks alone. Users link `emberstitch_c`, which has the one call that they need.
// Each call leaves its answer in `out`, as much of it as there is room for: the refusal or 0, its place, how many type entries and query nodes there are,
// the entry of the result's type, the answer file's length or how many forest entries a run's result has, how many definitions and declared variables there
// are; from 8 on 64 definitions, from 72 on the three words of 16 variables; at 120 a run's first entry. It is 0 for what the operation does not tell.
#![tactic(auto)]

use answered::Answered;
use back::Back;
use jobs::Job;
use ran::Ran;
use reading::Given;
use refusals::Refusal;
use texts::Text;
use typed::Typed;

// What the answers of all operations tell: 0 for what one does not.
#[derive(Clone, Copy)]
struct Told {
    types: usize,
    nodes: usize,
    result: usize,
    length: usize,
    first: usize,
    given: Given,
}

impl From<Job> for Told {
    fn from(job: Job) -> Told {
        Told {
            types: job.types,
            nodes: job.nodes,
            result: 0,
            length: 0,
            first: 0,
            given: job.given,
        }
    }
}

impl From<Typed> for Told {
    fn from(typed: Typed) -> Told {
        Told {
            types: typed.types,
            nodes: typed.nodes,
            result: typed.result,
            length: 0,
            first: 0,
            given: typed.given,
        }
    }
}

impl From<Answered> for Told {
    fn from(answered: Answered) -> Told {
        Told {
            types: answered.types,
            nodes: answered.nodes,
            result: answered.result,
            length: answered.length,
            first: 0,
            given: answered.given,
        }
    }
}

impl From<Back> for Told {
    fn from(back: Back) -> Told {
        Told {
            types: back.types,
            nodes: 0,
            result: back.result,
            length: 0,
            first: 0,
            given: back.given,
        }
    }
}

impl From<Ran> for Told {
    fn from(ran: Ran) -> Told {
        Told {
            types: ran.types,
            nodes: ran.nodes,
            result: ran.result,
            length: ran.length,
            first: ran.first,
            given: ran.given,
        }
    }
}

// The length of a query section.
impl From<usize> for Told {
    fn from(length: usize) -> Told {
        Told {
            types: 0,
            nodes: 0,
            result: 0,
            length,
            first: 0,
            given: reading::nothing_given(),
        }
    }
}

impl From<Text> for Told {
    fn from(text: Text) -> Told {
        Told {
            types: text.types,
            nodes: text.nodes,
            result: 0,
            length: text.length,
            first: 0,
            given: reading::nothing_given(),
        }
    }
}

// A number of an answer, where there is room for it.
fn put(out: &mut [u64], at: usize, n: usize) {
    if let Some(to) = out.get_mut(at) {
        *to = n as u64;
    }
}

// Words from a place on, as many as there is room for.
fn put_words(out: &mut [u64], at: usize, words: &[u16]) {
    if let Some(room) = out.get_mut(at..) {
        for (to, word) in room.iter_mut().zip(words) {
            *to = u64::from(*word);
        }
    }
}

// The answer: 0 and what it tells, or the refusal and its place with nothing beside them.
fn leave<T: Into<Told> + Drop>(answer: Result<T, Refusal>, out: &mut [u64]) {
    let told = match answer {
        Ok(x) => {
            put(out, 0, 0);
            put(out, 1, 0);
            x.into()
        }
        Err(refusal) => {
            put(out, 0, usize::from(refusal.reason.number()));
            put(out, 1, refusal.place);
            Told::from(0)
        }
    };
    put(out, 2, told.types);
    put(out, 3, told.nodes);
    put(out, 4, told.result);
    put(out, 5, told.length);
    put(out, 6, told.given.used);
    put(out, 7, told.given.declared);
    put_words(out, 8, &told.given.defs);
    put_words(out, 72, &told.given.vars);
    put(out, 120, told.first);
}

#[unsafe(no_mangle)]
pub extern "C" fn probe_read_job(
    job: &[u8],
    types: &mut [u16],
    query: &mut [u16],
    out: &mut [u64],
) {
    leave(emberstitch::read_job(job, types, query), out);
}

#[unsafe(no_mangle)]
pub extern "C" fn probe_type_job(
    job: &[u8],
    types: &mut [u16],
    query: &mut [u16],
    out: &mut [u64],
) {
    leave(emberstitch::type_job(job, types, query), out);
}

#[unsafe(no_mangle)]
pub extern "C" fn probe_answer_job(
    job: &[u8],
    types: &mut [u16],
    query: &mut [u16],
    answer: &mut [u8],
    out: &mut [u64],
) {
    leave(emberstitch::answer_job(job, types, query, answer), out);
}

#[unsafe(no_mangle)]
pub extern "C" fn probe_read_answer(file: &[u8], types: &mut [u16], out: &mut [u64]) {
    leave(emberstitch::read_answer(file, types), out);
}

#[unsafe(no_mangle)]
pub extern "C" fn probe_run_job(
    job: &[u8],
    values: &[u8],
    types: &mut [u16],
    query: &mut [u16],
    work: &mut [u16],
    out: &mut [u64],
) {
    leave(emberstitch::run_job(job, values, types, query, work), out);
}

#[unsafe(no_mangle)]
pub extern "C" fn probe_parse_text(text: &[u8], section: &mut [u8], out: &mut [u64]) {
    leave(emberstitch::parse_text(text, section), out);
}

#[unsafe(no_mangle)]
pub extern "C" fn probe_write_text(
    job: &[u8],
    types: &mut [u16],
    query: &mut [u16],
    text: &mut [u8],
    out: &mut [u64],
) {
    leave(emberstitch::write_text(job, types, query, text), out);
}
