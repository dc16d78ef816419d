// Running a job on values: typing it, loading the values into the work table, and evaluating the query behind them; 1 to 16, then 18 to 21.
#![tactic(auto)]

ghost use Rattle.std.specs.Prelude.{◌≡◌, ◌∷◌, ◌++◌, ◌*◌, ◌≤◌, length, get_or, drop};
ghost use Rattle.meaning.specs.Base.{zeros, caps_of, type_width, code_width, work_capacity};
ghost use Rattle.meaning.specs.Formed.{VarsRead};
ghost use Rattle.meaning.specs.Running.{run_job};
ghost use Rattle.words.specs.Tables.{code_of, vars_of};
ghost use Rattle.ran.specs.Says.{Left, Spread, Begins, Ready, Evaluates, Settles, Answers};

use reading::Given;
use refusals::Refusal;
use spans::{Span, Spans};
use tables::{Nodes, Vars};
use typed::Typed;
use values::Loaded;

// The result's first entry in the work table and how many entries it has; the entry of its type, and how many type entries and query nodes there are; with
// the definitions and the declared variables.
#[derive(Clone, Copy)]
pub struct Ran {
    pub first: usize,
    pub length: usize,
    pub result: usize,
    pub types: usize,
    pub nodes: usize,
    pub given: Given,
}

// Where the entries of the i-th variable begin: behind those of the one before it.
fn start(ends: &[u16], i: usize) -> u16
    requires { i ≤ length ends.now }
    ensures { result ≡ get_or (0 ∷ ends.now) i 0 }
{
    if i == 0 { 0 } else { ends[i - 1] }
}

// The scope of the declared variables, whose forests end so in the work table.
fn spread(vars: &Vars, ends: &[u16]) -> Spans
    requires read { VarsRead 4096 vars.now }
    requires ended { length vars.now ≤ length ends.now }
    ensures { Spread vars.now ends.now result }
{
    let mut scope = Spans::new();
    for i in (0..vars.len()).rev() {
        let x = vars.get(i);
        let from = start(ends, i);
        let to = ends[i];
        scope.bind(usize::from(x.a), Span { from, to });
    }
    scope
}

// Evaluates the query behind the values that were loaded: how many entries its forest has. The forests held are scratch for a work table of full capacity.
fn evaluate(code: &Nodes, vars: &Vars, loaded: &Loaded, work: &mut [u16]) -> Result<usize, Refusal>
    requires ready { Ready code.now vars.now }
    requires begins { Begins vars.now loaded.now work.old }
    ensures { Evaluates code.now vars.now loaded.now work.old work.new result }
{
    let mut held = [0u16; 24576];
    let count = loaded.entries;
    moves::hold(work, count, &mut held, 0);
    let scope = spread(vars, &loaded.ends);
    let room = words::work_room(work);
    let first = 3 * count;
    let last = 3 * room;
    let nodes = code.len();
    let root = nodes - 1;
    running::eval(code, scope, &mut held, &mut work[first..last], count, root)
}

// The type entries and the query nodes of a typed job are cleared.
fn clear(types: &mut [u16], query: &mut [u16], typed: &Typed)
    requires types { type_width * typed.now.types ≤ length types.old }
    requires nodes { code_width * typed.now.nodes ≤ length query.old }
    ensures types { types.new ≡ zeros (type_width * typed.now.types) ++ drop (type_width * typed.now.types) types.old }
    ensures nodes { query.new ≡ zeros (code_width * typed.now.nodes) ++ drop (code_width * typed.now.nodes) query.old }
{
    words::clear_entries(types, typed.types);
    words::clear_nodes(query, typed.nodes);
}

// After the evaluation behind so many entries the tables stay, or what was written is cleared. At 21 the work table is full.
fn settle(
    types: &mut [u16],
    query: &mut [u16],
    work: &mut [u16],
    typed: Typed,
    first: usize,
    made: Result<usize, Refusal>,
) -> Result<Ran, Refusal>
    requires types { type_width * typed.types ≤ length types.old }
    requires nodes { code_width * typed.nodes ≤ length query.old }
    ensures { Settles types.old query.old work.old first typed made result types.new query.new work.new }
{
    match made {
        Ok(length) => Ok(Ran {
            first,
            length,
            result: typed.result,
            types: typed.types,
            nodes: typed.nodes,
            given: typed.given,
        }),
        Err(refusal) => {
            words::clear(work);
            clear(types, query, &typed);
            Err(refusal)
        }
    }
}

// Loading the values of a typed job and evaluating its query. What the loader refuses it has cleared itself.
fn run_typed(
    values: &[u8],
    types: &mut [u16],
    query: &mut [u16],
    work: &mut [u16],
    typed: Typed,
) -> Result<Ran, Refusal>
    requires ready { Ready (code_of query.old typed.nodes) (vars_of typed.given.vars typed.given.declared) }
    requires types { type_width * typed.types ≤ length types.old }
    requires nodes { code_width * typed.nodes ≤ length query.old }
    requires vars { 3 * typed.given.declared ≤ length typed.given.vars }
    ensures { Answers values.now types.old query.old (length work.old) typed result types.new query.new work.new }
{
    let vars = Vars::new(&typed.given.vars, typed.given.declared);
    match values::load(values, &vars, work) {
        Ok(loaded) => {
            let code = Nodes::new(query, typed.nodes);
            let made = evaluate(&code, &vars, &loaded, work);
            settle(types, query, work, typed, loaded.entries, made)
        }
        Err(refusal) => {
            clear(types, query, &typed);
            Err(refusal)
        }
    }
}

// Runs a job on values in three lent tables: of any bytes, and of any lengths. A refusal leaves every word of them zero.
pub fn run_job(
    job: &[u8],
    values: &[u8],
    types: &mut [u16],
    query: &mut [u16],
    work: &mut [u16],
) -> Result<Ran, Refusal>
    ensures { Left (length types.old) (length query.old) (length work.old) result types.new query.new work.new (run_job (caps_of (length types.old) (length query.old)) (work_capacity (length work.old)) job.now values.now) }
{
    match typed::type_job(job, types, query) {
        Ok(typed) => run_typed(values, types, query, work, typed),
        Err(untyped) => {
            words::clear(work);
            Err(untyped)
        }
    }
}
