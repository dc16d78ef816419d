// The public operations. Each takes any bytes and tables of any length, asks nothing of its caller, and has one promise that fixes its answer and the
// final contents of all that it is lent.
#![tactic(auto)]

ghost use Rattle.std.specs.Prelude.{◌≡◌, length};
ghost use Rattle.emberstitch.specs.Promises.{ReadJob, TypeJob, AnswerJob, ReadAnswer, RunJob, ParseText, WriteText, Call, number_of, Small};

use answered::Answered;
use back::Back;
use jobs::Job;
use ran::Ran;
use refusals::Refusal;
use texts::Text;
use typed::Typed;

// Reads a job: the type table and the query table, the definitions and the declared variables; or a refusal, 1 to 12, with its place, and both tables
// zero.
pub fn read_job(job: &[u8], types: &mut [u16], query: &mut [u16]) -> Result<Job, Refusal>
    ensures { ReadJob job.now (length types.old) (length query.old) result types.new query.new }
{
    jobs::read_job(job, types, query)
}

// Types a job: the type table as typing leaves it, with the result's entry, the query table, the definitions and the declared variables; or a refusal,
// 1 to 16, with its place, and both tables zero.
pub fn type_job(job: &[u8], types: &mut [u16], query: &mut [u16]) -> Result<Typed, Refusal>
    ensures { TypeJob job.now (length types.old) (length query.old) result types.new query.new }
{
    typed::type_job(job, types, query)
}

// Answers a job: types it, and writes its answer file into the buffer; or a refusal, 1 to 17, with its place, and every word and byte zero.
pub fn answer_job(
    job: &[u8],
    types: &mut [u16],
    query: &mut [u16],
    answer: &mut [u8],
) -> Result<Answered, Refusal>
    ensures { AnswerJob job.now (length types.old) (length query.old) (length answer.old) result types.new query.new answer.new }
{
    answered::answer_job(job, types, query, answer)
}

// Reads an answer file back: the type table, the definitions and the result; or a refusal, 1 to 6 or 8 to 10, with its place, and the table zero.
pub fn read_answer(file: &[u8], types: &mut [u16]) -> Result<Back, Refusal>
    ensures { ReadAnswer file.now (length types.old) result types.new }
{
    back::read_answer(file, types)
}

// Runs a job on values: types it, loads the values into the work table, and leaves the query's forest behind them; or a refusal, 1 to 16 or 18 to 21,
// with its place, and every word of the three tables zero.
pub fn run_job(
    job: &[u8],
    values: &[u8],
    types: &mut [u16],
    query: &mut [u16],
    work: &mut [u16],
) -> Result<Ran, Refusal>
    ensures { RunJob job.now values.now (length types.old) (length query.old) (length work.old) result types.new query.new work.new }
{
    ran::run_job(job, values, types, query, work)
}

// Parses a text into the query section of a job; or a refusal, 22, 6, 23, 5 or 30, with its place, and every byte zero.
pub fn parse_text(text: &[u8], section: &mut [u8]) -> Result<usize, Refusal>
    ensures { ParseText text.now (length section.old) result section.new }
{
    parses::parse_text(text, section)
}

// Writes the query of a job as text: the tables as reading leaves them, and the text in the buffer; or a refusal, 1 to 12, 23 or 30, with its place, and
// every word and byte zero.
pub fn write_text(
    job: &[u8],
    types: &mut [u16],
    query: &mut [u16],
    text: &mut [u8],
) -> Result<Text, Refusal>
    ensures { WriteText job.now (length types.old) (length query.old) (length text.old) result types.new query.new text.new }
{
    texts::write_text(job, types, query, text)
}

// The number of an answer: its length, or 2^32 times the refusal plus the place.
fn number_of(told: Result<Answered, Refusal>) -> u64
    requires { Small told }
    ensures { result ≡ number_of told }
{
    match told {
        Ok(answered) => answered.length as u64,
        Err(refusal) => 4294967296 * u64::from(refusal.reason.number()) + refusal.place as u64,
    }
}

// What the layout engine, in C, calls by way of `emberstitch_c`: answers a job into a buffer, behind it tables of full capacity. The number is the answer's
// length, or 2^32 times the refusal plus its place, and then every byte of the buffer is zero.
pub fn emberstitch_answer(job: &[u8], answer: &mut [u8]) -> u64
    ensures { Call job.now (length answer.old) result answer.new }
{
    let mut types = [0u16; 12288];
    let mut query = [0u16; 4096];
    number_of(answer_job(job, &mut types, &mut query, answer))
}
