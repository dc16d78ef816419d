// Writing a job's query as text: reading the job, then its text into a lent buffer; 1 to 12, 23 and 30.
#![tactic(auto)]

ghost use Rattle.std.specs.Prelude.{◌*◌, ◌≤◌, length};
ghost use Rattle.meaning.specs.Base.{caps_of, type_width, code_width};
ghost use Rattle.meaning.specs.Written.{write_text};
ghost use Rattle.words.specs.Tables.{code_of};
ghost use Rattle.written.specs.Says.{Ready};
ghost use Rattle.texts.specs.Says.{Left, Settled};

use refusals::Refusal;
use tables::Nodes;

// The text's length, and how many type entries and query nodes there are.
#[derive(Clone, Copy, Debug, PartialEq, Eq)]
pub struct Text {
    pub length: usize,
    pub types: usize,
    pub nodes: usize,
}

// The text of a job that was read: the tables stay, or 23 or 30 and what reading wrote is cleared.
fn settle(
    types: &mut [u16],
    query: &mut [u16],
    text: &mut [u8],
    count: usize,
    nodes: usize,
) -> Result<Text, Refusal>
    requires types { type_width * count ≤ length types.old }
    requires nodes { code_width * nodes ≤ length query.old }
    requires ready { Ready (code_of query.old nodes) }
    ensures { Settled types.old query.old (length text.old) count nodes result types.new query.new text.new }
{
    match written::write(&Nodes::new(query, nodes), text) {
        Ok(length) => Ok(Text {
            length,
            types: count,
            nodes,
        }),
        Err(unfit) => {
            words::clear_entries(types, count);
            words::clear_nodes(query, nodes);
            Err(unfit)
        }
    }
}

// Writes the query of a job in two lent tables and a lent buffer: of any bytes, and of any lengths. A refusal leaves every word and every byte of them zero.
pub fn write_text(
    job: &[u8],
    types: &mut [u16],
    query: &mut [u16],
    text: &mut [u8],
) -> Result<Text, Refusal>
    ensures { Left (length types.old) (length query.old) (length text.old) result types.new query.new text.new (write_text (caps_of (length types.old) (length query.old)) (length text.old) job.now) }
{
    match jobs::read_job(job, types, query) {
        Ok(read) => settle(types, query, text, read.types, read.nodes),
        Err(refusal) => {
            words::clear_bytes(text, 0);
            Err(refusal)
        }
    }
}
