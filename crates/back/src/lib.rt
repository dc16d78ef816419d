// Reading an answer file back: 1 to 6 record by record, then 8 if record 80 is missing, then 9 and 10.
#![tactic(auto)]

ghost use Rattle.std.specs.Prelude.{◌≡◌, length};
ghost use Rattle.meaning.specs.Base.{caps_of};
ghost use Rattle.meaning.specs.Answers.{read_answer};
ghost use Rattle.refusals.specs.Says.{told};
ghost use Rattle.back.specs.Says.{Ready, judged, Left, Settled};

use reading::{Given, Read};
use refusals::{Reason, Refusal};
use tables::Types;

// The result entry, and how many type entries a file has, with the definitions.
#[derive(Clone, Copy)]
pub struct Back {
    pub result: usize,
    pub types: usize,
    pub given: Given,
}

// The result entry: 8 in a file of so many bytes that has no record 80, then 9 and 10.
fn judge(bytes: usize, types: &[u16], read: &Read) -> Result<usize, Refusal>
    requires { Ready types.now read.now.types read.now.given }
    ensures { told result ≡ judged bytes read.now.result types.now read.now.types read.now.given }
{
    let Some(result) = read.result else {
        return Err(Refusal {
            reason: Reason::NoQuery,
            place: bytes,
        });
    };
    let known = Types::new(types, read.types);
    let defs = &read.given.defs[..read.given.used];
    match guard::check_types(&known, defs) {
        Ok(()) => Ok(usize::from(result)),
        Err(refusal) => Err(refusal),
    }
}

// The file that was read: it passes and stays, or the table is cleared.
fn settle(bytes: usize, types: &mut [u16], read: Read) -> Result<Back, Refusal>
    requires { Ready types.old read.types read.given }
    ensures { Settled bytes read types.old result types.new }
{
    let count = read.types;
    match judge(bytes, types, &read) {
        Ok(result) => Ok(Back {
            result,
            types: count,
            given: read.given,
        }),
        Err(refusal) => {
            words::clear_entries(types, count);
            Err(refusal)
        }
    }
}

// Reads an answer file into a lent table: of any bytes, and of any length. A refusal leaves every word of it zero.
pub fn read_answer(file: &[u8], types: &mut [u16]) -> Result<Back, Refusal>
    ensures { Left (length types.old) result types.new (read_answer (caps_of (length types.old) 0) file.now) }
{
    let mut none = [0u16; 0];
    let read = reading::read_records(records::File::Answer, file, types, &mut none)?;
    settle(file.len(), types, read)
}
