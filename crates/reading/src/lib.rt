// Reads a job or an answer file into the type table and the query table that the caller lends: refusals 1 to 7, record by record from the front.
#![tactic(auto)]

ghost use Rattle.std.specs.Prelude.{◌≡◌, [], ◌∷◌, ◌+◌, ◌*◌, ◌≤◌, ◌<◌, length};
ghost use Rattle.meaning.specs.Base.{find, is_some, zeros, padded, caps_of};
ghost use Rattle.meaning.specs.Types.{table_words, base};
ghost use Rattle.meaning.specs.Records.{Tables, in_order, has_room, declared_again, fresh, read_from, read_records};
ghost use Rattle.words.specs.Tables.{stored};
ghost use Rattle.records.specs.Says.{file_of, section_of};
ghost use Rattle.reading.specs.Says.{caps, nothing_given, Left};
ghost use Rattle.reading.specs.Steps.{Counted, Few, Placed, counted, Admits, Advances};
ghost use Rattle.reading.specs.Lists.{lists, Space, Stores, Blank, Begun, Ends};

use records::{File, Item, Section};
use refusals::{Reason, Refusal};
use tables::{Nodes, Vars};

// How far a file is read: the place of the next record, how many entries, definitions, variables and query nodes there are, the section, and the result
// entry if record 80 was read.
#[derive(Clone, Copy, Debug, PartialEq, Eq)]
pub struct Counts {
    pub at: usize,
    pub types: usize,
    pub defs: usize,
    pub vars: usize,
    pub nodes: usize,
    pub section: Section,
    pub result: Option<u16>,
}

// What the next record does: it is stored, and the counts go on.
#[derive(Clone, Copy, Debug, PartialEq, Eq)]
pub struct Step {
    pub item: Item,
    pub next: Counts,
}

// Whether a section may come next.
fn in_order(here: Counts, section: Section) -> bool
    ensures { (t : Tables) → Counted here t → result ≡ in_order t (section_of section) }
{
    if here.result.is_some() {
        return false; // nothing comes after record 80
    }
    here.section <= section
}

// Whether there is room for one more of a section.
fn has_room(here: Counts, section: Section, room: usize, limit: usize) -> bool
    ensures { (t : Tables) → Counted here t → result ≡ has_room (caps room limit) t (section_of section) }
{
    match section {
        Section::Types => here.types < room,
        Section::Definitions => here.defs < 64,
        Section::Variables => here.vars < 16,
        Section::Query => here.nodes < limit,
        Section::Result | Section::Values => true,
    }
}

// Whether a variable is declared.
fn declared(vars: &Vars, v: u16) -> bool
    ensures { result ≡ is_some (find v vars.now) }
{
    for i in 0..vars.len() {
        if vars.get(i).a == v {
            return true;
        }
    }
    false
}

// Whether a record declares a variable again.
fn again(section: Section, vars: &Vars, v: u16) -> bool
    ensures { (t : Tables) → vars.now ≡ t.vars → result ≡ declared_again t (section_of section) v }
{
    section == Section::Variables && declared(vars, v)
}

// The counts with a record more.
fn count(here: Counts, i: Item) -> Counts
    requires { Few here }
    ensures { result ≡ counted here i }
{
    let section = i.form.section;
    let mut next = here;
    next.at = i.next;
    next.section = section;
    match section {
        Section::Types => next.types += 1,
        Section::Definitions => next.defs += 1,
        Section::Variables => next.vars += 1,
        Section::Query => next.nodes += 1,
        Section::Result => next.result = Some(i.a),
        Section::Values => {}
    }
    next
}

// The counts with a whole record, in the order of the refusals: 4, 5, 6, 7.
fn admit(
    i: Item,
    here: Counts,
    room: usize,
    limit: usize,
    vars: &Vars,
    code: &Nodes,
) -> Result<Counts, Reason>
    requires { Few here }
    ensures { Admits room limit i here vars.now code.now result }
{
    let section = i.form.section;
    if !in_order(here, section) {
        return Err(Reason::OutOfOrder);
    }
    if !has_room(here, section, room, limit) {
        return Err(Reason::TooMany);
    }
    if !records::item_fits(i, here.types, code) {
        return Err(Reason::Unfit);
    }
    if again(section, vars, i.a) {
        return Err(Reason::DeclaredTwice);
    }
    Ok(count(here, i))
}

// What the next record does, from the counts and the tables so far; or why it is refused, at its place.
pub fn advance(
    file: File,
    s: &[u8],
    here: Counts,
    room: usize,
    limit: usize,
    vars: &Vars,
    code: &Nodes,
) -> Result<Step, Reason>
    requires { Placed s.now here }
    ensures { Advances (file_of file) s.now room limit here vars.now code.now result }
{
    let item = records::record_at(file, s, here.at)?;
    let next = admit(item, here, room, limit, vars, code)?;
    Ok(Step { item, next })
}

// The words of a variable stored at its place.
fn put_var(vars: &mut [u16], n: usize, kind: u16, v: u16, e: u16)
    requires { 3 * n + 3 ≤ length vars.old }
    ensures { vars.new ≡ stored vars.old (3 * n) (kind ∷ v ∷ e ∷ []) }
{
    let at = 3 * n;
    vars[at..at + 3].copy_from_slice(&[kind, v, e]);
}

// A record stored behind those that are there.
fn store(
    i: Item,
    here: Counts,
    types: &mut [u16],
    code: &mut [u16],
    defs: &mut [u16],
    vars: &mut [u16],
)
    requires { Space i here (lists types.old code.old defs.old vars.old) }
    ensures { Stores i here (lists types.old code.old defs.old vars.old) (lists types.new code.new defs.new vars.new) }
{
    let section = i.form.section;
    let n = here.defs;
    match section {
        Section::Types => words::put_entry(types, here.types, i.kind, i.a, i.b),
        Section::Definitions => defs[n] = i.a,
        Section::Variables => put_var(vars, here.vars, i.kind, i.a, i.b),
        Section::Query => words::put_node(code, here.nodes, i.kind, i.a, i.b, i.c),
        Section::Result | Section::Values => {}
    }
}

// Reads from the start to the end, with entries 0 and 1 in place and the rest of the tables clear. A refusal clears the types and the query again.
fn read_on(
    file: File,
    s: &[u8],
    room: usize,
    limit: usize,
    types: &mut [u16],
    code: &mut [u16],
    defs: &mut [u16],
    vars: &mut [u16],
) -> Result<Counts, Refusal>
    requires { Begun room limit (lists types.old code.old defs.old vars.old) }
    ensures { Ends (length types.old) (length code.old) (lists types.new code.new defs.new vars.new) (read_from (length s.now) (file_of file) (caps room limit) s.now 0 fresh) result }
{
    let mut here = Counts {
        at: 0,
        types: 2,
        defs: 0,
        vars: 0,
        nodes: 0,
        section: Section::Types,
        result: None,
    };
    while here.at < s.len() {
        let declared = Vars::new(vars, here.vars);
        let nodes = Nodes::new(code, here.nodes);
        match advance(file, s, here, room, limit, &declared, &nodes) {
            Ok(step) => {
                store(step.item, here, types, code, defs, vars);
                here = step.next;
            }
            Err(reason) => {
                words::clear_entries(types, here.types);
                words::clear_nodes(code, here.nodes);
                return Err(Refusal {
                    reason,
                    place: here.at,
                });
            }
        }
    }
    Ok(here)
}

// The definitions and the declared variables (three words each: 17 or 18, number, type), with zeros after them, and how many there are.
#[derive(Clone, Copy)]
pub struct Given {
    pub defs: [u16; 64],
    pub vars: [u16; 48],
    pub used: usize,
    pub declared: usize,
}

// What reading gives besides the lent tables: how many entries and nodes were read, the result entry if record 80 was read, and what is given.
#[derive(Clone, Copy)]
pub struct Read {
    pub types: usize,
    pub nodes: usize,
    pub result: Option<u16>,
    pub given: Given,
}

// No definition and no variable.
pub fn nothing_given() -> Given
    ensures { result ≡ nothing_given }
{
    Given {
        defs: [0u16; 64],
        vars: [0u16; 48],
        used: 0,
        declared: 0,
    }
}

// Entries 0 and 1, () and String, in a table that is clear.
fn put_base(types: &mut [u16])
    requires { Blank types.old }
    ensures { types.new ≡ padded (length types.old) (table_words base) }
{
    words::put_entry(types, 0, 1, 0, 0);
    words::put_entry(types, 1, 2, 0, 0);
}

// Reads the records of a file into two tables that are clear and have room for entries 0 and 1.
fn read_into(file: File, s: &[u8], types: &mut [u16], code: &mut [u16]) -> Result<Read, Refusal>
    requires blank { Blank types.old }
    requires clear { code.old ≡ zeros (length code.old) }
    ensures { Left (length types.old) (length code.old) result types.new code.new (read_records (file_of file) (caps_of (length types.old) (length code.old)) s.now) }
{
    let room = words::type_room(types);
    let limit = words::code_room(code);
    put_base(types);
    let mut defs = [0u16; 64];
    let mut vars = [0u16; 48];
    let counts = read_on(file, s, room, limit, types, code, &mut defs, &mut vars)?;
    let given = Given {
        defs,
        vars,
        used: counts.defs,
        declared: counts.vars,
    };
    Ok(Read {
        types: counts.types,
        nodes: counts.nodes,
        result: counts.result,
        given,
    })
}

// Reads the records of a file into two lent tables. A refusal leaves every word of them zero.
pub fn read_records(
    file: File,
    s: &[u8],
    types: &mut [u16],
    code: &mut [u16],
) -> Result<Read, Refusal>
    ensures { Left (length types.old) (length code.old) result types.new code.new (read_records (file_of file) (caps_of (length types.old) (length code.old)) s.now) }
{
    words::clear(types);
    words::clear(code);
    let too_small = words::type_room(types) < 2;
    if too_small {
        return Err(Refusal {
            reason: Reason::TooMany,
            place: 0,
        });
    }
    read_into(file, s, types, code)
}
