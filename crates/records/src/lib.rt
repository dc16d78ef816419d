// One record of a job, an answer file or a values file: its kind decides its section, its length and the sorts of its fields. Refusals 1 to 3, and
// whether the fields fit.
#![tactic(auto)]

ghost use Rattle.std.specs.Prelude.{◌≡◌, [], ◌∷◌, ◌+◌, ◌*◌, ◌^◌, ◌≤◌, ◌<◌, length};
ghost use Rattle.meaning.specs.Records.{values, has_section, fits, all_fit};
ghost use Rattle.records.specs.Says.{sort_of, file_of, section_of, sorts_of, fields_of, Has, Formed, Owned, KindAt, FieldAt, Stands, Makes};

use refusals::Reason;
use tables::Nodes;

// What a field is: a label, the number of a type entry, of a definition or of a variable, any word, a query node that is no condition, a condition.
#[derive(Clone, Copy, Debug, PartialEq, Eq)]
pub enum Sort {
    Label,
    EntryNo,
    DefNo,
    VarNo,
    AnyWord,
    QueryNo,
    CondNo,
}

// What is read in sections: a job or an answer file.
#[derive(Clone, Copy, Debug, PartialEq, Eq)]
pub enum File {
    Job,
    Answer,
}

// The sections of files, in their order; the records of values files stand in one of their own.
#[derive(Clone, Copy, Debug, PartialEq, Eq, PartialOrd, Ord)]
pub enum Section {
    Types,
    Definitions,
    Variables,
    Query,
    Result,
    Values,
}

// What a record of a kind has: its section, its length in bytes, and the sorts of its fields (of one that it does not have: any word).
#[derive(Clone, Copy, Debug, PartialEq, Eq)]
pub struct Form {
    pub section: Section,
    pub length: usize,
    pub a: Sort,
    pub b: Sort,
    pub c: Sort,
}

impl Form {
    // The forms with no field, with one, two and three.
    #[tactic(auto, unfolding(crate::specs::Says::sorts_of))]
    fn bare(section: Section) -> Form
        ensures { Has (section_of section) [] result }
    {
        Form {
            section,
            length: 4,
            a: Sort::AnyWord,
            b: Sort::AnyWord,
            c: Sort::AnyWord,
        }
    }

    #[tactic(auto, unfolding(crate::specs::Says::sorts_of))]
    fn one(section: Section, a: Sort) -> Form
        ensures { Has (section_of section) (sort_of a ∷ []) result }
    {
        Form {
            section,
            length: 6,
            a,
            b: Sort::AnyWord,
            c: Sort::AnyWord,
        }
    }

    #[tactic(auto, unfolding(crate::specs::Says::sorts_of))]
    fn two(section: Section, a: Sort, b: Sort) -> Form
        ensures { Has (section_of section) (sort_of a ∷ sort_of b ∷ []) result }
    {
        Form {
            section,
            length: 8,
            a,
            b,
            c: Sort::AnyWord,
        }
    }

    #[tactic(auto, unfolding(crate::specs::Says::sorts_of))]
    fn three(section: Section, a: Sort, b: Sort, c: Sort) -> Form
        ensures { Has (section_of section) (sort_of a ∷ sort_of b ∷ sort_of c ∷ []) result }
    {
        Form {
            section,
            length: 10,
            a,
            b,
            c,
        }
    }
}

// The form of a kind.
#[inline(always)]
pub fn form_of(kind: u16) -> Option<Form>
    ensures { Formed kind result }
{
    let form = match kind {
        3 => Form::two(Section::Types, Sort::Label, Sort::EntryNo),
        4..=5 => Form::two(Section::Types, Sort::EntryNo, Sort::EntryNo),
        6..=8 => Form::one(Section::Types, Sort::EntryNo),
        9 => Form::one(Section::Types, Sort::DefNo),
        16 => Form::one(Section::Definitions, Sort::EntryNo),
        17..=18 => Form::two(Section::Variables, Sort::VarNo, Sort::EntryNo),
        32 => Form::bare(Section::Query),
        33 => Form::one(Section::Query, Sort::AnyWord),
        34 => Form::two(Section::Query, Sort::Label, Sort::QueryNo),
        35 => Form::two(Section::Query, Sort::QueryNo, Sort::QueryNo),
        36 | 51 => Form::one(Section::Query, Sort::VarNo),
        37..=38 => Form::two(Section::Query, Sort::VarNo, Sort::AnyWord),
        39..=40 => Form::three(Section::Query, Sort::VarNo, Sort::QueryNo, Sort::QueryNo),
        41 => Form::two(Section::Query, Sort::CondNo, Sort::QueryNo),
        48..=49 => Form::bare(Section::Query),
        50 => Form::two(Section::Query, Sort::VarNo, Sort::VarNo),
        52 => Form::two(Section::Query, Sort::CondNo, Sort::CondNo),
        53 => Form::one(Section::Query, Sort::CondNo),
        64..=66 => return value_form(kind),
        80 => Form::one(Section::Result, Sort::EntryNo),
        _ => return None,
    };
    Some(form)
}

// The form of a kind in a values file.
fn value_form(kind: u16) -> Option<Form>
    ensures { Owned values kind result }
{
    match kind {
        64 => Some(Form::one(Section::Values, Sort::AnyWord)),
        65 => Some(Form::two(Section::Values, Sort::Label, Sort::AnyWord)),
        66 => Some(Form::two(Section::Values, Sort::VarNo, Sort::AnyWord)),
        _ => None,
    }
}

// Whether a file has records of a section.
fn has_section(file: File, section: Section) -> bool
    ensures { result ≡ has_section (file_of file) (section_of section) }
{
    match file {
        File::Job => section <= Section::Query,
        File::Answer => section <= Section::Definitions || section == Section::Result,
    }
}

// The form of a kind in a file that is read in sections.
fn form_in(file: File, kind: u16) -> Option<Form>
    ensures { Owned (file_of file) kind result }
{
    let form = form_of(kind)?;
    if !has_section(file, form.section) {
        return None;
    }
    Some(form)
}

// A whole record: its kind, its fields (one that it does not have is 0), its form, and the place after it.
#[derive(Clone, Copy, Debug, PartialEq, Eq)]
pub struct Item {
    pub kind: u16,
    pub a: u16,
    pub b: u16,
    pub c: u16,
    pub form: Form,
    pub next: usize,
}

// The kind of the record at a place.
fn kind_at(s: &[u8], at: usize) -> Result<u16, Reason>
    requires { at ≤ length s.now }
    ensures { KindAt s.now at result }
{
    if s.len() - at < 4 {
        return Err(Reason::Cut);
    }
    Ok(words::word(s, at + 2))
}

// The field at a place of a record that ends at `end`, or 0 where it has no such field.
fn field_at(s: &[u8], at: usize, end: usize) -> u16
    requires { (at + 2 < 2 ^ 64) × (end ≤ length s.now) }
    ensures { FieldAt s.now at end result }
{
    if at + 2 <= end {
        return words::word(s, at);
    }
    0
}

// The record at a place, of a kind that has this form in its file.
fn item_at(s: &[u8], at: usize, kind: u16, form: Form) -> Result<Item, Reason>
    requires { at + 4 ≤ length s.now }
    ensures { Makes s.now at kind form result }
{
    let length = form.length;
    if usize::from(words::word(s, at)) != length {
        return Err(Reason::WrongLength); // a known kind
    }
    if s.len() - at < length {
        return Err(Reason::Cut);
    }
    let next = at + length;
    let a = field_at(s, at + 4, next);
    let b = field_at(s, at + 6, next);
    let c = field_at(s, at + 8, next);
    Ok(Item {
        kind,
        a,
        b,
        c,
        form,
        next,
    })
}

// The record at a place of a job or an answer file; the place is that of the refusal.
pub fn record_at(file: File, s: &[u8], at: usize) -> Result<Item, Reason>
    requires { at ≤ length s.now }
    ensures { Stands (file_of file) s.now at result }
{
    let kind = kind_at(s, at)?;
    let Some(form) = form_in(file, kind) else {
        return Err(Reason::UnknownKind);
    };
    item_at(s, at, kind, form)
}

// The record at a place of a values file, which has few kinds.
pub fn value_at(s: &[u8], at: usize) -> Result<Item, Reason>
    requires { at ≤ length s.now }
    ensures { Stands values s.now at result }
{
    let kind = kind_at(s, at)?;
    let Some(form) = value_form(kind) else {
        return Err(Reason::UnknownKind);
    };
    item_at(s, at, kind, form)
}

// Whether a field fits its sort, with so many type entries, and with these query nodes.
#[inline(always)]
fn field_fits(sort: Sort, w: u16, types: usize, code: &Nodes) -> bool
    ensures { result ≡ fits types code.now (sort_of sort) w }
{
    let n = usize::from(w);
    match sort {
        Sort::Label => (1..=65534).contains(&w),
        Sort::EntryNo => n < types,
        Sort::DefNo | Sort::VarNo => w <= 63,
        Sort::AnyWord => true,
        Sort::QueryNo => n < code.len() && !words::is_condition(code.get(n).kind),
        Sort::CondNo => n < code.len() && words::is_condition(code.get(n).kind),
    }
}

// Whether all fields of a record fit. It is compiled into each caller, so that a record of a values file is judged by code of its own.
#[inline(always)]
pub fn item_fits(i: Item, types: usize, code: &Nodes) -> bool
    ensures { result ≡ all_fit types code.now (sorts_of i.form) (fields_of i) }
{
    let form = i.form;
    let length = form.length;
    if length < 6 {
        return true;
    }
    if !field_fits(form.a, i.a, types, code) {
        return false;
    }
    if length < 8 {
        return true;
    }
    if !field_fits(form.b, i.b, types, code) {
        return false;
    }
    if length < 10 {
        return true;
    }
    field_fits(form.c, i.c, types, code)
}

// Whether all fields of a record fit where there are neither type entries nor query nodes.
pub fn value_fits(i: Item) -> bool
    ensures { result ≡ all_fit 0 [] (sorts_of i.form) (fields_of i) }
{
    item_fits(i, 0, &Nodes::new(&[], 0))
}
