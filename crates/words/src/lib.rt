// Words in bytes, entries and nodes in lent tables, clearing, copying, and the test word: the leaves that reading, typing and running share.
// Only these functions know how many words an entry has.
#![tactic(auto)]

ghost use Rattle.std.specs.Prelude.{◌≡◌, [], ◌∷◌, ◌++◌, length, get_or, take, drop};
ghost use Prim.Native.Nat.{◌+◌, ◌*◌, ◌/◌, ◌≤◌, ◌<◌, min};
ghost use Rattle.meaning.specs.Base.{word, bytes_of, zeros, padded, type_width, code_width, type_capacity, code_capacity, work_capacity};
ghost use Rattle.meaning.specs.Forests.{passes};
ghost use Rattle.meaning.specs.Records.{is_condition};
ghost use Rattle.words.specs.Tables.{stored};
ghost use Rattle.words.specs.Says.{head_of};

// The little-endian 16-bit word at a byte offset.
pub fn word(s: &[u8], at: usize) -> u16
    requires { at + 2 ≤ length s.now }
    ensures { result ≡ word s.now at }
{
    u16::from_le_bytes([s[at], s[at + 1]])
}

// A little-endian 16-bit word stored at a byte offset.
pub fn put_word(t: &mut [u8], at: usize, w: u16)
    requires { at + 2 ≤ length t.old }
    ensures { t.new ≡ stored t.old at (bytes_of (w ∷ [])) }
{
    t[at..at + 2].copy_from_slice(&w.to_le_bytes());
}

// How many type entries, query nodes and forest entries a lent table has room for.
pub fn type_room(t: &[u16]) -> usize
    ensures { result ≡ type_capacity (length t.now) }
{
    room::<3, 4096>(t)
}

pub fn code_room(t: &[u16]) -> usize
    ensures { result ≡ code_capacity (length t.now) }
{
    room::<4, 1024>(t)
}

pub fn work_room(t: &[u16]) -> usize
    ensures { result ≡ work_capacity (length t.now) }
{
    room::<3, 8192>(t)
}

// Rows of so many words, at most so many of them.
fn room<const WIDTH: usize, const MOST: usize>(t: &[u16]) -> usize
    requires { 0 < WIDTH }
    ensures { result ≡ min (length t.now / WIDTH) MOST }
{
    (t.len() / WIDTH).min(MOST)
}

// The words of an entry: its kind and its fields.
#[derive(Clone, Copy, Debug, PartialEq, Eq)]
pub struct Entry {
    pub kind: u16,
    pub a: u16,
    pub b: u16,
}

pub fn read_entry(t: &[u16], e: usize) -> Entry
    requires { type_width * e + type_width ≤ length t.now }
    ensures { result ≡ record { kind = get_or t.now (type_width * e) 0; a = get_or t.now (type_width * e + 1) 0; b = get_or t.now (type_width * e + 2) 0 } }
{
    let at = 3 * e;
    let kind = t[at];
    let a = t[at + 1];
    let b = t[at + 2];
    Entry { kind, a, b }
}

// The words of a query node.
#[derive(Clone, Copy, Debug, PartialEq, Eq)]
pub struct Node {
    pub kind: u16,
    pub a: u16,
    pub b: u16,
    pub c: u16,
}

pub fn read_node(t: &[u16], n: usize) -> Node
    requires { code_width * n + code_width ≤ length t.now }
    ensures { result ≡ record { kind = get_or t.now (code_width * n) 0; a = get_or t.now (code_width * n + 1) 0; b = get_or t.now (code_width * n + 2) 0; c = get_or t.now (code_width * n + 3) 0 } }
{
    let at = 4 * n;
    let kind = t[at];
    let a = t[at + 1];
    let b = t[at + 2];
    let c = t[at + 3];
    Node { kind, a, b, c }
}

// Whether a query node of this kind is a condition.
pub fn is_condition(kind: u16) -> bool
    ensures { result ≡ is_condition kind }
{
    matches!(kind, 48..=53)
}

// The words of an entry stored at its place.
pub fn put_entry(t: &mut [u16], e: usize, kind: u16, a: u16, b: u16)
    requires { type_width * e + type_width ≤ length t.old }
    ensures { t.new ≡ stored t.old (type_width * e) (kind ∷ a ∷ b ∷ []) }
{
    let at = 3 * e;
    t[at] = kind;
    t[at + 1] = a;
    t[at + 2] = b;
}

// The words of a node stored at its place.
pub fn put_node(t: &mut [u16], n: usize, kind: u16, a: u16, b: u16, c: u16)
    requires { code_width * n + code_width ≤ length t.old }
    ensures { t.new ≡ stored t.old (code_width * n) (kind ∷ a ∷ b ∷ c ∷ []) }
{
    let at = 4 * n;
    t[at] = kind;
    t[at + 1] = a;
    t[at + 2] = b;
    t[at + 3] = c;
}

// Zeros in the whole of a table.
pub fn clear(t: &mut [u16])
    ensures { t.new ≡ zeros (length t.old) }
{
    t.fill(0);
}

// Zeros in the first entries and in the first nodes of a table.
pub fn clear_entries(t: &mut [u16], n: usize)
    requires { type_width * n ≤ length t.old }
    ensures { t.new ≡ zeros (type_width * n) ++ drop (type_width * n) t.old }
{
    t[..3 * n].fill(0);
}

pub fn clear_nodes(t: &mut [u16], n: usize)
    requires { code_width * n ≤ length t.old }
    ensures { t.new ≡ zeros (code_width * n) ++ drop (code_width * n) t.old }
{
    t[..4 * n].fill(0);
}

// Zeros behind the first entries of a table.
pub fn clear_behind(t: &mut [u16], n: usize)
    requires { type_width * n ≤ length t.old }
    ensures { t.new ≡ padded (length t.old) (take (type_width * n) t.old) }
{
    t[3 * n..].fill(0);
}

// Zeros in a buffer from an offset on.
pub fn clear_bytes(t: &mut [u8], from: usize)
    ensures { t.new ≡ padded (length t.old) (take from t.old) }
{
    let start = from.min(t.len());
    t[start..].fill(0);
}

// A stretch copied to the front of a table.
pub fn copy(from: &[u16], to: &mut [u16])
    requires { length from.now ≤ length to.old }
    ensures { to.new ≡ stored to.old 0 from.now }
{
    to[..from.len()].copy_from_slice(from);
}

// What a test word looks at: the top of a tree, or an atom of a type.
#[derive(Clone, Copy, Debug, PartialEq, Eq)]
pub enum Head {
    Text,
    Label(u16),
}

// Whether a tree or an atom passes a test word.
pub fn passes(test: u16, head: Head) -> bool
    ensures { result ≡ passes test (head_of head) }
{
    match test {
        0 => true,
        1..=65534 => match head {
            Head::Text => false,
            Head::Label(label) => test == label,
        },
        65535 => matches!(head, Head::Text),
    }
}
