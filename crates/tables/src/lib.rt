// Lent tables as what stands in them: the first entries of a type table, the first nodes of a query table, and the declared variables. Each is seen as a list,
// and has its words inside the table that is lent.
#![tactic(auto)]

ghost use Rattle.std.specs.Prelude.{◌≡◌, List, ℕ, ◌*◌, ◌<◌, ◌≤◌, length};
ghost use Rattle.meaning.specs.Base.{type_width, code_width};
ghost use Rattle.meaning.specs.Types.{Table, at};
ghost use Rattle.meaning.specs.Records.{Var, Node, node, node_at};
ghost use Rattle.words.specs.Tables.{table_of, code_of, vars_of};
ghost use Rattle.entries.specs.Says.{shown};
ghost use Rattle.tables.specs.Rows.{var_in, var_at};

use entries::Ty;
use std::marker::Model;
use words::{Entry, Node};

// The first entries of a type table.
#[derive(Drop)]
pub struct Types<'a> {
    words: &'a [u16],
    entries: usize,
}

impl<'a> Model for Types<'a> {
    ghost Value = { Table };

    ghost view = { λ t. table_of t.words.now t.entries };

    ghost invariant = { λ t. type_width * t.entries ≤ length t.words.now };
}

impl<'a> Types<'a> {
    pub fn new(words: &'a [u16], count: usize) -> Types<'a>
        requires { type_width * count ≤ length words.now }
        ensures { result ≡ table_of words.now count }
    {
        Types {
            words,
            entries: count,
        }
    }

    pub fn len(&self) -> usize
        ensures { result ≡ length self.now }
    {
        self.entries
    }

    // The type at entry e.
    pub fn get(&self, e: usize) -> Ty
        requires { e < length self.now }
        ensures { shown result ≡ at self.now e }
    {
        Ty::read(self.words, e)
    }
}

// The first nodes of a query table.
#[derive(Drop)]
pub struct Nodes<'a> {
    words: &'a [u16],
    nodes: usize,
}

impl<'a> Model for Nodes<'a> {
    ghost Value = { List Node };

    ghost view = { λ t. code_of t.words.now t.nodes };

    ghost invariant = { λ t. code_width * t.nodes ≤ length t.words.now };
}

impl<'a> Nodes<'a> {
    pub fn new(words: &'a [u16], count: usize) -> Nodes<'a>
        requires { code_width * count ≤ length words.now }
        ensures { result ≡ code_of words.now count }
    {
        Nodes {
            words,
            nodes: count,
        }
    }

    pub fn len(&self) -> usize
        ensures { result ≡ length self.now }
    {
        self.nodes
    }

    // The words of node n.
    pub fn get(&self, n: usize) -> Node
        requires { n < length self.now }
        ensures { node result.kind result.a result.b result.c ≡ node_at self.now n }
    {
        words::read_node(self.words, n)
    }
}

// The declared variables.
#[derive(Drop)]
pub struct Vars<'a> {
    words: &'a [u16],
    declared: usize,
}

impl<'a> Model for Vars<'a> {
    ghost Value = { List (ℕ × Var) };

    ghost view = { λ t. vars_of t.words.now t.declared };

    ghost invariant = { λ t. 3 * t.declared ≤ length t.words.now };
}

impl<'a> Vars<'a> {
    pub fn new(words: &'a [u16], count: usize) -> Vars<'a>
        requires { 3 * count ≤ length words.now }
        ensures { result ≡ vars_of words.now count }
    {
        Vars {
            words,
            declared: count,
        }
    }

    pub fn len(&self) -> usize
        ensures { result ≡ length self.now }
    {
        self.declared
    }

    // The words of the i-th: its kind, 17 or 18, its number and its type.
    pub fn get(&self, i: usize) -> Entry
        requires { i < length self.now }
        ensures { var_in result ≡ var_at self.now i }
    {
        words::read_entry(self.words, i)
    }
}
