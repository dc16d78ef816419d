// One node more of the query that a text gives: written while there are at most 1,024, and counted up to 1,025 (more are refused by 5, but the text is still read to its end).
#![tactic(auto)]

ghost use Rattle.std.specs.Prelude.{◌≤◌, length};
ghost use Rattle.meaning.specs.Records.{node};
ghost use Rattle.rows.specs.Says.{Emits};

use words::Node;

// A part of a text that was read: where the text goes on, and how many nodes there are then, up to 1,025.
#[derive(Clone, Copy, Debug, PartialEq, Eq)]
pub struct Part {
    pub next: usize,
    pub nodes: u16,
}

// One node more, and how many there are then.
pub fn emit(code: &mut [u16], nodes: u16, x: Node) -> u16
    requires room { 4096 ≤ length code.old }
    requires few { nodes ≤ 1025 }
    ensures { Emits nodes (node x.kind x.a x.b x.c) code.old result code.new }
{
    let has_room = nodes < 1024;
    if has_room {
        words::put_node(code, usize::from(nodes), x.kind, x.a, x.b, x.c);
        return nodes + 1;
    }
    1025
}
