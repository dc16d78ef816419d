// The variables in scope: what each of the 64 that there can be is, if it is in scope. A scope is a value: `bind`, `unbind` and `lookup` hand it back, as let and a
// variable have it. `get`, `set` and `clear` do the same to a scope that is lent: it has 384 bytes, and handing it back copies them.
#![tactic(auto)]

ghost use Rattle.std.specs.Prelude.{◌≡◌, ◌<◌, length, get_or, Some, None};
ghost use Rattle.meaning.specs.Formed.{VarsRead};
ghost use Rattle.meaning.specs.Records as Records;
ghost use Rattle.meaning.specs.Records.{type_in};
ghost use Rattle.scope.specs.Shows.{var_of, bound, Shows};

use tables::Vars;

// A tree variable or a forest variable of a type.
#[derive(Clone, Copy, Debug, PartialEq, Eq)]
pub enum Var {
    Tree(u16),
    Forest(u16),
}

impl Var {
    // A declared variable of a kind, 17 or 18, and a type.
    fn of_kind(kind: u16, e: u16) -> Var
        ensures { var_of result ≡ Records.var_of kind e }
    {
        match kind {
            17 => Var::Tree(e),
            _ => Var::Forest(e),
        }
    }

    // Its type's entry.
    pub fn entry(self) -> u16
        ensures { result ≡ type_in (var_of self) }
    {
        match self {
            Var::Tree(e) | Var::Forest(e) => e,
        }
    }
}

#[derive(Clone, Copy)]
pub struct Scope {
    pub slots: [Option<Var>; 64],
}

impl Scope {
    // What the variable is, if it is in scope.
    pub fn get(&self, v: usize) -> Option<Var>
        requires { v < 64 }
        ensures { result ≡ get_or self.now.slots v None }
    {
        let slots = &self.slots;
        slots[v]
    }

    // The variable comes into scope.
    pub fn set(&mut self, v: usize, x: Var)
        requires { v < 64 }
        ensures { self.new ≡ bound self.old v (Some x) }
    {
        self.slots[v] = Some(x);
    }

    // The variable goes out of scope.
    pub fn clear(&mut self, v: usize)
        requires { v < 64 }
        ensures { self.new ≡ bound self.old v None }
    {
        self.slots[v] = None;
    }

    // The scope again, and what the variable is, if it is in scope.
    #[inline(always)]
    pub fn lookup(self, v: usize) -> (Scope, Option<Var>)
        requires { v < 64 }
        ensures same { result.0 ≡ self }
        ensures found { result.1 ≡ get_or self.slots v None }
    {
        (self, self.get(v))
    }

    // The scope with the variable.
    #[inline(always)]
    pub fn bind(mut self, v: usize, x: Var) -> Scope
        requires { v < 64 }
        ensures { result ≡ bound self v (Some x) }
    {
        self.set(v, x);
        self
    }

    // The scope without it.
    #[inline(always)]
    pub fn unbind(mut self, v: usize) -> Scope
        requires { v < 64 }
        ensures { result ≡ bound self v None }
    {
        self.clear(v);
        self
    }
}

// The scope of the declared variables.
pub fn declared(vars: &Vars) -> Scope
    requires { VarsRead 4096 vars.now }
    ensures { (length result.slots ≡ 64) × Shows result vars.now }
{
    let count = vars.len();
    let mut scope = Scope { slots: [None; 64] };
    for i in (0..count).rev() {
        let var = vars.get(i);
        let x = Var::of_kind(var.kind, var.b);
        scope = scope.bind(usize::from(var.a), x);
    }
    scope
}
