// Where the forests of the variables in scope stand in the table of held forests: a stretch for each of the 64 variables that there can be, the empty one
// for a variable that is not in scope. A scope is lent, since it has 256 bytes. `bind` tells which stretch it hides and `unbind` puts that stretch back, so
// that the scope is as it was whatever stood there.
#![tactic(auto)]

ghost use Rattle.std.specs.Prelude.{◌≡◌, ◌*◌, ◌≤◌, ◌<◌, length};
ghost use Rattle.meaning.specs.Base.{forest_width};
ghost use Rattle.spans.specs.Shows.{none, part, standing, bound};

// Entries of a table from one on up to another.
#[derive(Clone, Copy, Debug, PartialEq, Eq)]
pub struct Span {
    pub from: u16,
    pub to: u16,
}

impl Span {
    // Their words.
    #[tactic(auto, unfolding(crate::specs::Shows::part))]
    pub fn of(self, held: &[u16]) -> &[u16]
        requires ordered { self.from ≤ self.to }
        requires inside { forest_width * self.to ≤ length held.now }
        ensures { result.now ≡ part held.now self.from self.to }
    {
        let start = 3 * usize::from(self.from);
        let end = 3 * usize::from(self.to);
        &held[start..end]
    }
}

#[derive(Clone, Copy)]
pub struct Spans {
    pub at: [Span; 64],
}

impl Spans {
    // No variable in scope.
    pub fn new() -> Spans
        ensures { result ≡ none }
    {
        let nowhere = Span { from: 0, to: 0 };
        Spans { at: [nowhere; 64] }
    }

    // The variable's stretch.
    pub fn lookup(&self, v: usize) -> Span
        requires { v < 64 }
        ensures { result ≡ standing self.now v }
    {
        self.at[v]
    }

    // Another stretch for a variable; the answer is the one that stood there.
    pub fn bind(&mut self, v: usize, x: Span) -> Span
        requires { v < 64 }
        ensures hidden { result ≡ standing self.old v }
        ensures put { self.new ≡ bound self.old v x }
    {
        let was = self.at[v];
        self.at[v] = x;
        was
    }

    // The stretch that stood there before.
    pub fn unbind(&mut self, v: usize, was: Span)
        requires { v < 64 }
        ensures { self.new ≡ bound self.old v was }
    {
        self.at[v] = was;
    }
}
