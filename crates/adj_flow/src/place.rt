//! Where statements stand.

ghost use Rattle.std.specs.Prelude.{◌≡◌, ◌<◌, ◌^◌};
ghost use Rattle.adj_tree.specs.Code.{plain};
ghost use Rattle.def_flow.specs.Uses.{site, turned_by, is_turn};
ghost use Rattle.adj_flow.specs.Low.{IsLow};
ghost use Rattle.adj_flow.specs.View.{place_of};

use adj_tree::Name;

/// Where a statement stands.
#[derive(Clone, Copy)]
pub enum Place<'a> {
    /// In the body of its unit.
    Outermost,
    /// In the statement of this number, an IF, a DO WHILE, or a DO that isn't marked.
    PartOf(usize),
    /// In the marked loop of this number and with this variable.
    TurnOf(usize, &'a Name),
}

impl Place<'_> {
    /// The statement at which a call at this place does its work: itself, or the marked loop whose turns it makes, if it is adjointed.
    pub fn site(self, is_adjointed: bool, statement: usize) -> usize
        requires low { IsLow self }
        requires statement { statement < 2 ^ 30 }
        ensures low { result < 2 ^ 30 }
        ensures is { result ≡ site is_adjointed statement (place_of self.entry) }
    {
        match self {
            Place::Outermost | Place::PartOf(_) => statement,
            Place::TurnOf(holder, _) => { if is_adjointed { holder } else { statement } }
        }
    }

    /// Whether this is the variable of the marked loop whose turns a call at this place makes.
    pub fn turns(self, name: &Name) -> bool
        ensures is { result ≡ turned_by (place_of self.entry) (plain name.now) }
    {
        match self {
            Place::Outermost | Place::PartOf(_) => false,
            Place::TurnOf(_, variable) => variable.equals(name),
        }
    }

    /// Whether a call at this place makes the turns of a marked loop.
    pub fn is_turn(self) -> bool
        ensures is { result ≡ is_turn (place_of self.entry) }
    {
        match self {
            Place::Outermost | Place::PartOf(_) => false,
            Place::TurnOf(_, _) => true,
        }
    }
}
