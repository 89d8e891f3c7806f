// The nine steps on ground programs, and the reducer's list. The code is the kinds alone: the definitions are in specs/, the theorems in proofs/.
#![tactic(auto)]

ghost use Rattle.std.specs.Prelude.{◌≡◌};
ghost use Rattle.rewriting.specs.Kinds.{number, uses_partner, uses_atom};
ghost use Rattle.rewriting.specs.Uses.{drops, asks_no_head, asks_heads, asks_reach};
ghost use Rattle.rewriting.specs.Numbered.{Numbers};

// The kinds of step, by their numbers.
#[derive(Clone, Copy, PartialEq, Eq)]
pub enum Kind {
    Tautology = 1,
    Contradiction = 2,
    Success = 3,
    NoHead = 4,
    Blocked = 5,
    Failure = 6,
    Loop = 7,
    Subsumed = 8,
    Excluded = 9,
}

// A number that no kind has.
#[derive(Clone, Copy)]
pub struct UnknownKind(pub u16);

impl TryFrom<u16> for Kind {
    type Error = UnknownKind;

    ghost try_from_gives = { Numbers };

    fn try_from(number: u16) -> Result<Kind, UnknownKind> {
        match number {
            1 => Ok(Kind::Tautology),
            2 => Ok(Kind::Contradiction),
            3 => Ok(Kind::Success),
            4 => Ok(Kind::NoHead),
            5 => Ok(Kind::Blocked),
            6 => Ok(Kind::Failure),
            7 => Ok(Kind::Loop),
            8 => Ok(Kind::Subsumed),
            9 => Ok(Kind::Excluded),
            _ => Err(UnknownKind(number)),
        }
    }
}

impl Kind {
    // The number that the kind has in a list of steps.
    pub fn number(self) -> u16
        ensures { result ≡ number self }
    {
        self as u16
    }

    // Whether a step of the kind has a partner.
    pub fn uses_partner(self) -> bool
        ensures { result ≡ uses_partner self }
    {
        matches!(self, Kind::Success | Kind::Blocked | Kind::Subsumed)
    }

    // Whether it has an atom word.
    pub fn uses_atom(self) -> bool
        ensures { result ≡ uses_atom self }
    {
        !matches!(self, Kind::Blocked | Kind::Subsumed)
    }

    // Whether it asks for an atom in no kept head.
    pub fn asks_no_head(self) -> bool
        ensures { result ≡ asks_no_head self }
    {
        matches!(self, Kind::NoHead | Kind::Failure)
    }

    // Whether it asks which atoms are in kept heads.
    pub fn asks_heads(self) -> bool
        ensures { result ≡ asks_heads self }
    {
        matches!(self, Kind::NoHead | Kind::Failure | Kind::Loop)
    }

    // Whether it asks for the reach.
    pub fn asks_reach(self) -> bool
        ensures { result ≡ asks_reach self }
    {
        self == Kind::Loop
    }

    // Whether it drops a literal of its target.
    pub fn drops_literal(self) -> bool
        ensures { result ≡ drops self }
    {
        matches!(self, Kind::Success | Kind::NoHead)
    }
}
