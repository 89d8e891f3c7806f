// What the search asks of a kind: the part in which its targets have an atom, and the atom that its steps name.
#![tactic(auto)]

ghost use Rattle.std.specs.Prelude.{◌≡◌, cond};
ghost use Rattle.rewriting.specs.Kinds.{uses_atom};
ghost use Rattle.step_kinds.specs.Kinds.{PartnerKind, walked_part, target_part};

use rewriting::Kind;
use step_parts::Part;

// The part that the search of a kind walks.
pub fn walked_part(kind: Kind) -> Part
    ensures { result ≡ walked_part kind }
{
    match kind {
        Kind::Tautology => Part::Head,
        Kind::NoHead => Part::Neg,
        _ => Part::Pos,
    }
}

// The part in which a target has the head atoms of a partner of the kind.
pub fn target_part(kind: Kind) -> Part
    ensures { result ≡ target_part kind }
{
    match kind {
        Kind::Success => Part::Pos,
        Kind::Blocked => Part::Neg,
        _ => Part::Head,
    }
}

// The atom that a step of a kind with a partner names, where its partner's first head atom is a.
pub fn named_atom(kind: Kind, a: u16) -> u16
    requires { PartnerKind kind }
    ensures { result ≡ cond (uses_atom kind) a 0 }
{
    if kind == Kind::Success { a } else { 0 }
}
