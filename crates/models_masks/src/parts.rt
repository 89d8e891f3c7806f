// Membership and subset tests of a clause's part. Index loops: by iterators the tests of small parts took twice the time.
ghost use Rattle.std.specs.Prelude.{◌≡◌};
ghost use Rattle.semantics.specs.Lists.{any, mem, within};
ghost use Rattle.semantics.specs.Programs.{among};

// Whether the atom is in the part.
pub fn has(part: &[u16], atom: u16) -> bool
    ensures { result ≡ mem atom part.now }
{
    for i in 0..part.len() {
        if atom == part[i] {
            return true;
        }
    }
    false
}

// Whether some atom of the part is in the set.
pub fn meets(part: &[u16], set: &[u16]) -> bool
    ensures { result ≡ any (among set.now) part.now }
{
    for i in 0..part.len() {
        if has(set, part[i]) {
            return true;
        }
    }
    false
}

// Whether every atom of the part is in the set.
pub fn inside(part: &[u16], set: &[u16]) -> bool
    ensures { result ≡ within part.now set.now }
{
    for i in 0..part.len() {
        if !has(set, part[i]) {
            return false;
        }
    }
    true
}
