// What is printed of a call, for any writer: each type says which bytes it writes.
// Words, marks and texts are three public types, each with a loop of its own.

use crate::{PLACES, exchanged};
use std::fmt;

// The answer of a call: its value, or the number and place of the question that refuses it.
#[derive(Clone, Copy)]
pub struct Answered(pub u64);

impl fmt::Display for Answered {
    ghost use Rattle.std.specs.Prelude.{Some};
    ghost use Rattle.cases_lines.specs.Shown.{answered_text};

    ghost output = { λ a. Some (answered_text a.0) };

    fn fmt<W: fmt::Write>(&self, f: &mut fmt::Formatter<W>) -> fmt::Result {
        let rest = self.0 % PLACES;
        match self.0 / PLACES {
            0 => write!(f, "taken={rest}"),
            number => write!(f, "refused={number},{rest}"),
        }
    }
}

// Words, each with a comma behind it.
#[derive(Clone, Copy)]
pub struct Words<'a>(pub &'a [u16]);

impl<'a> fmt::Display for Words<'a> {
    ghost use Rattle.std.specs.Prelude.{Some};
    ghost use Rattle.cases_lines.specs.Shown.{words_text};

    ghost output = { λ w. Some (words_text w.0.now) };

    fn fmt<W: fmt::Write>(&self, f: &mut fmt::Formatter<W>) -> fmt::Result {
        f.write_str(" words=")?;
        for word in self.0 {
            write!(f, "{word},")?;
        }
        Ok(())
    }
}

// Marks.
#[derive(Clone, Copy)]
pub struct Marks<'a>(pub &'a [u8]);

impl<'a> fmt::Display for Marks<'a> {
    ghost use Rattle.std.specs.Prelude.{Some};
    ghost use Rattle.cases_lines.specs.Shown.{marks_text};

    ghost output = { λ m. Some (marks_text m.0.now) };

    fn fmt<W: fmt::Write>(&self, f: &mut fmt::Formatter<W>) -> fmt::Result {
        f.write_str(" marks=")?;
        for mark in self.0 {
            write!(f, "{mark}")?;
        }
        Ok(())
    }
}

// The bytes of a text, a line feed as a slash; each as the character of its number.
#[derive(Clone, Copy)]
pub struct Text<'a>(pub &'a [u8]);

impl<'a> fmt::Display for Text<'a> {
    ghost use Rattle.std.specs.Prelude.{Some};
    ghost use Rattle.cases_lines.specs.Shown.{text_text};

    ghost output = { λ t. Some (text_text t.0.now) };

    fn fmt<W: fmt::Write>(&self, f: &mut fmt::Formatter<W>) -> fmt::Result {
        f.write_str(" text=")?;
        for byte in self.0 {
            write!(f, "{}", char::from(exchanged(*byte)))?;
        }
        Ok(())
    }
}

#[cfg(test)]
mod tests {
    use super::*;
    use std::test::Fail;

    #[test]
    fn shows(rt: HostRuntime) -> Result<(), Fail> {
        let words = Words(&[2, 0, 65535]);
        let marks = Marks(&[1, 0, 7]);
        let text = Text(b"atoms=0\n");
        let taken = format!(in rt.alloc(); "{}{marks}{words}", Answered(12))?;
        let refused = format!(in rt.alloc(); "{}{text}", Answered(4 << 48 | 6))?;
        assert_eq!(rt; taken.as_str(), "taken=12 marks=107 words=2,0,65535,");
        assert_eq!(rt; refused.as_str(), "refused=4,6 text=atoms=0/");
        Ok(())
    }
}
