use plan::Fault;
use std::fmt;

// The number and the place of a refusal, behind a word; nothing where there is none.
#[derive(Clone, Copy)]
pub(crate) struct Refusal(pub Option<Fault>);

impl fmt::Display for Refusal {
    fn fmt<W: fmt::Write>(&self, f: &mut fmt::Formatter<W>) -> fmt::Result {
        match self.0 {
            Some(Fault { number, place }) => write!(f, " refused {number} {place}"),
            None => Ok(()),
        }
    }
}

// Numbers, each behind a space.
#[derive(Clone, Copy)]
pub(crate) struct Numbers<'a, T>(pub &'a [T]);

impl<'a, T: fmt::Display> fmt::Display for Numbers<'a, T> {
    fn fmt<W: fmt::Write>(&self, f: &mut fmt::Formatter<W>) -> fmt::Result {
        for number in self.0 {
            write!(f, " {number}")?;
        }
        Ok(())
    }
}

// Bytes behind a space, each as two hexadecimal digits; nothing where there are none.
#[derive(Clone, Copy)]
pub(crate) struct Bytes<'a>(pub &'a [u8]);

impl<'a> fmt::Display for Bytes<'a> {
    fn fmt<W: fmt::Write>(&self, f: &mut fmt::Formatter<W>) -> fmt::Result {
        if !self.0.is_empty() {
            f.write_str(" ")?;
        }
        for byte in self.0 {
            write!(f, "{byte:02x}")?;
        }
        Ok(())
    }
}
