// Places in words.
use crate::location::{Place, Step};
use std::fmt;

/// As [`pointer_of`](crate::pointer_of) writes it.
impl fmt::Display for Place {
    fn fmt<W: fmt::Write>(&self, f: &mut fmt::Formatter<W>) -> fmt::Result {
        if self.len() == 0 {
            return write!(f, "the root");
        }
        for step in self.as_slice() {
            match step {
                Step::Key(key) => write_key(f, key.as_str())?,
                Step::Item(number) => write!(f, "/{number}")?,
            }
        }
        Ok(())
    }
}

fn write_key<W: fmt::Write>(f: &mut fmt::Formatter<W>, key: &str) -> fmt::Result {
    write!(f, "/")?;
    for character in key.chars() {
        match character {
            '~' => write!(f, "~0")?,
            '/' => write!(f, "~1")?,
            _ => write!(f, "{character}")?,
        }
    }
    Ok(())
}
