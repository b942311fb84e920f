//! How many calls gave again what is stored.
use std::fmt;

#[derive(Clone, Copy, Default)]
pub struct Count {
    pub equal: u64,
    pub different: u64,
}

impl Count {
    /// One call more.
    pub fn enter(&mut self, repeats: bool) {
        if repeats {
            self.equal = self.equal.wrapping_add(1);
        } else {
            self.different = self.different.wrapping_add(1);
        }
    }

    /// The calls of both. No `Add`: one sum is made, and the members of the trait would say more than the function.
    pub fn and(self, other: Count) -> Count {
        Count {
            equal: self.equal.wrapping_add(other.equal),
            different: self.different.wrapping_add(other.different),
        }
    }
}

impl fmt::Display for Count {
    fn fmt<W: fmt::Write>(&self, f: &mut fmt::Formatter<W>) -> fmt::Result {
        let equal = self.equal;
        let different = self.different;
        write!(f, "equal {equal} different {different}")
    }
}
