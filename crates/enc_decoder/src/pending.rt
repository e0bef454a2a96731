//! Pending bytes, at most three.

ghost use Rattle.std.specs.Prelude.{◌≡◌, ◌<◌, [], ◌∷◌, ◌++◌, length, drop};
ghost use Rattle.enc_decoder.specs.Pending.{bytes_of_pending, first_byte};

/// The pending bytes: read, and their sequence not yet put out.
#[derive(Clone, Copy)]
pub enum Pending {
    Nothing,
    One(u8),
    Two(u8, u8),
    Three(u8, u8, u8),
}

impl Pending {
    /// Returns their number.
    pub fn len(self) -> u8
        ensures { result ≡ length (bytes_of_pending self) }
    {
        match self {
            Pending::Nothing => 0,
            Pending::One(_) => 1,
            Pending::Two(_, _) => 2,
            Pending::Three(_, _, _) => 3,
        }
    }

    /// Returns the first of them.
    pub fn first(self) -> Option<u8>
        ensures { result ≡ first_byte (bytes_of_pending self) }
    {
        match self {
            Pending::Nothing => None,
            Pending::One(first) => Some(first),
            Pending::Two(first, _) => Some(first),
            Pending::Three(first, _, _) => Some(first),
        }
    }

    /// Returns those after the first `count`.
    pub fn skip(self, count: u8) -> Pending
        ensures { bytes_of_pending result ≡ drop count (bytes_of_pending self) }
    {
        match (count, self) {
            (0, _) => self,
            (1, Pending::Two(_, second)) => Pending::One(second),
            (1, Pending::Three(_, second, third)) => Pending::Two(second, third),
            (2, Pending::Three(_, _, third)) => Pending::One(third),
            _ => Pending::Nothing,
        }
    }

    /// Returns these bytes with one more. Condition: there are at most two.
    pub fn with(self, byte: u8) -> Pending
        requires few { length (bytes_of_pending self) < 3 }
        ensures { bytes_of_pending result ≡ bytes_of_pending self ++ byte ∷ [] }
    {
        match self {
            Pending::Nothing => Pending::One(byte),
            Pending::One(first) => Pending::Two(first, byte),
            Pending::Two(first, second) => Pending::Three(first, second, byte),
            Pending::Three(_, _, _) => unreachable!(),
        }
    }
}
