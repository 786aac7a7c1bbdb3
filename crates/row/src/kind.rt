// The kinds of rows, each with the byte that states it.
ghost use Rattle.std.specs.Prelude.{◌≡◌};
ghost use Rattle.row.specs.Kinds.{byte_of, Stated};

#[derive(Clone, Copy, PartialEq, Eq)]
pub enum Kind {
    Const = 1,
    Var = 2,
    Shift = 3,
    Sum = 4,
    Diff = 5,
    Neg = 6,
    Read = 7,
    Fresh = 8,
    Write = 9,
}

impl Kind {
    // The kind that a byte states, if it states one.
    pub fn of(byte: u8) -> Option<Kind>
        ensures { Stated byte result }
    {
        match byte {
            1 => Some(Kind::Const),
            2 => Some(Kind::Var),
            3 => Some(Kind::Shift),
            4 => Some(Kind::Sum),
            5 => Some(Kind::Diff),
            6 => Some(Kind::Neg),
            7 => Some(Kind::Read),
            8 => Some(Kind::Fresh),
            9 => Some(Kind::Write),
            _ => None,
        }
    }

    // The byte that states it.
    pub fn byte(self) -> u8
        ensures { result ≡ byte_of self }
    {
        self as u8
    }
}
