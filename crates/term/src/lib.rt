// The written rules over rows as terms, and their laws. The only code is the types of what is known of two rows, and why, and what is known by a reason.
#![tactic(auto)]

use range::Range;

// What is known of two word rows: they are equal, they differ, or neither is known.
#[derive(Clone, Copy)]
pub enum Relation {
    Unknown,
    Same,
    Apart,
}

// Two ranges that share no word: that of a store's index, and that of the index sought.
#[derive(Clone, Copy)]
pub struct Spans {
    pub store: Range,
    pub read: Range,
}

// Why that is known, or that it is not. Offsets and ranges: the store's first.
#[derive(Clone, Copy)]
pub enum Reason {
    SamePlace,
    Offsets(u64, u64),
    Separate(Spans),
    Undecided,
}

// A step of a walk: the store that was compared, the row of its index, and the reason.
#[derive(Clone, Copy)]
pub struct Met {
    pub store: usize,
    pub index: usize,
    pub why: Reason,
}

// What is known by a reason.
impl From<Reason> for Relation {
    ghost use Rattle.std.specs.Prelude.{◌≡◌};
    ghost use Rattle.term.specs.Reason.{known_by};

    ghost from_gives = { λ why known. known ≡ known_by why };

    #[tactic(auto, unfolding(crate::specs::Reason::known_by))]
    fn from(why: Reason) -> Relation {
        match why {
            Reason::SamePlace => Relation::Same,
            Reason::Offsets(_, _) => Relation::Apart,
            Reason::Separate(_) => Relation::Apart,
            Reason::Undecided => Relation::Unknown,
        }
    }
}
