// What a table states in its head, and what each kind uses.
#![tactic(auto)]

ghost use Rattle.std.specs.Prelude.{◌≡◌, ◌≤◌, length};
ghost use Rattle.basis.specs.Reason.{first};
ghost use Rattle.row.specs.Names.{HEADER};
ghost use Rattle.in_bytes.specs.Numbers.{Read};
ghost use Rattle.table.specs.Uses.{is_sort, sort_of, uses_of};
ghost use Rattle.table.specs.Fault.{number_of, told, of_no_row};
ghost use Rattle.table.specs.Refusals.{width, rows, head_wrong, head_reasons};

use row::{Kind, Row};
use word::Width;

// Why a table, or a call, is refused: the numbers of docs/FORMAT.md.
#[derive(Clone, Copy)]
pub enum Fault {
    TableTooShort = 1,
    HeaderMark = 2,
    Width = 3,
    RowCount = 4,
    TableLength = 5,
    ResultTooShort = 6,
    RowNumber = 7,
    ReplacementLength = 8,
    RowMark = 9,
    Kind = 10,
    UnusedField = 11,
    Value = 12,
    Reference = 13,
    Sort = 14,
    Bounds = 15,
    KeptResult = 16,
    NotARead = 17,
    OtherBounds = 18,
    LimitTooHigh = 19,
    ListTooShort = 22,
}

impl Fault {
    // The number that a caller is told.
    pub fn number(self) -> u64
        ensures { result ≡ number_of self }
    {
        self as u64
    }
}

// A fault, and the row that has it: 0 where the fault is of no row.
#[derive(Clone, Copy)]
pub struct Refusal {
    pub fault: Fault,
    pub row: u64,
}

impl From<Fault> for Refusal {
    ghost from_gives = { λ fault refusal. refusal ≡ of_no_row fault };

    fn from(fault: Fault) -> Refusal {
        Refusal { fault, row: 0 }
    }
}

// Whether a row is a word or an array.
#[derive(Clone, Copy, PartialEq, Eq)]
pub enum Sort {
    Word,
    Array,
}

impl Sort {
    // Whether rows of a kind are words or arrays.
    #[tactic(auto, unfolding(crate::specs::Uses::sort_of))]
    pub fn of(kind: u8) -> Sort
        ensures { result ≡ sort_of kind }
    {
        match Kind::of(kind) {
            Some(Kind::Fresh | Kind::Write) => Sort::Array,
            _ => Sort::Word,
        }
    }
}

// As what a kind uses a reference field: not at all, for the name of a variable (document 02, A2), or to refer to a row of a sort.
#[derive(Clone, Copy)]
pub enum Use {
    Unused,
    Name,
    Refers(Sort),
    // any other number: it refers, and to a row of neither sort; no kind has it
    Other(u8),
}

// What a kind uses: as what each reference field, and whether k and h.
#[derive(Clone, Copy)]
pub struct Uses {
    pub a: Use,
    pub b: Use,
    pub c: Use,
    pub k: bool,
    pub h: bool,
}

impl Uses {
    // The fields that a kind uses.
    #[tactic(auto, unfolding(crate::specs::Uses::uses_of))]
    pub fn of(kind: u8) -> Uses
        ensures { result ≡ uses_of kind }
    {
        use Sort::{Array, Word};
        use Use::{Name, Refers, Unused};
        let (a, b, c, k, h) = match Kind::of(kind) {
            Some(Kind::Const) => (Unused, Unused, Unused, true, false),
            Some(Kind::Var) => (Name, Unused, Unused, true, true),
            Some(Kind::Shift) => (Refers(Word), Unused, Unused, true, false),
            Some(Kind::Sum) => (Refers(Word), Refers(Word), Unused, true, false),
            Some(Kind::Diff) => (Refers(Word), Refers(Word), Unused, true, false),
            Some(Kind::Neg) => (Refers(Word), Unused, Unused, true, false),
            Some(Kind::Read) => (Refers(Array), Refers(Word), Unused, false, false),
            Some(Kind::Fresh) => (Unused, Unused, Unused, false, false),
            Some(Kind::Write) => (Refers(Array), Refers(Word), Refers(Word), false, false),
            None => (Unused, Unused, Unused, false, false),
        };
        Uses { a, b, c, k, h }
    }
}

// the largest row count
pub const MOST: usize = 1024;

// bytes of the largest table
pub const LARGEST: usize = Row::HEADER + Row::LENGTH * MOST;

// the largest width
pub const WIDEST: u32 = 64;

// The width that a header states.
pub fn width_of(t: &[u8]) -> u32
    requires { HEADER ≤ length t.now }
    ensures { Read (width t.now) 256 result }
{
    in_bytes::byte(t, 2) as u32
}

// The width of the words of a table, where its header states one.
pub fn word_width(t: &[u8]) -> Width
    requires header { HEADER ≤ length t.now }
    requires width_fits { width t.now ≤ 64 }
    ensures { Read (width t.now) 256 result }
{
    Width::new(width_of(t))
}

// The row count that a header states.
pub fn rows_of(t: &[u8]) -> usize
    requires { HEADER ≤ length t.now }
    ensures { Read (rows t.now) 65536 result }
{
    in_bytes::number::<2>(t, 4) as usize
}

// Whether the mark or the zero byte of a header is wrong.
fn head_wrong(t: &[u8]) -> bool
    requires { HEADER ≤ length t.now }
    ensures { result ≡ head_wrong t.now }
{
    (t[0] != 0x46) | (t[1] != 0x54) | (t[3] != 0)
}

// Which of 1 to 5 a table is refused with.
pub fn head(t: &[u8]) -> Result<(), Fault>
    ensures { told result ≡ first (head_reasons t.now) }
{
    if t.len() < Row::HEADER {
        return Err(Fault::TableTooShort);
    }
    if head_wrong(t) {
        return Err(Fault::HeaderMark);
    }
    let w = width_of(t);
    if (w == 0) | (WIDEST < w) {
        return Err(Fault::Width);
    }
    let n = rows_of(t);
    if MOST < n {
        return Err(Fault::RowCount);
    }
    if t.len() != Row::place(n) {
        return Err(Fault::TableLength);
    }
    Ok(())
}

// Whether rows of a kind are arrays.
#[tactic(auto, unfolding(crate::specs::Uses::is_sort))]
pub fn is_array(kind: u8) -> bool
    ensures { result ≡ is_sort Sort.Array (sort_of kind) }
{
    Sort::of(kind) == Sort::Array
}
