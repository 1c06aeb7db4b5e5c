// The kinds of expressions and their table, a column to a number. It rests on nothing; specs/Kinds.antt has the same
// table, a row to a kind.
ghost use Rattle.std.specs.Prelude.{◌≡◌, ℕ, ◌≤◌, ◌<◌, [], ◌∷◌, eqb, ltb, take, get_or};
ghost use Rattle.sheet.specs.Kinds.{kind_count, body_of, cells_of, count_of, read_count_of, own_type_of, typed, operands_of};
ghost use Rattle.sheet.specs.Kinds.{digit_of, operand_type_in};
ghost use Rattle.sheet.specs.KindBytes.{byte_of, Decodes};

// How many kinds there are.
const COUNT: u8 = 20;

// A kind of expression, by the byte that stands for it. An fby's cell is not started at first, a last names a kept wire, and a machine's
// cell has its state.
#[derive(Clone, Copy, PartialEq, Eq)]
pub enum Kind {
    BooleanConstant = 0,
    NumberConstant = 1,
    Wire = 2,
    Input = 3,
    Not = 4,
    Negate = 5,
    And = 6,
    Or = 7,
    Add = 8,
    Subtract = 9,
    Less = 10,
    Equal = 11,
    Conditional = 12,
    Present = 13,
    Reset = 14,
    BooleanPre = 15,
    NumberPre = 16,
    Fby = 17,
    Last = 18,
    Machine = 19,
}

// A byte that stands for no kind.
#[derive(Clone, Copy, PartialEq, Eq)]
pub struct UnknownKind(pub u8);

impl TryFrom<u8> for Kind {
    type Error = UnknownKind;

    ghost try_from_gives = { Decodes };

    fn try_from(byte: u8) -> Result<Self, UnknownKind> {
        if COUNT <= byte {
            return Err(UnknownKind(byte));
        }
        Ok(Kind::of(byte))
    }
}

// The columns, each a number with one octal digit to a kind, that of kind 0 last, so that a digit is found by a shift: bytes of
// body, cells owned, own type, count of operands, and how many of them are read within the instant. A type is 0 for a Boolean or 1 for a
// number; or 4 for the type asked, 5 for the named wire's, 6 for the named input's, 7 for that of the named wire, which is kept.
const BODIES: u64 = 0o1041000000000001141;

const CELLS: u64 = 0o10111000000000000000;

const OWN_TYPES: u64 = 0o47410444001100106510;

const OPERANDS: u64 = 0o40211233222222110000;

const READ_OPERANDS: u64 = 0o40100233222222110000;

// The types that fit an expression, but that of what it names: 1 where a Boolean does, plus 2 where a number does.
const FITTING: u64 = 0o30321333112211210021;

// The types asked of the operands, where a Boolean is asked of the whole and where a number is: 1 where the first is a number, plus 2
// where the second is, plus 4 where every later one is.
const WHERE_BOOLEAN: u64 = 0o010000333300100000;

const WHERE_NUMBER: u64 = 0o40310266333300100000;

impl Kind {
    // The kind that a byte stands for.
    pub fn of(byte: u8) -> Kind
        requires { byte < kind_count }
        ensures { byte_of result ≡ byte }
    {
        match byte {
            0 => Kind::BooleanConstant,
            1 => Kind::NumberConstant,
            2 => Kind::Wire,
            3 => Kind::Input,
            4 => Kind::Not,
            5 => Kind::Negate,
            6 => Kind::And,
            7 => Kind::Or,
            8 => Kind::Add,
            9 => Kind::Subtract,
            10 => Kind::Less,
            11 => Kind::Equal,
            12 => Kind::Conditional,
            13 => Kind::Present,
            14 => Kind::Reset,
            15 => Kind::BooleanPre,
            16 => Kind::NumberPre,
            17 => Kind::Fby,
            18 => Kind::Last,
            _ => Kind::Machine,
        }
    }

    // Whether it is a constant, a wire or an input, which has no operands and no cell.
    pub fn is_leaf(self) -> bool
        ensures { result ≡ ltb (byte_of self) 4 }
    {
        is_leaf(self as u8)
    }

    // Its digit of a column.
    fn digit(self, column: u64) -> u8
        ensures { result ≡ digit_of column (byte_of self) }
    {
        ((column >> (3 * (self as u32))) % 8) as u8
    }

    // How many bytes of body follow the kind byte.
    pub fn body(self) -> usize
        ensures { result ≡ body_of (byte_of self) }
    {
        self.digit(BODIES) as usize
    }

    // How many cells an expression of this kind owns, besides its operands'.
    pub fn cells(self) -> usize
        ensures { result ≡ cells_of (byte_of self) }
    {
        self.digit(CELLS) as usize
    }

    // The type of an expression of this kind, as the table gives it.
    pub fn own_type(self) -> u8
        ensures { result ≡ own_type_of (byte_of self) }
    {
        self.digit(OWN_TYPES)
    }

    // Whether an expression of this kind has the type asked, unless it has that of what it names. Looked up, as two tests would be two
    // branches that no machine foresees.
    pub fn fits(self, asked: u8) -> bool
        requires { asked < 2 }
        ensures { result ≡ eqb (typed asked (own_type_of (byte_of self))) asked }
    {
        (self.digit(FITTING) >> asked as u32) % 2 == 1
    }

    // How many operands follow the body.
    pub fn operands(self) -> usize
        ensures { result ≡ count_of (byte_of self) }
    {
        self.digit(OPERANDS) as usize
    }

    // How many of the operands, from the first on, are read within the instant.
    pub fn read_operands(self) -> usize
        ensures { result ≡ read_count_of (byte_of self) }
    {
        self.digit(READ_OPERANDS) as usize
    }

    // The types asked of the operands where `asked` is asked of the whole, for `operand_type` to look up.
    pub fn operand_types(self, asked: u8) -> u8
        requires { asked < 2 }
        ensures { (i : ℕ) → i < count_of (byte_of self)
            → operand_type_in result i ≡ get_or (operands_of (byte_of self) asked) i 0 }
    {
        if asked == 0 {
            self.digit(WHERE_BOOLEAN)
        } else {
            self.digit(WHERE_NUMBER)
        }
    }

    // The type asked of every operand of an operation, kinds 4 to 11, whatever is asked of the whole.
    pub fn operation_type(self) -> u8
        requires { (4 ≤ byte_of self) × (byte_of self < 12) }
        ensures { (asked : ℕ) → take (count_of (byte_of self)) (result ∷ result ∷ []) ≡ operands_of (byte_of self) asked }
    {
        self.digit(WHERE_NUMBER) % 2
    }
}

// Whether a byte stands for a constant, a wire or an input, which has no operands and no cell.
pub fn is_leaf(byte: u8) -> bool
    ensures { result ≡ ltb byte 4 }
{
    byte < 4
}

// The type asked of operand i.
pub fn operand_type(types: u8, i: usize) -> u8
    ensures { result ≡ operand_type_in types i }
{
    let place = if i < 2 { i } else { 2 };
    (types >> place as u32) % 2
}
