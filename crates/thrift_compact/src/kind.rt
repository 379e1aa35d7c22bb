// The types of values by their numbers (Thrift compact protocol, "Struct encoding", "List and set").
ghost use Rattle.std.specs.Prelude.{◌≡◌};
ghost use Rattle.thrift_compact.specs.Kinds.{kind_of, code_of, is_container, width_of};

/// The type of a value. The first two are the two truth values: in the header of a list, a set or
/// a map both stand for a truth value.
#[derive(Clone, Copy)]
pub(crate) enum Kind {
    True,
    False,
    I8,
    I16,
    I32,
    I64,
    Double,
    Binary,
    List,
    Set,
    Map,
    Struct,
}

impl Kind {
    /// The type of this number, from 1 to 12.
    #[tactic(auto, unfolding(crate::specs::Kinds::kind_of))]
    pub(crate) fn from_code(code: u8) -> Option<Kind>
        ensures { result ≡ kind_of code }
    {
        match code {
            1 => Some(Kind::True),
            2 => Some(Kind::False),
            3 => Some(Kind::I8),
            4 => Some(Kind::I16),
            5 => Some(Kind::I32),
            6 => Some(Kind::I64),
            7 => Some(Kind::Double),
            8 => Some(Kind::Binary),
            9 => Some(Kind::List),
            10 => Some(Kind::Set),
            11 => Some(Kind::Map),
            12 => Some(Kind::Struct),
            _ => None,
        }
    }

    /// The number of the type.
    pub(crate) fn code(self) -> u8
        ensures { result ≡ code_of self }
    {
        match self {
            Kind::True => 1,
            Kind::False => 2,
            Kind::I8 => 3,
            Kind::I16 => 4,
            Kind::I32 => 5,
            Kind::I64 => 6,
            Kind::Double => 7,
            Kind::Binary => 8,
            Kind::List => 9,
            Kind::Set => 10,
            Kind::Map => 11,
            Kind::Struct => 12,
        }
    }

    /// Whether values of the type hold others, and so count for the nesting.
    pub(crate) fn is_container(self) -> bool
        ensures { result ≡ is_container self }
    {
        matches!(self, Kind::List | Kind::Set | Kind::Map | Kind::Struct)
    }

    /// How many bits a whole number of the type has, and 0 for another type.
    pub(crate) fn width(self) -> u8
        ensures { result ≡ width_of self }
    {
        match self {
            Kind::I8 => 8,
            Kind::I16 => 16,
            Kind::I32 => 32,
            Kind::I64 => 64,
            _ => 0,
        }
    }
}
