// The words that a sheet's names and coders have, and the orders that names can stand in.
ghost use Rattle.std.specs.Prelude.{◌≡◌};
ghost use Rattle.jobsheet.specs.Recognition.{Named, Arranged, first_name, second_name, third_name};
ghost use Rattle.jobsheet.specs.Values.{coder_word};
ghost use Rattle.jobsheet.specs.Recognition.{CoderNamed};

// What a column of the sheet holds.
#[derive(Clone, Copy, PartialEq, Eq, Debug)]
pub enum Name {
    Code,
    Coder,
    Message,
}

impl Name {
    // The name that a word is. `TryFrom` wants an error type, and there is nothing that it would tell.
    pub(crate) fn of(word: &[u8]) -> Option<Name>
        ensures { Named word.now result }
    {
        match word {
            b"code" => Some(Name::Code),
            b"coder" => Some(Name::Coder),
            b"message" => Some(Name::Message),
            _ => None,
        }
    }
}

// The order of the columns, from the left.
#[derive(Clone, Copy, PartialEq, Eq, Debug)]
pub enum Order {
    CodeCoderMessage,
    CodeMessageCoder,
    CoderCodeMessage,
    CoderMessageCode,
    MessageCodeCoder,
    MessageCoderCode,
}

impl Order {
    // The order of three names, if each stands once. `TryFrom` wants an error type, and there is nothing that it would tell.
    pub(crate) fn of(first: Name, second: Name, third: Name) -> Option<Order>
        ensures { Arranged first second third result }
    {
        match (first, second, third) {
            (Name::Code, Name::Coder, Name::Message) => Some(Order::CodeCoderMessage),
            (Name::Code, Name::Message, Name::Coder) => Some(Order::CodeMessageCoder),
            (Name::Coder, Name::Code, Name::Message) => Some(Order::CoderCodeMessage),
            (Name::Coder, Name::Message, Name::Code) => Some(Order::CoderMessageCode),
            (Name::Message, Name::Code, Name::Coder) => Some(Order::MessageCodeCoder),
            (Name::Message, Name::Coder, Name::Code) => Some(Order::MessageCoderCode),
            _ => None,
        }
    }

    // Its names, from the left.
    pub(crate) fn names(self) -> (Name, Name, Name)
        ensures { (result.0 ≡ first_name self) × ((result.1 ≡ second_name self) × (result.2 ≡ third_name self)) }
    {
        match self {
            Order::CodeCoderMessage => (Name::Code, Name::Coder, Name::Message),
            Order::CodeMessageCoder => (Name::Code, Name::Message, Name::Coder),
            Order::CoderCodeMessage => (Name::Coder, Name::Code, Name::Message),
            Order::CoderMessageCode => (Name::Coder, Name::Message, Name::Code),
            Order::MessageCodeCoder => (Name::Message, Name::Code, Name::Coder),
            Order::MessageCoderCode => (Name::Message, Name::Coder, Name::Code),
        }
    }
}

// A coder, by its word: a sheet names its coder, so that it is a value and no type.
#[derive(Clone, Copy, PartialEq, Eq, Debug)]
pub enum CoderName {
    Table,
    Check,
}

impl CoderName {
    // The coder that a word names. `TryFrom` wants an error type, and there is nothing that it would tell.
    pub(crate) fn of(word: &[u8]) -> Option<CoderName>
        ensures { CoderNamed word.now result }
    {
        match word {
            b"table" => Some(CoderName::Table),
            b"check" => Some(CoderName::Check),
            _ => None,
        }
    }

    // Its word. No `Display`, which prints to a formatter: a printer takes bytes.
    pub(crate) fn word(self) -> &'static [u8]
        ensures { result.now ≡ coder_word self }
    {
        match self {
            CoderName::Table => b"table",
            CoderName::Check => b"check",
        }
    }
}
