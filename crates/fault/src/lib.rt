// Why a call is refused, by which layer, and where.
#![tactic(auto)]

ghost use Rattle.std.specs.Prelude.{◌≡◌, Some};
ghost use Rattle.fault.specs.Told.{number_of, layer_of, refusal, past_end, nowhere, in_line};
ghost use Rattle.fault.specs.Words.{layer_word, cause_words, place_words, fault_words};

use std::fmt;

// The discriminants are the numbers of the table of refusals.
#[derive(Clone, Copy, PartialEq, Eq, Debug)]
pub enum Cause {
    PastEnd = 1,
    WrongLine = 2,
    NotANumber = 3,
    OutsideLimits = 4,
    WrongFieldCount = 5,
    WrongSize = 6,
    MissesDeadline = 7,
    CollectorOverload = 8,
    TooFewWords = 9,
    TooFewHandles = 10,
    WrongMeasures = 11,
    Unprepared = 12,
    NoSuchSlot = 13,
    EmptySlot = 14,
    NoSuchWord = 15,
    WrongSort = 16,
    NoSuchKind = 17,
    SpaceFull = 18,
    NoSpareHandle = 19,
    StrayReference = 20,
    LiveBoundPassed = 21,
    WrongStage = 22,
    ClockEnded = 23,
    NotOnTurn = 24,
    OverAllowance = 25,
    QueueFull = 26,
}

// The layer that found the cause.
#[derive(Clone, Copy, PartialEq, Eq, Debug)]
pub enum Layer {
    Memory,
    Text,
    Admission,
    Heap,
    Dashboard,
    Queue,
    Census,
}

// A place in a memory, a line and a column of a text, or none.
#[derive(Clone, Copy, PartialEq, Eq, Debug)]
pub enum Place {
    Nowhere,
    Word(usize),
    Line { line: u32, column: u32 },
}

// Plain data: every layer makes its own, and `?` carries it up whole.
#[derive(Clone, Copy, PartialEq, Eq, Debug)]
pub struct Fault {
    pub cause: Cause,
    pub layer: Layer,
    pub place: Place,
}

impl Layer {
    pub fn name(self) -> &'static str
        ensures { result.now ≡ layer_word (layer_of self) }
    {
        match self {
            Layer::Memory => "memory",
            Layer::Text => "text",
            Layer::Admission => "admission",
            Layer::Heap => "heap",
            Layer::Dashboard => "dashboard",
            Layer::Queue => "queue",
            Layer::Census => "census",
        }
    }
}

impl Fault {
    // The number of the table of refusals.
    pub fn number(&self) -> u8
        ensures { result ≡ (refusal self.now).number }
    {
        self.cause as u8
    }

    // The name of the layer that found the cause.
    pub fn layer_name(&self) -> &'static str
        ensures { result.now ≡ layer_word (refusal self.now).layer }
    {
        self.layer.name()
    }

    // The memory place, or the line; 0 where none is named.
    pub fn place_number(&self) -> usize
        ensures { result ≡ (refusal self.now).place }
    {
        match self.place {
            Place::Nowhere => 0,
            Place::Word(place) => place,
            Place::Line { line, .. } => line as usize,
        }
    }

    // The column of a text; 0 where none is named.
    pub fn column(&self) -> u32
        ensures { result ≡ (refusal self.now).column }
    {
        match self.place {
            Place::Line { column, .. } => column,
            _ => 0,
        }
    }

    // Of a layer, at no place in particular.
    pub fn nowhere(layer: Layer, cause: Cause) -> Fault
        ensures { refusal result ≡ nowhere (number_of cause) (layer_of layer) }
    {
        Fault {
            cause,
            layer,
            place: Place::Nowhere,
        }
    }

    // Of a layer, in a line of a text; column 0 names none.
    pub fn in_line(layer: Layer, cause: Cause, line: u32, column: u32) -> Fault
        ensures { refusal result ≡ in_line (number_of cause) (layer_of layer) line column }
    {
        Fault {
            cause,
            layer,
            place: Place::Line { line, column },
        }
    }

    // A place at or past the end of a memory.
    pub fn past_end(place: usize) -> Fault
        ensures { refusal result ≡ past_end place }
    {
        Fault {
            cause: Cause::PastEnd,
            layer: Layer::Memory,
            place: Place::Word(place),
        }
    }
}

// A few words for a person.
impl fmt::Display for Cause {
    ghost output = { λ c. Some (cause_words c) };

    fn fmt<W: fmt::Write>(&self, f: &mut fmt::Formatter<W>) -> fmt::Result {
        f.write_str(match self {
            Cause::PastEnd => "the place is past the end of the memory",
            Cause::WrongLine => "this line has the wrong first word, order or count",
            Cause::NotANumber => "this field is not a number",
            Cause::OutsideLimits => "this number is outside its limits",
            Cause::WrongFieldCount => "a field is missing or surplus",
            Cause::WrongSize =>
                "the text is empty, too long or unfinished, or its buffer too short",
            Cause::MissesDeadline => "this task can miss its deadline",
            Cause::CollectorOverload => "the tasks leave the collector too little time",
            Cause::TooFewWords => "a space has too few words",
            Cause::TooFewHandles => "the heap has too few handles",
            Cause::WrongMeasures => "the heap's measures are outside their limits",
            Cause::Unprepared => "the heap is not prepared",
            Cause::NoSuchSlot => "there is no such slot",
            Cause::EmptySlot => "the slot is empty",
            Cause::NoSuchWord => "the object has no such word",
            Cause::WrongSort => "the word is a reference and not a number, or the reverse",
            Cause::NoSuchKind => "there is no such kind",
            Cause::SpaceFull => "the space has no room for the object",
            Cause::NoSpareHandle => "no handle is spare",
            Cause::StrayReference => "a reference names no handle in use",
            Cause::LiveBoundPassed => "more is alive than was declared",
            Cause::WrongStage => "the dashboard is at another stage",
            Cause::ClockEnded => "the clock is at its end",
            Cause::NotOnTurn => "it is another's turn",
            Cause::OverAllowance => "the allowance does not cover the object",
            Cause::QueueFull => "the queue's list is full",
        })
    }
}

impl fmt::Display for Layer {
    ghost output = { λ l. Some (layer_word (layer_of l)) };

    fn fmt<W: fmt::Write>(&self, f: &mut fmt::Formatter<W>) -> fmt::Result {
        f.write_str(self.name())
    }
}

impl fmt::Display for Place {
    ghost output = { λ p. Some (place_words p) };

    fn fmt<W: fmt::Write>(&self, f: &mut fmt::Formatter<W>) -> fmt::Result {
        match *self {
            Place::Nowhere => Ok(()),
            Place::Word(place) => write!(f, " at word {place}"),
            Place::Line { line, column: 0 } => write!(f, " at line {line}"),
            Place::Line { line, column } => write!(f, " at line {line}, column {column}"),
        }
    }
}

impl fmt::Display for Fault {
    ghost output = { λ f. Some (fault_words f) };

    fn fmt<W: fmt::Write>(&self, f: &mut fmt::Formatter<W>) -> fmt::Result {
        let number = self.number();
        let Fault {
            cause,
            layer,
            place,
        } = self;
        write!(f, "refusal {number} of the {layer}{place}: {cause}")
    }
}
