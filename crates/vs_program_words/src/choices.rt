//! Choices of items, as the words of a run have them.
ghost use Rattle.std.specs.Prelude.{◌≡◌, ◌==◌, IfOk, OnOk, if◌then◌else◌, is_some};
ghost use Rattle.vs_program_words.specs.Choices.{after_choice, is_choices, is_digit, may_end, read_byte, read_bytes};
ghost use Rattle.vs_program_words.specs.declared.choices.Read.TheVariants.{Nothing, Wrong};

use std::alloc::{AllocError, Global};

/// What of a text of choices has been read.
#[derive(Clone, Copy)]
pub(crate) enum Read {
    /// Nothing yet.
    Nothing,
    /// A comma behind an item of its own.
    Comma,
    /// Digits of an item of its own, or, of the first number, of a choice.
    First,
    /// Digits of a further item of its own.
    Own,
    /// Digits of a further choice's number.
    Choice,
    /// A dot behind a choice's number.
    Dot,
    /// Both dots.
    Dots,
    /// Digits of the last choice's number.
    Last,
    /// The sign `=` behind it.
    Equals,
    /// Digits of the item's place.
    Item,
    /// A comma behind it.
    Behind,
    /// A byte that can't stand where it does.
    Wrong,
}

/// Choices in a row that take the item of one place in the list of enabled events.
#[derive(Clone, Copy, PartialEq, Eq, Debug)]
pub struct Choice {
    /// The number of the first choice, from 0.
    pub first: u64,
    /// That of the last one.
    pub last: u64,
    /// The place of the item, modulo how many there are.
    pub item: u64,
}

// Whether a byte is a decimal digit.
fn is_digit(byte: u8) -> bool
    ensures { result ≡ is_digit byte }
{
    48 <= byte && byte <= 57
}

// What has been read behind a byte that goes on with digits, or is this one behind them.
fn after_digits(byte: u8, digits: Read, end: u8, next: Read) -> Read
    ensures { result ≡ (if is_digit byte then digits else (if byte == end then next else Wrong)) }
{
    if is_digit(byte) {
        digits
    } else if byte == end {
        next
    } else {
        Read::Wrong
    }
}

// What has been read behind a byte that is the first of some digits.
fn first_digit(byte: u8, digits: Read) -> Read
    ensures { result ≡ (if is_digit byte then digits else Wrong) }
{
    if is_digit(byte) { digits } else { Read::Wrong }
}

// What has been read behind a byte that follows digits of a choice's number, or is one of them.
fn after_choice(byte: u8, digits: Read, comma: Read) -> Read
    ensures { result ≡ after_choice byte digits comma }
{
    if is_digit(byte) {
        digits
    } else if byte == 46 {
        Read::Dot
    } else if byte == 61 {
        Read::Equals
    } else if byte == 44 {
        comma
    } else {
        Read::Wrong
    }
}

// What has been read behind one more byte.
fn read_byte(so_far: Read, byte: u8) -> Read
    ensures { result ≡ read_byte so_far byte }
{
    match so_far {
        Read::Nothing => first_digit(byte, Read::First),
        Read::First => after_choice(byte, Read::First, Read::Comma),
        Read::Comma => first_digit(byte, Read::Own),
        Read::Own => after_digits(byte, Read::Own, 44, Read::Comma),
        Read::Behind => first_digit(byte, Read::Choice),
        Read::Choice => after_choice(byte, Read::Choice, Read::Wrong),
        Read::Dot => { if byte == 46 { Read::Dots } else { Read::Wrong } }
        Read::Dots => first_digit(byte, Read::Last),
        Read::Last => after_digits(byte, Read::Last, 61, Read::Equals),
        Read::Equals => first_digit(byte, Read::Item),
        Read::Item => after_digits(byte, Read::Item, 44, Read::Behind),
        Read::Wrong => Read::Wrong,
    }
}

// Whether a text may end there.
fn may_end(so_far: Read) -> bool
    ensures { result ≡ may_end so_far }
{
    match so_far {
        Read::First => true,
        Read::Own => true,
        Read::Item => true,
        _ => false,
    }
}

/// What is read of a text of choices, as far as it goes.
#[derive(Drop)]
struct Reader {
    read: Read,
    /// The number whose digits are read.
    number: u64,
    /// The number of the first choice, and that of the last one, of which the item is read.
    first: u64,
    last: u64,
    /// How many items of their own were read.
    own: u64,
    choices: Vec<Choice>,
}

impl Reader {
    // The choice whose item was read.
    fn choice(&self) -> Choice {
        let item = self.number;
        match self.read {
            Read::Item => Choice {
                first: self.first,
                last: self.last,
                item,
            },
            _ => Choice {
                first: self.own,
                last: self.own,
                item,
            },
        }
    }

    // Takes the number that was read, in front of what is read next.
    fn end_number(&mut self, next: Read) -> Result<(), AllocError>
        ensures { self.new.read ≡ self.old.read }
    {
        match (self.read, next) {
            (Read::First | Read::Choice, Read::Dot) => self.first = self.number,
            (Read::First | Read::Choice, Read::Equals) => {
                self.first = self.number;
                self.last = self.number;
            }
            (Read::Last, _) => self.last = self.number,
            _ => {
                let choice = self.choice();
                self.choices.push(choice)?;
                self.own = self.own.saturating_add(1);
            }
        }
        Ok(())
    }

    // Takes a digit.
    fn take_digit(&mut self, byte: u8)
        ensures { self.new.read ≡ self.old.read }
    {
        let digit = byte.saturating_sub(48) as u64;
        self.number = match self.read {
            Read::First | Read::Own | Read::Choice | Read::Last | Read::Item => self
                .number
                .saturating_mul(10)
                .saturating_add(digit),
            _ => digit,
        };
    }

    // Takes a byte.
    fn take_byte(&mut self, byte: u8) -> Result<(), AllocError>
        ensures { OnOk result (self.new.read ≡ read_byte self.old.read byte) }
    {
        let next = read_byte(self.read, byte);
        if is_digit(byte) {
            self.take_digit(byte);
        } else if !matches!(self.read, Read::Dot) {
            self.end_number(next)?;
        }
        self.read = next;
        Ok(())
    }
}

// What is read of a whole text.
fn read_bytes(alloc: Global, bytes: &[u8]) -> Result<Reader, AllocError>
    ensures { IfOk result (λ r. r.read ≡ read_bytes Nothing bytes.now) }
{
    let mut reader = Reader {
        read: Read::Nothing,
        number: 0,
        first: 0,
        last: 0,
        own: 0,
        choices: Vec::new(alloc),
    };
    for byte in bytes {
        reader.take_byte(*byte)?;
    }
    Ok(reader)
}

/// The choices of a text, if it has some, with a comma between them: items by their places, as `0,2,1`, those of the first choices; or choices as
/// `17..22=1` and `30=2`. A number is at most the greatest one of 64 bits.
pub(crate) fn choices_of(alloc: Global, text: &str) -> Result<Option<Vec<Choice>>, AllocError>
    ensures { IfOk result (λ choices. is_some choices ≡ is_choices text.now) }
{
    let mut reader = read_bytes(alloc, text.as_bytes())?;
    if !may_end(reader.read) {
        return Ok(None);
    }
    reader.end_number(Read::Nothing)?;
    let Reader {
        read: _,
        number: _,
        first: _,
        last: _,
        own: _,
        choices,
    } = reader;
    Ok(Some(choices))
}
