// One field of a line, byte by byte: a name or a number, quoted or not. Every function takes any field, and states all that it answers.
#![tactic(auto)]

ghost use Rattle.std.specs.Prelude.{◌≡◌, ◌≤◌};
ghost use Rattle.field.specs.Reading.{fresh_field, bad_field, staged, digit_taken, letter_taken, taken, field_after, whole_kind, kind_at, is_fresh, is_bad};

use signs::{NINE, QUOTE, ZERO};

// The most digits of a number, and the least number that one digit more would make too long.
const DIGITS: u32 = 7;

const FULL: u32 = 1_000_000;

// Where in a field a parser stands: before its first byte, in one without quotes, between the quotes, behind them, or in a line that is bad.
#[derive(Clone, Copy)]
pub enum Stage {
    Fresh,
    Bare,
    Open,
    Closed,
    Bad,
}

// What a field may hold: the header's name, or a number.
#[derive(Clone, Copy)]
pub enum Kind {
    Name,
    Number(u32),
}

// What a field has held so far: letters of the header's name, or digits of a number. Counts, and no enum of the two: a field that has held nothing may
// become either, and a name may have no letters.
#[derive(Clone, Copy)]
pub struct Field {
    pub stage: Stage,
    pub letters: usize,
    pub digits: u32,
    pub number: u32,
}

impl Field {
    pub fn fresh() -> Self
        ensures { result ≡ fresh_field }
    {
        Field {
            stage: Stage::Fresh,
            letters: 0,
            digits: 0,
            number: 0,
        }
    }

    pub fn bad() -> Self
        ensures { result ≡ bad_field }
    {
        Field::fresh().at(Stage::Bad)
    }

    // The same field at another stage.
    fn at(self, stage: Stage) -> Self
        ensures { result ≡ staged stage self }
    {
        Field { stage, ..self }
    }

    // A digit more.
    #[tactic(auto, unfolding(crate::specs::Reading::digit_taken))]
    fn digit(self, stage: Stage, byte: u8) -> Self
        requires { 48 ≤ byte }
        ensures { result ≡ digit_taken stage byte self }
    {
        if 0 < self.letters || DIGITS <= self.digits || FULL <= self.number {
            return Field::bad();
        }
        let tens = self.number * 10;
        Field {
            stage,
            digits: self.digits + 1,
            number: tens + (byte - ZERO) as u32,
            ..self
        }
    }

    // A letter more of the header's name.
    #[tactic(auto, unfolding(crate::specs::Reading::letter_taken))]
    fn letter(self, stage: Stage, name: &[u8], byte: u8) -> Self
        ensures { result ≡ letter_taken stage name.now byte self }
    {
        if self.digits == 0 && name.get(self.letters).copied() == Some(byte) {
            let letters = self.letters + 1;
            return Field {
                stage,
                letters,
                ..self
            };
        }
        Field::bad()
    }

    // A byte more of what the field holds.
    #[tactic(auto, unfolding(crate::specs::Reading::taken, model::specs::Limits::within))]
    fn take(self, stage: Stage, name: &[u8], byte: u8) -> Self
        ensures { result ≡ taken stage name.now byte self }
    {
        match byte {
            ZERO..=NINE => self.digit(stage, byte),
            _ => self.letter(stage, name, byte),
        }
    }

    // The field after one byte more.
    #[tactic(auto, unfolding(crate::specs::Reading::field_after))]
    pub fn step(self, name: &[u8], byte: u8) -> Self
        ensures { result ≡ field_after name.now byte self }
    {
        match (self.stage, byte) {
            (Stage::Fresh, QUOTE) => self.at(Stage::Open),
            (Stage::Open, QUOTE) => self.at(Stage::Closed),
            (Stage::Fresh | Stage::Bare, _) => self.take(Stage::Bare, name, byte),
            (Stage::Open, _) => self.take(Stage::Open, name, byte),
            (Stage::Closed | Stage::Bad, _) => Field::bad(),
        }
    }

    // What has been read so far, as a whole.
    #[tactic(auto, unfolding(crate::specs::Reading::whole_kind))]
    fn whole(self, name: &[u8]) -> Option<Kind>
        ensures { result ≡ whole_kind name.now self }
    {
        if self.digits == 0 {
            return (name.len() <= self.letters).then_some(Kind::Name);
        }
        (self.letters == 0).then_some(Kind::Number(self.number))
    }

    // What the field holds if it ends here; none where that is neither a name nor a number.
    #[tactic(auto, unfolding(crate::specs::Reading::kind_at))]
    pub fn kind(self, name: &[u8]) -> Option<Kind>
        ensures { result ≡ kind_at name.now self }
    {
        match self.stage {
            Stage::Fresh | Stage::Bare | Stage::Closed => self.whole(name),
            Stage::Open | Stage::Bad => None,
        }
    }

    // Whether no byte of the field has come.
    pub fn is_fresh(self) -> bool
        ensures { result ≡ is_fresh self.stage }
    {
        matches!(self.stage, Stage::Fresh)
    }

    // Whether the field can hold nothing any more, whatever follows.
    pub fn is_bad(self) -> bool
        ensures { result ≡ is_bad self.stage }
    {
        matches!(self.stage, Stage::Bad)
    }
}
