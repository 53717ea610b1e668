//! What the faults of the program `pcml` mean, and the words that it tells: a text for each.
#![tactic(auto)]

ghost use Rattle.std.specs.Prelude.{◌≡◌, ◌≢◌, [], ◌∷◌, IsTrue, IfNone, IfSome, is_some, nat_eq};
ghost use Rattle.std.specs.List.{starts_with, ends_with};
ghost use Rattle.pcml_explain.specs.declared.Topic.TheVariants as topics;
ghost use Rattle.pcml_explain.specs.declared.Word.{Word};
ghost use Rattle.pcml_explain.specs.Topics.{heading, is_topic, letters};

mod manual;
mod texts;
mod words;

/// A word that the program tells, of a process, of a fault that it stopped at, of a run or of all that a script can come
/// to, or one that users know such a thing by.
#[derive(Clone, Copy, Debug, PartialEq, Eq)]
pub enum Word {
    Unset,
    Kind,
    Range,
    Shape,
    Waiting,
    Spent,
    Unstarted,
    Stranded,
    Left,
    Faulted,
    Printed,
    Deadlock,
    Nack,
    Journal,
    Stamp,
    Tail,
    Lawful,
    Maximal,
    Outcome,
    Configuration,
}

impl Word {
    /// The word of these letters.
    pub fn of(name: &str) -> Option<Word>
        ensures found { IfSome result (λ word. name.now ≡ letters word) }
        ensures none { IfNone result ((word : Word) → name.now ≢ letters word) }
    {
        match name {
            "unset" => Some(Word::Unset),
            "kind" => Some(Word::Kind),
            "range" => Some(Word::Range),
            "shape" => Some(Word::Shape),
            "waiting" => Some(Word::Waiting),
            "spent" => Some(Word::Spent),
            "unstarted" => Some(Word::Unstarted),
            "stranded" => Some(Word::Stranded),
            "left" => Some(Word::Left),
            "faulted" => Some(Word::Faulted),
            "printed" => Some(Word::Printed),
            "deadlock" => Some(Word::Deadlock),
            "nack" => Some(Word::Nack),
            "journal" => Some(Word::Journal),
            "stamp" => Some(Word::Stamp),
            "tail" => Some(Word::Tail),
            "lawful" => Some(Word::Lawful),
            "maximal" => Some(Word::Maximal),
            "outcome" => Some(Word::Outcome),
            "configuration" => Some(Word::Configuration),
            _ => None,
        }
    }
}

/// What can be explained.
#[derive(Clone, Copy, Debug, PartialEq, Eq)]
pub enum Topic {
    /// Which faults and words there are.
    Contents,
    /// The whole manual page.
    Manual,
    /// The fault of this number.
    Fault(u16),
    Word(Word),
}

fn fault_text(number: u16) -> Option<&'static str>
    ensures of_faults { is_some result ≡ is_topic (topics.Fault number) }
    ensures headed { IfSome result (λ text. IsTrue (starts_with nat_eq text.now (heading (topics.Fault number)))) }
    ensures whole_lines { IfSome result (λ text. IsTrue (ends_with nat_eq text.now (10 ∷ []))) }
{
    match number {
        1 => Some(texts::MEMORY),
        2 => Some(texts::NOT_ALLOWED),
        3 => Some(texts::ROWS),
        4 => Some(texts::LOST),
        5 => Some(texts::UNLAWFUL),
        6 => Some(texts::NO_THREAD),
        7 => Some(texts::SEASONS),
        8 => Some(texts::SEASON_COUNT),
        11 => Some(texts::SYNTAX),
        12 => Some(texts::UNKNOWN_NAME),
        13 => Some(texts::TWICE),
        14 => Some(texts::TOO_MANY),
        15 => Some(texts::LOOP_WITHOUT_SYNC),
        16 => Some(texts::TOO_LONG),
        21 => Some(texts::BAD_LINE),
        22 => Some(texts::BAD_STEP),
        23 => Some(texts::TOO_LARGE),
        31 => Some(texts::UNREAD),
        32 => Some(texts::UNWRITTEN),
        _ => None,
    }
}

fn word_text(word: Word) -> &'static str
    ensures headed { IsTrue (starts_with nat_eq result.now (heading (topics.Word word))) }
    ensures whole_lines { IsTrue (ends_with nat_eq result.now (10 ∷ [])) }
{
    match word {
        Word::Unset => words::UNSET,
        Word::Kind => words::KIND,
        Word::Range => words::RANGE,
        Word::Shape => words::SHAPE,
        Word::Waiting => words::WAITING,
        Word::Spent => words::SPENT,
        Word::Unstarted => words::UNSTARTED,
        Word::Stranded => words::STRANDED,
        Word::Left => words::LEFT,
        Word::Faulted => words::FAULTED,
        Word::Printed => words::PRINTED,
        Word::Deadlock => words::DEADLOCK,
        Word::Nack => words::NACK,
        Word::Journal => words::JOURNAL,
        Word::Stamp => words::STAMP,
        Word::Tail => words::TAIL,
        Word::Lawful => words::LAWFUL,
        Word::Maximal => words::MAXIMAL,
        Word::Outcome => words::OUTCOME,
        Word::Configuration => words::CONFIGURATION,
    }
}

/// What a fault or a word means, in lines of text, or which there are, or the manual page; none where no fault has the number. What the
/// text says behind its heading no clause tells.
pub fn explanation(topic: Topic) -> Option<&'static str>
    ensures of_topics { is_some result ≡ is_topic topic }
    ensures headed { IfSome result (λ text. IsTrue (starts_with nat_eq text.now (heading topic))) }
    ensures whole_lines { IfSome result (λ text. IsTrue (ends_with nat_eq text.now (10 ∷ []))) }
{
    match topic {
        Topic::Contents => Some(texts::CONTENTS),
        Topic::Manual => Some(manual::PAGE),
        Topic::Fault(number) => fault_text(number),
        Topic::Word(word) => Some(word_text(word)),
    }
}
