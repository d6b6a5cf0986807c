//! The words of a call.

ghost use Rattle.std.specs.Prelude.{◌≡◌, ◌==◌, ◌<◌, ◌^◌, ◌-◌, ◌≤◌, Some, IfSome, List, ℕ, map, length, position, option_map};
ghost use Rattle.std.specs.String.{string_bytes};
ghost use Rattle.mj_base.specs.InOrder.{same_bytes};
ghost use Rattle.mj_app.specs.Words.{command_of, form_of, option_form, is_dashed, behind, set, once, given as given_spec, rank_of, value_or, layout_of, format_of, file_of, play_of, model_of, in_mode, Argument as argument_piece};
ghost use Rattle.mj_app.specs.WordsRead.{command_value, given_value, reading_value, form_value, text_in, after_word, at_last};

use mj_base::RankNo;
use mj_layout::Layout;
use mj_texts::read_number;

/// What a call is to do.
#[derive(Clone, Copy, Debug, PartialEq, Eq)]
pub enum Command<'a> {
    /// Make the objects that a rank begins with.
    Format { rank: RankNo, layout: Layout },
    /// Play the script in the file of this name.
    Play { rank: RankNo, script: &'a str },
    /// Answer the chronicle in the file of this name by the plain tree.
    Model { rank: RankNo, chronicle: &'a str },
}

/// What a word looks like.
#[derive(Clone, Copy)]
enum Form<'a> {
    /// `--`, which ends the options.
    Dashes,
    /// An argument.
    Plain,
    /// An option, whose value is the next word.
    Named(&'a [u8]),
    /// An option with its value.
    Whole(&'a [u8], &'a [u8]),
    /// It begins with one dash.
    Dashed,
}

/// What the next word may be.
#[derive(Clone, Copy)]
enum Next<'a> {
    Anything,
    /// The value of the option with this name.
    Value(&'a [u8]),
    /// Only an argument.
    Only,
}

/// The values of the options, and the argument, as they stand in the words.
#[derive(Clone, Copy)]
struct Given<'a> {
    rank: Option<&'a [u8]>,
    su: Option<&'a [u8]>,
    sc: Option<&'a [u8]>,
    os: Option<&'a [u8]>,
    argument: Option<&'a str>,
}

/// What the words so far give, and what the next one may be.
#[derive(Clone, Copy)]
struct Reading<'a> {
    given: Given<'a>,
    next: Next<'a>,
}

const OBJECT_SIZE: u32 = 4_194_304;

/// The command that the words spell: none where they spell none.
#[tactic(auto, unfolding(crate::specs::Words::command_of))]
pub fn read_words(words: &[String]) -> Option<Command<'_>>
    ensures { option_map command_value result ≡ command_of words.now }
{
    match words {
        [] => None,
        [mode, rest @ ..] => in_mode(mode.as_str(), read_given(rest)?),
    }
}

fn in_mode<'a>(mode: &str, given: Given<'a>) -> Option<Command<'a>>
    ensures { option_map command_value result ≡ in_mode mode.now (given_value given.entry) }
{
    if mode == "format" {
        format_of(given)
    } else if mode == "play" {
        play_of(given)
    } else if mode == "model" {
        model_of(given)
    } else {
        None
    }
}

fn format_of<'a>(given: Given<'a>) -> Option<Command<'a>>
    ensures { option_map command_value result ≡ format_of (given_value given.entry) }
{
    if given.argument.is_some() {
        return None;
    }
    let rank = rank_of(given)?;
    let layout = layout_of(given)?;
    Some(Command::Format { rank, layout })
}

fn play_of<'a>(given: Given<'a>) -> Option<Command<'a>>
    ensures { option_map command_value result ≡ play_of (given_value given.entry) }
{
    let script = file_of(given)?;
    let rank = rank_of(given)?;
    Some(Command::Play { rank, script })
}

fn model_of<'a>(given: Given<'a>) -> Option<Command<'a>>
    ensures { option_map command_value result ≡ model_of (given_value given.entry) }
{
    let chronicle = file_of(given)?;
    let rank = rank_of(given)?;
    Some(Command::Model { rank, chronicle })
}

// The name of the one file, where no layout is given.
fn file_of<'a>(given: Given<'a>) -> Option<&'a str>
    ensures { text_in result ≡ file_of (given_value given.entry) }
{
    if given.su.is_some() || given.sc.is_some() || given.os.is_some() {
        return None;
    }
    given.argument
}

fn rank_of(given: Given<'_>) -> Option<RankNo>
    ensures { result ≡ rank_of (given_value given.entry) }
{
    let number = value_or(given.rank, 15, 0)?;
    RankNo::new(number as u8)
}

fn layout_of(given: Given<'_>) -> Option<Layout>
    ensures { result ≡ layout_of (given_value given.entry) }
{
    let su = number_or(given.su, OBJECT_SIZE)?;
    let sc = number_or(given.sc, 1)?;
    let os = number_or(given.os, OBJECT_SIZE)?;
    Layout::new(su, sc, os).ok()
}

fn number_or(text: Option<&[u8]>, default: u32) -> Option<u32>
    ensures { result ≡ value_or (2 ^ 32 - 1) default (text_in text.entry) }
{
    let number = value_or(text, u64::from(u32::MAX), u64::from(default))?;
    Some(number as u32)
}

// The number that a value spells, at most this great, or what stands for none.
fn value_or(text: Option<&[u8]>, most: u64, default: u64) -> Option<u64>
    requires { default ≤ most }
    ensures number { result ≡ value_or most default (text_in text.entry) }
    ensures small { IfSome result (λ n. n ≤ most) }
{
    match text {
        Some(text) => read_number(text, most),
        None => Some(default),
    }
}

fn read_given(words: &[String]) -> Option<Given<'_>>
    ensures { option_map given_value result ≡ behind (map string_bytes words.now) }
{
    let mut reading = Reading {
        given: Given {
            rank: None,
            su: None,
            sc: None,
            os: None,
            argument: None,
        },
        next: Next::Anything,
    };
    for word in words {
        reading = reading.with_word(word.as_str())?;
    }
    reading.end()
}

impl<'a> Reading<'a> {
    fn with_word(self, word: &'a str) -> Option<Reading<'a>>
        ensures { option_map reading_value result ≡ after_word (reading_value self.entry) word.now }
    {
        match self.next {
            Next::Anything => self.with_any(word),
            Next::Value(name) => {
                if is_dashed(word.as_bytes()) {
                    return None;
                }
                let given = self.given.with_setting(name, word.as_bytes())?;
                Some(Reading {
                    given,
                    next: Next::Anything,
                })
            }
            Next::Only => {
                let given = self.given.with_argument(word)?;
                Some(Reading {
                    given,
                    next: Next::Only,
                })
            }
        }
    }

    fn with_any(self, word: &'a str) -> Option<Reading<'a>>
        requires { self.next ≡ Next.Anything }
        ensures { option_map reading_value result ≡ after_word (reading_value self.entry) word.now }
    {
        let given = self.given;
        match form_of(word.as_bytes()) {
            Form::Dashes => Some(Reading {
                given,
                next: Next::Only,
            }),
            Form::Plain => Some(Reading {
                given: given.with_argument(word)?,
                next: Next::Anything,
            }),
            Form::Named(name) => Some(Reading {
                given,
                next: Next::Value(name),
            }),
            Form::Whole(name, value) => Some(Reading {
                given: given.with_setting(name, value)?,
                next: Next::Anything,
            }),
            Form::Dashed => None,
        }
    }

    // What all words give: none where the last option's value is missing.
    fn end(self) -> Option<Given<'a>>
        ensures { option_map given_value result ≡ at_last (reading_value self.entry) }
    {
        match self.next {
            Next::Value(_) => None,
            _ => Some(self.given),
        }
    }
}

impl<'a> Given<'a> {
    // With the value of an option: none where it was given before, or there is no such option.
    fn with_setting(self, name: &[u8], value: &'a [u8]) -> Option<Given<'a>>
        ensures { option_map given_value result ≡ set name.now value.now (given_value self.entry) }
    {
        let mut given = self;
        if is_text(name, "rank") {
            given.rank = Some(once(given.rank, value)?);
        } else if is_text(name, "su") {
            given.su = Some(once(given.su, value)?);
        } else if is_text(name, "sc") {
            given.sc = Some(once(given.sc, value)?);
        } else if is_text(name, "os") {
            given.os = Some(once(given.os, value)?);
        } else {
            return None;
        }
        Some(given)
    }

    fn with_argument(self, text: &'a str) -> Option<Given<'a>>
        ensures { option_map given_value result ≡ given_spec (argument_piece text.now) (given_value self.entry) }
    {
        if self.argument.is_some() {
            return None;
        }
        let mut given = self;
        given.argument = Some(text);
        Some(given)
    }
}

// The value, where none was given before.
fn once<'a>(before: Option<&'a [u8]>, value: &'a [u8]) -> Option<&'a [u8]>
    ensures { text_in result ≡ once (text_in before.entry) value.now }
{
    if before.is_some() { None } else { Some(value) }
}

fn is_text(bytes: &[u8], text: &str) -> bool
    ensures { result ≡ same_bytes bytes.now text.now }
{
    bytes == text.as_bytes()
}

fn is_dashed(word: &[u8]) -> bool
    ensures { result ≡ is_dashed word.now }
{
    match word {
        [first, _, ..] => *first == b'-',
        _ => false,
    }
}

fn form_of(word: &[u8]) -> Form<'_>
    ensures { form_value result ≡ form_of word.now }
{
    match word {
        [] => Form::Plain,
        [_] => Form::Plain,
        [first, second, text @ ..] => {
            if *first != b'-' {
                Form::Plain
            } else if *second != b'-' {
                Form::Dashed
            } else {
                option_form(text)
            }
        }
    }
}

// What stands behind two dashes.
fn option_form(text: &[u8]) -> Form<'_>
    ensures { form_value result ≡ option_form text.now }
{
    if text.is_empty() {
        return Form::Dashes;
    }
    match equals_sign(text) {
        Some(at) => Form::Whole(&text[..at], &text[at + 1..]),
        None => Form::Named(text),
    }
}

fn equals_sign(text: &[u8]) -> Option<usize>
    ensures place { result ≡ position (λ b. b == 61) text.now }
    ensures within { IfSome result (λ at. at < length text.now) }
{
    text.iter().position(|b| *b == b'=')
}
