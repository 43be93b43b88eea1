// The words of a command line, and the command that they are.
ghost use Rattle.std.specs.Prelude.{◌≡◌, ◌≤◌, ◌<◌, [], ◌∷◌, ◌++◌, length, map, OnOk, OnErr, IfSome, option_map};
ghost use Rattle.std.specs.String.{string_bytes};
ghost use Rattle.command_line.specs.Words.{counted_command, why_words, acf_of, order_of, side_of, reading_of};
ghost use Rattle.command_line.specs.Words.{read as read_of, read_beside as read_beside_of};
ghost use Rattle.command_line.specs.Words.{encode as encode_of, encode_beside as encode_beside_of, migrate as migrate_of, sample as sample_of};
ghost use Rattle.command_line.specs.Words.{listing as listing_of, subject as subject_by};
ghost use Rattle.command_line.specs.Words.{is_session as is_session_of, operation_of, fixed_order_of, wrap as wrap_of};
ghost use Rattle.command_line.specs.Words.{read_beside_words as read_beside_words_of, compat_why as compat_why_of};
ghost use Rattle.command_line.specs.Words.{worded_command, if_in_windows, in_windows as windows_file};
ghost use Rattle.idl_grammar.specs.Files.{seen_idl, in_c706 as c706_file};
ghost use Rattle.command_line.specs.declared.TheConstants.{COUNT_LIMIT, LEAST_MAX};
ghost use Rattle.command_line.specs.Commands.{command_of, subject_of, IsWellFormed};

use crate::command::{Command, OrderWord, Reading, Subject, Task};
use crate::numbers::number_named;
use crate::{CHUNK_LIMIT, COUNT_LIMIT, LEAST_MAX};
use idl_grammar::{IdlFile, Language};
use nd_base::{Memory, Order};
use nd_types::Side;
use std::alloc::Global;
use std::marker::Model;

/// The words of a command line after the program's name.
#[derive(Drop)]
pub struct Words {
    alloc: Global,
    items: Vec<String>,
}

impl Model for Words {
    ghost use Rattle.std.specs.Prelude.{List, ℕ, map, string_bytes};

    ghost Value = { List (List ℕ) };

    ghost view = { λ w. map string_bytes w.items.items };
}

impl Words {
    /// No words. It allocates nothing.
    pub fn new(alloc: Global) -> Words
        ensures { result ≡ [] }
    {
        Words {
            alloc,
            items: Vec::new(alloc),
        }
    }

    /// Adds a word at the end. If memory runs out nothing has changed.
    pub fn push(&mut self, word: &str) -> Result<(), Memory>
        ensures ok { OnOk result (self.new ≡ self.old ++ word.now ∷ []) }
        ensures err { OnErr result (self.new ≡ self.old) }
    {
        let word = String::from_str(self.alloc, word)?;
        match self.items.push(word) {
            Ok(()) => Ok(()),
            Err(_) => Err(Memory),
        }
    }

    /// Whether the one word is `session`, which is no command: it runs a script over resources that a caller hands in. Takes no memory.
    pub fn is_session(&self) -> bool
        ensures { result ≡ is_session_of self.now }
    {
        match self.items.as_slice() {
            [word] => word.as_str() == "session",
            _ => false,
        }
    }

    /// The words after `why`, or all words after and with `help`, or None if neither is the first word. Takes no memory.
    pub fn why(&self) -> Option<&[String]>
        ensures { option_map (λ words. map string_bytes words.now) result ≡ why_words self.now }
    {
        words_after_why(self.items.as_slice())
    }

    /// The command that the words are, or None if they are none. After `windows` its interface files are in the windows language. Takes no memory.
    pub fn command(&self) -> Option<Command<'_>>
        ensures command { option_map command_of result ≡ worded_command self.now }
        ensures formed { IfSome result IsWellFormed }
    {
        command_of_all(self.items.as_slice())
    }
}

// The command that words are, if `windows` is the first in the windows language.
fn command_of_all(words: &[String]) -> Option<Command<'_>>
    ensures command { option_map command_of result ≡ worded_command (map string_bytes words.now) }
    ensures formed { IfSome result IsWellFormed }
{
    match words {
        [verb, rest @ ..] => {
            if verb.as_str() == "windows" {
                if_windows(command_of_count(rest))
            } else {
                command_of_count(words)
            }
        }
        [] => command_of_count(words),
    }
}

// The command that words are by their number.
fn command_of_count(words: &[String]) -> Option<Command<'_>>
    ensures command { option_map command_of result ≡ counted_command (map string_bytes words.now) }
    ensures formed { IfSome result IsWellFormed }
{
    match words.len() {
        0..=5 => command_of_few(words),
        6 | 7 => command_of_more(words),
        _ => command_of_most(words),
    }
}

// A command with its interface files in the windows language, if there is one that names such files, and `--help`.
fn if_windows(command: Option<Command<'_>>) -> Option<Command<'_>>
    requires { IfSome command IsWellFormed }
    ensures command { option_map command_of result ≡ if_in_windows (option_map command_of command.entry) }
    ensures formed { IfSome result IsWellFormed }
{
    match command {
        Some(Command::Values { task, of, given }) => Some(Command::Values {
            task,
            of: Subject {
                idl: in_windows(of.idl),
                acf: of.acf,
                op: of.op,
                side: of.side,
            },
            given,
        }),
        Some(Command::Compile { idl, acf }) => Some(Command::Compile {
            idl: in_windows(idl),
            acf,
        }),
        Some(Command::Plan { idl, acf }) => Some(Command::Plan {
            idl: in_windows(idl),
            acf,
        }),
        Some(Command::Call { idl, acf, op }) => Some(Command::Call {
            idl: in_windows(idl),
            acf,
            op,
        }),
        Some(
            Command::Wrap {
                of,
                order,
                call,
                max,
            },
        ) => Some(Command::Wrap {
            of: Subject {
                idl: in_windows(of.idl),
                acf: of.acf,
                op: of.op,
                side: of.side,
            },
            order,
            call,
            max,
        }),
        Some(
            Command::Compat {
                old,
                old_acf,
                new,
                new_acf,
                why,
            },
        ) => Some(Command::Compat {
            old: in_windows(old),
            old_acf,
            new: in_windows(new),
            new_acf,
            why,
        }),
        Some(Command::Help) => Some(Command::Help),
        Some(Command::Sample { .. }) => None,
        Some(Command::Version) => None,
        None => None,
    }
}

// The same file in the windows language.
fn in_windows(file: IdlFile<'_>) -> IdlFile<'_>
    ensures { seen_idl result ≡ windows_file (seen_idl file.entry) }
{
    IdlFile {
        name: file.name,
        language: Language::Windows,
    }
}

// A file of this name in the language of C706.
fn in_c706(name: &str) -> IdlFile<'_>
    ensures { seen_idl result ≡ c706_file name.now }
{
    IdlFile {
        name,
        language: Language::C706,
    }
}

// The words after `why`, if it is the first, or all words, if `help` is.
fn words_after_why(words: &[String]) -> Option<&[String]>
    ensures { option_map (λ rest. map string_bytes rest.now) result ≡ why_words (map string_bytes words.now) }
{
    match words {
        [verb, rest @ ..] => {
            if verb.as_str() == "why" {
                Some(rest)
            } else if verb.as_str() == "help" {
                Some(words)
            } else {
                None
            }
        }
        [] => None,
    }
}

// The command that at most five words are.
#[tactic(auto, using(crate::proofs::FewWords::two_words))]
fn command_of_few(words: &[String]) -> Option<Command<'_>>
    requires { length words.now ≤ 5 }
    ensures command { option_map command_of result ≡ counted_command (map string_bytes words.now) }
    ensures formed { IfSome result IsWellFormed }
{
    match words {
        [] => Some(Command::Sample { seed: 1, count: 2 }),
        [word] => short_command(word.as_str()),
        [verb, first, second] => three_words(verb.as_str(), first.as_str(), second.as_str()),
        [verb, first, second, third] => four_words(
            verb.as_str(),
            first.as_str(),
            second.as_str(),
            third.as_str(),
        ),
        [verb, first, second, third, fourth] => five_words(
            verb.as_str(),
            first.as_str(),
            second.as_str(),
            third.as_str(),
            fourth.as_str(),
        ),
        _ => None,
    }
}

// The command that six or seven words are.
fn command_of_more(words: &[String]) -> Option<Command<'_>>
    requires least { 6 ≤ length words.now }
    requires most { length words.now ≤ 7 }
    ensures command { option_map command_of result ≡ counted_command (map string_bytes words.now) }
    ensures formed { IfSome result IsWellFormed }
{
    match words {
        [verb, first, second, third, fourth, fifth] => six_words(
            verb.as_str(),
            first.as_str(),
            second.as_str(),
            third.as_str(),
            fourth.as_str(),
            fifth.as_str(),
        ),
        [verb, idl, acf, op, side, order, chunk] => {
            if verb.as_str() == "encode" {
                encode_command(
                    idl.as_str(),
                    acf.as_str(),
                    op.as_str(),
                    side_named(side.as_str()),
                    order_named(order.as_str()),
                    number_named(chunk.as_str(), 1, CHUNK_LIMIT),
                )
            } else {
                None
            }
        }
        _ => None,
    }
}

// The command that eight words or more are.
#[tactic(auto, using(crate::proofs::FewWords::many_words))]
fn command_of_most(words: &[String]) -> Option<Command<'_>>
    requires { 8 ≤ length words.now }
    ensures command { option_map command_of result ≡ counted_command (map string_bytes words.now) }
    ensures formed { IfSome result IsWellFormed }
{
    match words {
        [verb, idl, acf, op, side, order, given, text] => eight_words(
            verb.as_str(),
            idl.as_str(),
            acf.as_str(),
            op.as_str(),
            side.as_str(),
            order.as_str(),
            given.as_str(),
            text.as_str(),
        ),
        [verb, idl, acf, op, side, order, chunk, given, text] => encode_beside_words(
            verb.as_str(),
            idl.as_str(),
            acf.as_str(),
            op.as_str(),
            side.as_str(),
            order.as_str(),
            chunk.as_str(),
            given.as_str(),
            text.as_str(),
        ),
        _ => None,
    }
}

fn short_command(word: &str) -> Option<Command<'_>>
    ensures command { option_map command_of result ≡ counted_command (word.now ∷ []) }
    ensures formed { IfSome result IsWellFormed }
{
    if word == "--help" {
        Some(Command::Help)
    } else if word == "--version" {
        Some(Command::Version)
    } else {
        None
    }
}

// The command that three words are: one that lists, or `sample`.
fn three_words<'a>(verb: &str, first: &'a str, second: &'a str) -> Option<Command<'a>>
    ensures command { option_map command_of result ≡ counted_command (verb.now ∷ first.now ∷ second.now ∷ []) }
    ensures formed { IfSome result IsWellFormed }
{
    if verb == "sample" {
        sample_command(
            number_named(first, 0, u32::MAX),
            number_named(second, 1, COUNT_LIMIT),
        )
    } else {
        listing_command(verb, first, second)
    }
}

// The command that four words are: `call`.
fn four_words<'a>(
    verb: &str,
    first: &'a str,
    second: &'a str,
    third: &'a str,
) -> Option<Command<'a>>
    ensures command { option_map command_of result ≡ counted_command (verb.now ∷ first.now ∷ second.now ∷ third.now ∷ []) }
    ensures formed { IfSome result IsWellFormed }
{
    if verb == "call" {
        Some(Command::Call {
            idl: in_c706(first),
            acf: acf_named(second),
            op: operation_named(third),
        })
    } else {
        None
    }
}

// The command that five words are: `migrate` or `compat`.
fn five_words<'a>(
    verb: &str,
    first: &'a str,
    second: &'a str,
    third: &'a str,
    fourth: &'a str,
) -> Option<Command<'a>>
    ensures command { option_map command_of result ≡ counted_command (verb.now ∷ first.now ∷ second.now ∷ third.now ∷ fourth.now ∷ []) }
    ensures formed { IfSome result IsWellFormed }
{
    if verb == "migrate" {
        migrate_command(first, second, third, side_named(fourth))
    } else if verb == "compat" {
        Some(Command::Compat {
            old: in_c706(first),
            old_acf: acf_named(second),
            new: in_c706(third),
            new_acf: acf_named(fourth),
            why: false,
        })
    } else {
        None
    }
}

// The command that six words are: `compat` with `why`, or one that reads octets.
fn six_words<'a>(
    verb: &str,
    first: &'a str,
    second: &'a str,
    third: &'a str,
    fourth: &'a str,
    fifth: &str,
) -> Option<Command<'a>>
    ensures command { option_map command_of result
        ≡ counted_command (verb.now ∷ first.now ∷ second.now ∷ third.now ∷ fourth.now ∷ fifth.now ∷ []) }
    ensures formed { IfSome result IsWellFormed }
{
    if verb == "compat" {
        compat_why(first, second, third, fourth, fifth)
    } else {
        read_command(
            reading_named(verb),
            first,
            second,
            third,
            side_named(fourth),
            order_named(fifth),
        )
    }
}

// `compat` with the last word `why`.
fn compat_why<'a>(
    old: &'a str,
    old_acf: &'a str,
    new: &'a str,
    new_acf: &'a str,
    why: &str,
) -> Option<Command<'a>>
    ensures command { option_map command_of result ≡ compat_why_of old.now old_acf.now new.now new_acf.now why.now }
    ensures formed { IfSome result IsWellFormed }
{
    if why == "why" {
        Some(Command::Compat {
            old: in_c706(old),
            old_acf: acf_named(old_acf),
            new: in_c706(new),
            new_acf: acf_named(new_acf),
            why: true,
        })
    } else {
        None
    }
}

// The command that eight words are: `wrap`, or one that reads octets beside a request.
fn eight_words<'a>(
    verb: &str,
    idl: &'a str,
    acf: &'a str,
    op: &'a str,
    side: &str,
    order: &str,
    seventh: &str,
    eighth: &'a str,
) -> Option<Command<'a>>
    ensures command { option_map command_of result
        ≡ counted_command (verb.now ∷ idl.now ∷ acf.now ∷ op.now ∷ side.now ∷ order.now ∷ seventh.now ∷ eighth.now ∷ []) }
    ensures formed { IfSome result IsWellFormed }
{
    if verb == "wrap" {
        wrap_command(
            idl,
            acf,
            op,
            side_named(side),
            fixed_order_named(order),
            number_named(seventh, 0, u32::MAX),
            number_named(eighth, LEAST_MAX, 65_535),
        )
    } else {
        read_beside_words(verb, idl, acf, op, side, order, seventh, eighth)
    }
}

// `wrap`, if its words are a side, an order of octets, a call id and the most octets of a fragment.
fn wrap_command<'a>(
    idl: &'a str,
    acf: &'a str,
    op: &'a str,
    side: Option<Side>,
    order: Option<Order>,
    call: Option<u32>,
    max: Option<u32>,
) -> Option<Command<'a>>
    requires least { IfSome max (λ n. LEAST_MAX ≤ n) }
    requires most { IfSome max (λ n. n ≤ 65535) }
    ensures command { option_map command_of result ≡ wrap_of idl.now acf.now op.now side order call max }
    ensures formed { IfSome result IsWellFormed }
{
    match (side, order, call, max) {
        (Some(side), Some(order), Some(call), Some(max)) => Some(Command::Wrap {
            of: subject_named(idl, acf, op, side),
            order,
            call,
            max: max as u16,
        }),
        _ => None,
    }
}

// `sample`, if its words are a seed and a count.
fn sample_command<'a>(seed: Option<u32>, count: Option<u32>) -> Option<Command<'a>>
    requires least { IfSome count (λ n. 1 ≤ n) }
    requires most { IfSome count (λ n. n ≤ COUNT_LIMIT) }
    ensures command { option_map command_of result ≡ sample_of seed count }
    ensures formed { IfSome result IsWellFormed }
{
    match (seed, count) {
        (Some(seed), Some(count)) => Some(Command::Sample { seed, count }),
        _ => None,
    }
}

fn listing_command<'a>(verb: &str, idl: &'a str, acf: &'a str) -> Option<Command<'a>>
    ensures command { option_map command_of result ≡ listing_of verb.now idl.now acf.now }
    ensures formed { IfSome result IsWellFormed }
{
    if verb == "compile" {
        Some(Command::Compile {
            idl: in_c706(idl),
            acf: acf_named(acf),
        })
    } else if verb == "plan" {
        Some(Command::Plan {
            idl: in_c706(idl),
            acf: acf_named(acf),
        })
    } else {
        None
    }
}

// A command that reads octets, if its words are a way of reading, a side and an order.
fn read_command<'a>(
    how: Option<Reading>,
    idl: &'a str,
    acf: &'a str,
    op: &'a str,
    side: Option<Side>,
    order: Option<OrderWord>,
) -> Option<Command<'a>>
    ensures command { option_map command_of result ≡ read_of how idl.now acf.now op.now side order }
    ensures formed { IfSome result IsWellFormed }
{
    match (how, side, order) {
        (Some(how), Some(side), Some(order)) => Some(Command::Values {
            task: Task::Read { how, order },
            of: subject_named(idl, acf, op, side),
            given: None,
        }),
        _ => None,
    }
}

// The same beside a request, if its words are a way of reading, the side of the outputs and an order.
fn read_beside_command<'a>(
    how: Option<Reading>,
    idl: &'a str,
    acf: &'a str,
    op: &'a str,
    side: Option<Side>,
    order: Option<OrderWord>,
    text: &'a str,
) -> Option<Command<'a>>
    ensures command { option_map command_of result ≡ read_beside_of how idl.now acf.now op.now side order text.now }
    ensures formed { IfSome result IsWellFormed }
{
    match (how, side, order) {
        (Some(how), Some(Side::Out), Some(order)) => Some(Command::Values {
            task: Task::Read { how, order },
            of: subject_named(idl, acf, op, Side::Out),
            given: Some(text),
        }),
        _ => None,
    }
}

// `encode`, if its words are a side, an order and the number of elements of a chunk.
fn encode_command<'a>(
    idl: &'a str,
    acf: &'a str,
    op: &'a str,
    side: Option<Side>,
    order: Option<OrderWord>,
    chunk: Option<u32>,
) -> Option<Command<'a>>
    requires { IfSome chunk (λ n. 1 ≤ n) }
    ensures command { option_map command_of result ≡ encode_of idl.now acf.now op.now side order chunk }
    ensures formed { IfSome result IsWellFormed }
{
    match (side, order, chunk) {
        (Some(side), Some(order), Some(chunk)) => Some(Command::Values {
            task: Task::Encode { order, chunk },
            of: subject_named(idl, acf, op, side),
            given: None,
        }),
        _ => None,
    }
}

// A command of eight words that reads octets beside a request.
fn read_beside_words<'a>(
    how: &str,
    idl: &'a str,
    acf: &'a str,
    op: &'a str,
    side: &str,
    order: &str,
    given: &str,
    text: &'a str,
) -> Option<Command<'a>>
    ensures command { option_map command_of result
        ≡ read_beside_words_of how.now idl.now acf.now op.now side.now order.now given.now text.now }
    ensures formed { IfSome result IsWellFormed }
{
    if given == "given" {
        read_beside_command(
            reading_named(how),
            idl,
            acf,
            op,
            side_named(side),
            order_named(order),
            text,
        )
    } else {
        None
    }
}

// The command that nine words are: `encode` beside a request.
fn encode_beside_words<'a>(
    verb: &str,
    idl: &'a str,
    acf: &'a str,
    op: &'a str,
    side: &str,
    order: &str,
    chunk: &str,
    given: &str,
    text: &'a str,
) -> Option<Command<'a>>
    ensures command { option_map command_of result
        ≡ counted_command (verb.now ∷ idl.now ∷ acf.now ∷ op.now ∷ side.now ∷ order.now ∷ chunk.now ∷ given.now ∷ text.now ∷ []) }
    ensures formed { IfSome result IsWellFormed }
{
    if verb == "encode" && given == "given" {
        encode_beside_command(
            idl,
            acf,
            op,
            side_named(side),
            order_named(order),
            number_named(chunk, 1, CHUNK_LIMIT),
            text,
        )
    } else {
        None
    }
}

// `encode` beside a request, if its words are the side of the outputs, an order and the number of elements of a chunk.
fn encode_beside_command<'a>(
    idl: &'a str,
    acf: &'a str,
    op: &'a str,
    side: Option<Side>,
    order: Option<OrderWord>,
    chunk: Option<u32>,
    text: &'a str,
) -> Option<Command<'a>>
    requires { IfSome chunk (λ n. 1 ≤ n) }
    ensures command { option_map command_of result ≡ encode_beside_of idl.now acf.now op.now side order chunk text.now }
    ensures formed { IfSome result IsWellFormed }
{
    match (side, order, chunk) {
        (Some(Side::Out), Some(order), Some(chunk)) => Some(Command::Values {
            task: Task::Encode { order, chunk },
            of: subject_named(idl, acf, op, Side::Out),
            given: Some(text),
        }),
        _ => None,
    }
}

// `migrate`, if its word is a side.
fn migrate_command<'a>(
    idl: &'a str,
    acf: &'a str,
    op: &'a str,
    side: Option<Side>,
) -> Option<Command<'a>>
    ensures command { option_map command_of result ≡ migrate_of idl.now acf.now op.now side }
    ensures formed { IfSome result IsWellFormed }
{
    match side {
        Some(side) => Some(Command::Values {
            task: Task::Migrate,
            of: subject_named(idl, acf, op, side),
            given: None,
        }),
        None => None,
    }
}

fn subject_named<'a>(idl: &'a str, acf: &'a str, op: &'a str, side: Side) -> Subject<'a>
    ensures { subject_of result ≡ subject_by idl.now acf.now op.now side }
{
    Subject {
        idl: in_c706(idl),
        acf: acf_named(acf),
        op,
        side,
    }
}

// The attribute file that a word names: `-` names none.
fn acf_named(word: &str) -> Option<&str>
    ensures { option_map (λ a. a.now) result ≡ acf_of word.now }
{
    if word == "-" { None } else { Some(word) }
}

// The operation that a word names: `-` names none.
fn operation_named(word: &str) -> Option<&str>
    ensures { option_map (λ a. a.now) result ≡ operation_of word.now }
{
    if word == "-" { None } else { Some(word) }
}

// The order of octets that a word names, without a format label.
fn fixed_order_named(word: &str) -> Option<Order>
    ensures { result ≡ fixed_order_of word.now }
{
    match word {
        "little" => Some(Order::Little),
        "big" => Some(Order::Big),
        _ => None,
    }
}

// The order of octets that a word names.
fn order_named(word: &str) -> Option<OrderWord>
    ensures { result ≡ order_of word.now }
{
    match word {
        "little" => Some(OrderWord::Fixed(Order::Little)),
        "big" => Some(OrderWord::Fixed(Order::Big)),
        "label" => Some(OrderWord::Label),
        _ => None,
    }
}

// The way of reading octets that a word names.
fn reading_named(word: &str) -> Option<Reading>
    ensures { result ≡ reading_of word.now }
{
    match word {
        "decode" => Some(Reading::Decode),
        "explain" => Some(Reading::Explain),
        "trace" => Some(Reading::Trace),
        "drain" => Some(Reading::Drain),
        _ => None,
    }
}

// The side that a word names.
fn side_named(word: &str) -> Option<Side>
    ensures { result ≡ side_of word.now }
{
    match word {
        "in" => Some(Side::In),
        "out" => Some(Side::Out),
        _ => None,
    }
}
