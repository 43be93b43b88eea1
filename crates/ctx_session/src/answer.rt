// What a line of a script comes to, and how that is written.
ghost use Rattle.std.specs.Prelude.{◌≡◌, ◌≤◌, ◌+◌, ◌-◌, ◌++◌, [], ◌∷◌, length, decimal, vec_len, vec_capacity};
ghost use Rattle.ctx_session.specs.Session.{answer_words, fault_word};
ghost use Rattle.ctx_session.specs.Written.{IsShort};

use ctx_store::OpenFault;
use itoa::Buffer;

/// What a line of a script comes to.
#[derive(Clone, Copy, Debug, PartialEq, Eq)]
pub enum Answer {
    /// It was done, and nothing failed.
    Done,
    /// There is no fresh resource.
    NoneFresh,
    /// Nothing can be opened under this identifier.
    Refused(OpenFault),
    /// The identifier is not live.
    Unknown,
    /// The resource failed.
    Failed,
    /// So many resources were ended.
    Ended(u32),
}

/// The most octets of an answer with its line feed.
pub(crate) const ANSWER_LIMIT: usize = 16;

// Adds octets for which there is room.
fn add(out: &mut Vec<u8>, octets: &[u8])
    requires { length octets.now ≤ vec_capacity out.old - vec_len out.old }
    ensures octets { out.new.items ≡ out.old.items ++ octets.now }
    ensures room { vec_capacity out.old - vec_len out.old ≤ (vec_capacity out.new - vec_len out.new) + length octets.now }
{
    // There is room, so this cannot fail.
    out.extend_from_slice(octets).unwrap();
}

// The word of a fault of opening.
fn fault_text(fault: OpenFault) -> &'static [u8]
    ensures { result.now ≡ fault_word fault }
{
    match fault {
        OpenFault::NullId => b"null",
        OpenFault::Twice => b"twice",
        OpenFault::Full => b"full",
    }
}

// Adds the digits of a count.
#[tactic(auto, using(crate::proofs::Digits::few_digits))]
fn add_count(out: &mut Vec<u8>, count: u32)
    requires room { 4 ≤ vec_capacity out.old - vec_len out.old }
    requires few { count ≤ 4096 }
    ensures octets { out.new.items ≡ out.old.items ++ decimal count }
    ensures room { vec_capacity out.old - vec_len out.old ≤ (vec_capacity out.new - vec_len out.new) + 4 }
{
    let mut digits = Buffer::new();
    add(out, digits.format(count).as_bytes());
}

// Adds the words of an answer.
fn add_words(out: &mut Vec<u8>, answer: Answer)
    requires room { 15 ≤ vec_capacity out.old - vec_len out.old }
    requires short { IsShort answer }
    ensures octets { out.new.items ≡ out.old.items ++ answer_words answer }
    ensures room { vec_capacity out.old - vec_len out.old ≤ (vec_capacity out.new - vec_len out.new) + 15 }
{
    match answer {
        Answer::Done => add(out, b"ok"),
        Answer::NoneFresh => add(out, b"none"),
        Answer::Refused(fault) => add(out, fault_text(fault)),
        Answer::Unknown => add(out, b"unknown"),
        Answer::Failed => add(out, b"failed"),
        Answer::Ended(count) => {
            add(out, b"ended ");
            add_count(out, count);
        }
    }
}

// Adds an answer with its line feed.
pub(crate) fn write_answer(out: &mut Vec<u8>, answer: Answer)
    requires room { 16 ≤ vec_capacity out.old - vec_len out.old }
    requires short { IsShort answer }
    ensures octets { out.new.items ≡ out.old.items ++ (answer_words answer ++ 10 ∷ []) }
    ensures room { vec_capacity out.old - vec_len out.old ≤ (vec_capacity out.new - vec_len out.new) + 16 }
{
    add_words(out, answer);
    add(out, b"\n");
}
