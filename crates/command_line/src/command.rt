// What the words of a command line ask for.
ghost use Rattle.std.specs.Prelude.{◌≡◌};
ghost use Rattle.command_line.specs.Words.{order_in};

use idl_grammar::IdlFile;
use nd_base::Order;
use nd_types::Side;

/// How the octets of the input are read.
#[derive(Clone, Copy, Debug, PartialEq, Eq)]
pub enum Reading {
    /// The text of their values is written.
    Decode,
    /// A line for each item of their stream is written.
    Explain,
    /// The same, up to the first fault if they are refused, and the fault is shown.
    Trace,
    /// The elements of their pipes go to ends, and the text of the values is written with empty pipes.
    Drain,
}

/// The order of octets that a command names.
#[derive(Clone, Copy, Debug, PartialEq, Eq)]
pub enum OrderWord {
    /// This order.
    Fixed(Order),
    /// The order that a format label before the octets states (C706 section 14.1).
    Label,
}

impl OrderWord {
    /// The order in which octets are written: after a format label it is little endian. Takes no memory.
    pub fn order(self) -> Order
        ensures { result ≡ order_in self }
    {
        match self {
            OrderWord::Fixed(order) => order,
            OrderWord::Label => Order::Little,
        }
    }
}

/// What is done with values.
#[derive(Clone, Copy, Debug, PartialEq, Eq)]
pub enum Task {
    /// The octets of the input are read.
    Read { how: Reading, order: OrderWord },
    /// The text of the input is read, and the octets of its values are written, with so many elements in a chunk of a pipe.
    Encode { order: OrderWord, chunk: u32 },
    /// The text of the input is read, and the text that is printed of its values is written.
    Migrate,
}

/// What a command on values speaks of: the files, an operation of their interface, and a side of it.
#[derive(Clone, Copy)]
pub struct Subject<'a> {
    /// The file of IDL.
    pub idl: IdlFile<'a>,
    /// The attribute configuration file, if one is named.
    pub acf: Option<&'a str>,
    /// The operation.
    pub op: &'a str,
    pub side: Side,
}

/// What a command line asks for, unless it is `why`.
#[derive(Clone, Copy)]
pub enum Command<'a> {
    /// Something is done with the values of the input.
    Values {
        task: Task,
        of: Subject<'a>,
        /// The file of the request beside which a response is judged, if one is named.
        given: Option<&'a str>,
    },
    /// The listing of an interface.
    Compile {
        idl: IdlFile<'a>,
        acf: Option<&'a str>,
    },
    /// The listing of its plan.
    Plan {
        idl: IdlFile<'a>,
        acf: Option<&'a str>,
    },
    /// The fragments of one call are joined, and the text of the values of their stub data is written.
    Call {
        idl: IdlFile<'a>,
        acf: Option<&'a str>,
        /// The operation of the response that is read. If there is none, a request is read, and it states its operation.
        op: Option<&'a str>,
    },
    /// The text of the input is read, and the octets of its values are written as the stub data of fragments.
    Wrap {
        of: Subject<'a>,
        order: Order,
        /// The call id.
        call: u32,
        /// How many octets a fragment has at most: at least 1,024.
        max: u16,
    },
    /// Two versions of an interface are compared.
    Compat {
        old: IdlFile<'a>,
        old_acf: Option<&'a str>,
        new: IdlFile<'a>,
        new_acf: Option<&'a str>,
        /// Whether the first place at which they differ is written.
        why: bool,
    },
    /// A sample of so many cells, made from a seed, is encoded and decoded.
    Sample {
        seed: u32,
        count: u32,
    },
    Help,
    Version,
}
