// Values with their interface.
ghost use Rattle.std.specs.Prelude.{◌≡◌, ◌≤◌, length, Some, IfOk, IfErr, OnErr};
ghost use Rattle.std.specs.List.{slice_get};
ghost use Rattle.nd_types.specs.declared.types.Operation.{Operation};
ghost use Rattle.nd_value.specs.Fitting.{setting_beside};
ghost use Rattle.command_refusals.specs.declared.refusal.Refusal.TheVariants as refusal;
ghost use Rattle.text_grammar.specs.Written.{IsText};
ghost use Rattle.library_values.specs.Encoded.{IsEncoded, IsEncodeCause};

use crate::encoding::{Encoded, encode_fit};
use command_refusals::Refusal;
use library_interface::Compiled;
use nd_base::{Memory, Octets, Order};
use nd_graph::Fit;
use nd_types::{Interface, Side};
use ndr_code::Plan;
use std::alloc::Global;
use std::marker::Model;
use std::rc::Rc;
use value_text::print;

/// The values of a side of an operation, with the interface that they are of, which others may have too. Contracts see them as a fit.
#[derive(Drop)]
pub struct Values {
    pub(crate) compiled: Rc<Compiled>,
    pub(crate) fit: Fit,
}

impl Model for Values {
    ghost use Rattle.std.specs.Prelude.{◌≡◌};
    ghost use Rattle.nd_value.specs.Fitting.{Fitting, fitting_code};

    ghost Value = { Fitting };

    ghost coded = { fitting_code };

    ghost view = { λ v. v.fit };

    ghost invariant = { λ v. v.fit.interface ≡ v.compiled.value };
}

impl Values {
    /// A fit with its interface. Memory is the only refusal: the interface has as many values as can be counted.
    #[inline(always)]
    pub fn of(compiled: &Rc<Compiled>, fit: Fit) -> Result<Values, Refusal>
        requires { fit.interface ≡ compiled.now.value }
        ensures ok { IfOk result (λ v. v ≡ fit) }
        ensures err { IfErr result (λ e. e ≡ refusal.Memory) }
    {
        match compiled.clone() {
            Ok(compiled) => Ok(Values { compiled, fit }),
            Err(_) => Err(Refusal::Memory),
        }
    }

    /// The number of the operation. Takes no memory.
    pub fn op(&self) -> u32
        ensures { result ≡ self.now.op }
    {
        self.fit.op()
    }

    /// The side of the operation. Takes no memory.
    pub fn side(&self) -> Side
        ensures { result ≡ self.now.side }
    {
        self.fit.side()
    }

    /// The interface, with its plan. Takes no memory.
    pub fn compiled(&self) -> &Compiled
        ensures { result.now ≡ self.now.interface }
    {
        &self.compiled
    }

    /// The same, as it is shared. Takes no memory.
    pub fn shared(&self) -> &Rc<Compiled>
        ensures { result.now.value ≡ self.now.interface }
    {
        &self.compiled
    }

    /// The values as a fit. Takes no memory.
    pub fn fit(&self) -> &Fit
        ensures { result.now ≡ self.now }
    {
        &self.fit
    }

    /// The text of the values, version 2 of the value text. Takes memory for the text and for the canonical graph; running out of it is the only
    /// refusal.
    pub fn text(&self, alloc: Global) -> Result<Octets, Memory>
        ensures { IfOk result (λ text. (o : Operation) → slice_get self.now.interface.operations self.now.op ≡ Some o
            → IsText (setting_beside self.now.interface o self.now.side self.now.given) self.now.graph text) }
    {
        let interface = interface_of(&self.compiled);
        print_fit(alloc, interface, &self.fit)
    }

    /// Writes the octets of the values to the front of a buffer, in NDR (C706, chapter 14), if they have room there, and leaves the rest of it as it
    /// was; else it writes nothing, and says how many they are. Each chunk of a pipe has `chunk` elements, at least one, except the last, which may
    /// have fewer.
    ///
    /// # Errors
    /// TooLong, exactly where the octets are more than a stream may have: so many. Memory where memory was refused.
    ///
    /// Takes memory for 12 octets for each root and cell and 4 for each cell, and gives it back.
    pub fn encode(
        &self,
        alloc: Global,
        order: Order,
        chunk: u32,
        out: &mut [u8],
    ) -> Result<Encoded, Refusal>
        requires some { 1 ≤ chunk }
        ensures encoded { IfOk result (IsEncoded self.now order chunk out.old out.new) }
        ensures refused { IfErr result (IsEncodeCause self.now chunk) }
        ensures kept { OnErr result (out.new ≡ out.old) }
        ensures wide { length out.new ≡ length out.old }
    {
        encode_fit(alloc, plan_of(&self.compiled), &self.fit, order, chunk, out)
    }
}

// The text of a fit.
fn print_fit(alloc: Global, interface: &Interface, fit: &Fit) -> Result<Octets, Memory>
    requires tied { fit.now.interface ≡ interface.now }
    ensures { IfOk result (λ text. (o : Operation) → slice_get fit.now.interface.operations fit.now.op ≡ Some o
        → IsText (setting_beside fit.now.interface o fit.now.side fit.now.given) fit.now.graph text) }
{
    print(alloc, interface, fit)
}

/// The interface that is shared. Takes no memory.
pub(crate) fn interface_of(compiled: &Rc<Compiled>) -> &Interface
    ensures { result.now ≡ compiled.now.value }
{
    compiled.interface()
}

/// Its plan. Takes no memory.
pub(crate) fn plan_of(compiled: &Rc<Compiled>) -> &Plan
    ensures { result.now.tie ≡ compiled.now.value }
{
    compiled.plan()
}
