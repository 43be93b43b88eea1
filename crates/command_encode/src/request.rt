// The request beside which a response is judged: its text is loaded, read and fitted to the inputs of the operation.
ghost use Rattle.std.specs.Prelude.{◌≡◌, ◌≤◌, ◌<◌, ℕ, List, [], ◌∷◌, ◌++◌, length, Some, None, IfOk, IfErr};
ghost use Rattle.std.specs.List.{slice_get};
ghost use Rattle.nd_base.specs.Over.{files_over};
ghost use Rattle.nd_types.specs.declared.types.Operation.{Operation};
ghost use Rattle.nd_types.specs.declared.types.Side.TheVariants.{In};
ghost use Rattle.nd_value.specs.Fitting.{setting_of};
ghost use Rattle.nd_value.specs.Setting.{Setting};
ghost use Rattle.command_encode.specs.Encoded.{IsTextCause, inputs, IsRequestText, HoldsRequest, HoldsNoRequest, IsTextRefusal};

use crate::fitting::fit_text;
use command_refusals::{Refusal, RequestFault, load};
use nd_base::{FILE_LIMIT, Files};
use nd_graph::Fit;
use nd_types::{Interface, Side};
use std::alloc::Global;
use value_text::TextReason;

/// The request of an operation in the file of a name: the file is loaded, its text is read, and its values are fitted to the inputs of the operation.
/// `op` must be the number of an operation of the interface. The text has at most [`FILE_LIMIT`] octets.
///
/// # Errors
/// Absent and FileFailed, where the file does not exist or could not be read. BadRequest, where its text is too long or goes on as no text of the
/// inputs, or its values do not conform. Memory where memory was refused.
///
/// Takes memory for the text and its values.
pub fn load_request<F: Files>(
    alloc: Global,
    interface: &Interface,
    op: u32,
    name: &str,
    files: &mut F,
) -> Result<Fit, Refusal>
    requires known { op < length interface.now.operations }
    ensures tied { IfOk result (λ f. f.interface ≡ interface.now) }
    ensures number { IfOk result (λ f. f.op ≡ op) }
    ensures side { IfOk result (λ f. f.side ≡ In) }
    ensures request { (o : Operation) (w : Setting) → slice_get interface.now.operations op ≡ Some o → inputs w ≡ setting_of interface.now o In
        → IfOk result (λ f. HoldsRequest (files_over F.seen files.old files.new) name.now w f.graph) }
    ensures refused { (o : Operation) (w : Setting) → slice_get interface.now.operations op ≡ Some o → inputs w ≡ setting_of interface.now o In
        → IfErr result (HoldsNoRequest (files_over F.seen files.old files.new) name.now w) }
    ensures later { (F.seen files.old).faults ≤ (F.seen files.new).faults }
    ensures absences_later { (F.seen files.old).absences ≤ (F.seen files.new).absences }
    ensures same { (F.seen files.new).held ≡ (F.seen files.old).held }
    ensures asked { (F.seen files.new).asked ≡ (F.seen files.old).asked ++ name.now ∷ [] }
{
    let text = load(alloc, name, files)?;
    fit_request(alloc, interface, op, text.as_slice())
}

// The request of a text.
fn fit_request(alloc: Global, interface: &Interface, op: u32, text: &[u8]) -> Result<Fit, Refusal>
    requires known { op < length interface.now.operations }
    ensures tied { IfOk result (λ f. f.interface ≡ interface.now) }
    ensures number { IfOk result (λ f. f.op ≡ op) }
    ensures side { IfOk result (λ f. f.side ≡ In) }
    ensures request { (o : Operation) (w : Setting) → slice_get interface.now.operations op ≡ Some o → inputs w ≡ setting_of interface.now o In
        → IfOk result (λ f. IsRequestText w text.now f.graph) }
    ensures refused { (o : Operation) (w : Setting) → slice_get interface.now.operations op ≡ Some o → inputs w ≡ setting_of interface.now o In
        → IfErr result (IsTextRefusal w text.now) }
{
    if text.len() > FILE_LIMIT as usize {
        return Err(Refusal::BadRequest(RequestFault::Text {
            line: 1,
            column: 1,
            reason: TextReason::TooLong,
        }));
    }
    match fit_text(alloc, interface, op, Side::In, None, text) {
        Ok(fit) => {
            // A fit's graph conforms.
            let _conforming = fit.flat();
            Ok(fit)
        }
        Err(refusal) => Err(of_request(refusal)),
    }
}

// Why a text is refused, where it is that of a request.
fn of_request(refusal: Refusal) -> Refusal
    ensures { (w : Setting) (text : List ℕ) → length text ≤ FILE_LIMIT → IsTextCause (inputs w) text refusal → IsTextRefusal w text result }
{
    match refusal {
        Refusal::BadText {
            line,
            column,
            reason,
        } => Refusal::BadRequest(RequestFault::Text {
            line,
            column,
            reason,
        }),
        Refusal::BadValue { path, reason } => {
            Refusal::BadRequest(RequestFault::Value { path, reason })
        }
        other => other,
    }
}
