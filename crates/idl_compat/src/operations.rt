// The pairs that two operations ask for.
ghost use Rattle.std.specs.Prelude.{◌≡◌, ℕ, List, Some, true, false, IfOk};
ghost use Rattle.idl_compat.specs.Comparison.{OneByOne, AlikeParams, AlikeOperations, IsPair};
ghost use Rattle.idl_compat.specs.Asking.{Asks};

use crate::TypePairs;
use crate::asking::{are_equal, ask};
use crate::forms::ask_both;
use nd_base::Memory;
use nd_types::{HANDLE, Operation, Param, Params};

/// The pair of the types of two parameters, if they are no handle_t, added to a queue; or false where no pairs make them alike. Running out of memory
/// is the only refusal.
pub fn ask_param(queue: &mut TypePairs, param: &Param, other: &Param) -> Result<bool, Memory>
    ensures { IfOk result (λ ok. Asks (λ m. AlikeParams (IsPair m) param.now other.now) queue.old queue.new ok) }
{
    if param.way != other.way {
        return Ok(false);
    }
    if !are_equal(&param.field.vars, &other.field.vars) {
        return Ok(false);
    }
    if param.field.of.0 == HANDLE.0 && other.field.of.0 == HANDLE.0 {
        return Ok(true);
    }
    let ok = ask(queue, param.field.of, other.field.of)?;
    Ok(ok)
}

// The pairs of the types of parameters.
fn ask_params(queue: &mut TypePairs, params: &Params, others: &Params) -> Result<bool, Memory>
    ensures { IfOk result (λ ok. Asks (λ m. OneByOne (AlikeParams (IsPair m)) params.now others.now) queue.old queue.new ok) }
{
    if params.len() != others.len() {
        return Ok(false);
    }
    for at in 0..params.len() {
        let Some(param) = params.get(at) else {
            return Ok(false);
        };
        let Some(other) = others.get(at) else {
            return Ok(false);
        };
        if !ask_param(queue, param, other)? {
            return Ok(false);
        }
    }
    Ok(true)
}

/// The pairs that two operations ask for, or false where no pairs make them alike.
pub(crate) fn ask_operation(
    queue: &mut TypePairs,
    operation: &Operation,
    other: &Operation,
) -> Result<bool, Memory>
    ensures { IfOk result (λ ok. Asks (λ m. AlikeOperations (IsPair m) operation.now other.now) queue.old queue.new ok) }
{
    if !ask_params(queue, &operation.params, &other.params)? {
        return Ok(false);
    }
    let ok = ask_both(queue, operation.result, other.result)?;
    Ok(ok)
}
