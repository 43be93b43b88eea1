// The fragments of the input are printed as a call.
ghost use Rattle.std.specs.Prelude.{◌≡◌, Some, None, option_map, IfOk, IfErr};
ghost use Rattle.nd_base.specs.Over.{files_over, source_over};
ghost use Rattle.idl_grammar.specs.Files.{seen_idl};
ghost use Rattle.command_compile.specs.Compiled.{AsksFiles};
ghost use Rattle.dceidl.specs.Input.{HasCalled, IsNoCall};

use crate::ready::make_ready;
use command_call::print_call;
use command_compile::compile;
use command_line::Subject;
use command_refusals::Refusal;
use idl_grammar::IdlFile;
use nd_base::{Files, Octets, Source};
use nd_types::Side;
use std::alloc::Global;

// Loads and reads the files, and prints the call whose fragments the input is: a response to an operation, or a request if none is named.
pub(crate) fn call<F: Files, S: Source>(
    alloc: Global,
    idl: IdlFile<'_>,
    acf: Option<&str>,
    op: Option<&str>,
    files: &mut F,
    input: &mut S,
) -> Result<Octets, Refusal>
    ensures asked { AsksFiles (files_over F.seen files.old files.new)
        (Some (record { idl = seen_idl idl.entry; acf = option_map (λ a. a.now) acf.entry })) }
    ensures done { IfOk result (HasCalled (files_over F.seen files.old files.new)
        (source_over S.seen input.old input.new) (seen_idl idl.entry) (option_map (λ a. a.now) acf.entry) (option_map (λ a. a.now) op.entry)) }
    ensures refused { IfErr result (IsNoCall (files_over F.seen files.old files.new)
        (source_over S.seen input.old input.new) (seen_idl idl.entry) (option_map (λ a. a.now) acf.entry) (option_map (λ a. a.now) op.entry)) }
{
    match op {
        None => request(alloc, idl, acf, files, input),
        Some(name) => response(alloc, idl, acf, name, files, input),
    }
}

// The same of a request, which states its operation.
fn request<F: Files, S: Source>(
    alloc: Global,
    idl: IdlFile<'_>,
    acf: Option<&str>,
    files: &mut F,
    input: &mut S,
) -> Result<Octets, Refusal>
    ensures asked { AsksFiles (files_over F.seen files.old files.new)
        (Some (record { idl = seen_idl idl.entry; acf = option_map (λ a. a.now) acf.entry })) }
    ensures done { IfOk result (HasCalled (files_over F.seen files.old files.new)
        (source_over S.seen input.old input.new) (seen_idl idl.entry) (option_map (λ a. a.now) acf.entry) None) }
    ensures refused { IfErr result (IsNoCall (files_over F.seen files.old files.new)
        (source_over S.seen input.old input.new) (seen_idl idl.entry) (option_map (λ a. a.now) acf.entry) None) }
{
    let interface = compile(alloc, idl, acf, files)?;
    print_call(alloc, &interface, None, input)
}

// The same of a response to the operation of a name.
fn response<F: Files, S: Source>(
    alloc: Global,
    idl: IdlFile<'_>,
    acf: Option<&str>,
    op: &str,
    files: &mut F,
    input: &mut S,
) -> Result<Octets, Refusal>
    ensures asked { AsksFiles (files_over F.seen files.old files.new)
        (Some (record { idl = seen_idl idl.entry; acf = option_map (λ a. a.now) acf.entry })) }
    ensures done { IfOk result (HasCalled (files_over F.seen files.old files.new)
        (source_over S.seen input.old input.new) (seen_idl idl.entry) (option_map (λ a. a.now) acf.entry) (Some op.now)) }
    ensures refused { IfErr result (IsNoCall (files_over F.seen files.old files.new)
        (source_over S.seen input.old input.new) (seen_idl idl.entry) (option_map (λ a. a.now) acf.entry) (Some op.now)) }
{
    let of = Subject {
        idl,
        acf,
        op,
        side: Side::Out,
    };
    let ready = make_ready(alloc, of, files)?;
    print_call(alloc, &ready.interface, Some(ready.number), input)
}
