// A walk over the roots of an operation's side.
ghost use Rattle.std.specs.Prelude.{◌≡◌, ℕ, ◌<◌, ◌≤◌, length, option_map, slice_get, Some, [], ◌∷◌, MatchOption, option_to_list};
ghost use Rattle.std.specs.Iterator.{YieldsFirstBy, item_count};
ghost use Rattle.nd_types.specs.declared.types.Operation.{Operation as OperationValue};
ghost use Rattle.nd_types.specs.Roots.{travels, pipe_of, root_value, named_roots, param_root, params_left, result_left, left};
ghost use Rattle.nd_types.specs.declared.TheConstants.{PARAM_LIMIT};

use crate::{Class, HANDLE, Interface, Operation, Param, Side, TypeDef, TypeId, Types, Way};
use std::marker::Model;

/// A root of an operation's side: a parameter, or the result.
#[derive(Clone, Copy, Debug)]
pub struct RootDef<'a> {
    /// The parameter's name, or `return`.
    pub name: &'a [u8],
    /// The type. For a parameter that is a reference pointer to a pipe it is the pipe.
    pub of: TypeId,
    /// The parameter's place among the parameters of the operation, or None for the result.
    pub param: Option<u32>,
    /// Whether the root is a pipe: the parameter is one, or a reference pointer to one.
    pub pipe: bool,
}

// Which roots come next: the parameters that are no pipes, from one on, the result, or the pipes, from a parameter on.
#[derive(Clone, Copy, Debug)]
enum Stage {
    Parameters(usize),
    Result,
    Pipes(usize),
}

// A side of an operation under a table of types.
#[derive(Drop)]
struct SideRoots<'a> {
    types: &'a Types,
    operation: &'a Operation,
    side: Side,
    ghost few: { length operation.now.params ≤ PARAM_LIMIT },
}

impl<'a> SideRoots<'a> {
    // The root that a parameter is, if it travels on this side and is not of type handle_t.
    fn param(&self, at: usize, param: &'a Param) -> Option<RootDef<'a>>
        requires { at < PARAM_LIMIT }
        ensures { option_map root_value result ≡ param_root self.now.types.now self.now.side at param.now }
    {
        let of = param.field.of;
        if !travels(self.side, param.way) || of == HANDLE {
            return None;
        }
        let pipe = pipe_of(self.types, of);
        Some(RootDef {
            name: param.field.name.as_slice(),
            of: pipe.unwrap_or(of),
            param: Some(at as u32),
            pipe: pipe.is_some(),
        })
    }

    // The next parameter that is a pipe, or that is none, from a parameter on, and the place after it.
    fn next_param(&self, pipes: bool, from: usize) -> Option<(RootDef<'a>, usize)>
        ensures { let rest = params_left self.now.types.now self.now.side self.now.operation.now pipes in
            MatchOption result (rest from ≡ []) (λ r. rest from ≡ root_value r.0 ∷ rest r.1) }
    {
        let params = self.operation.params.as_slice();
        for at in from..params.len() {
            if let Some(root) = self.param(at, &params[at])
                && root.pipe == pipes
            {
                return Some((root, at + 1));
            }
        }
        None
    }

    // The result, where it travels on this side.
    fn result(&self) -> Option<RootDef<'a>>
        ensures { option_to_list (option_map root_value result) ≡ result_left self.now.side self.now.operation.now }
    {
        match (self.side, self.operation.result) {
            (Side::Out, Some(of)) => Some(RootDef {
                name: b"return",
                of,
                param: None,
                pipe: false,
            }),
            _ => None,
        }
    }

    // The next root in a stage, and the stage after it.
    fn next(&self, stage: Stage) -> Option<(RootDef<'a>, Stage)>
        ensures { let rest = left self.now.types.now self.now.side self.now.operation.now in
            MatchOption result (rest stage ≡ []) (λ r. rest stage ≡ root_value r.0 ∷ rest r.1) }
    {
        match stage {
            Stage::Parameters(from) => match self.next_param(false, from) {
                Some((root, at)) => Some((root, Stage::Parameters(at))),
                None => self.next_behind_params(),
            },
            Stage::Result => self.next_behind_params(),
            Stage::Pipes(from) => self.next_pipe(from),
        }
    }

    // The result or the first pipe.
    fn next_behind_params(&self) -> Option<(RootDef<'a>, Stage)>
        ensures { let rest = left self.now.types.now self.now.side self.now.operation.now in
            MatchOption result (rest Stage.Result ≡ []) (λ r. rest Stage.Result ≡ root_value r.0 ∷ rest r.1) }
    {
        match self.result() {
            Some(root) => Some((root, Stage::Pipes(0))),
            None => self.next_pipe(0),
        }
    }

    // The next pipe from a parameter on.
    fn next_pipe(&self, from: usize) -> Option<(RootDef<'a>, Stage)>
        ensures { let rest = left self.now.types.now self.now.side self.now.operation.now in
            MatchOption result (rest (Stage.Pipes from) ≡ []) (λ r. rest (Stage.Pipes from) ≡ root_value r.0 ∷ rest r.1) }
    {
        let (root, at) = self.next_param(true, from)?;
        Some((root, Stage::Pipes(at)))
    }
}

/// A walk over the roots of an operation's side in order: the parameters that travel on that side and are
/// neither pipes nor of type handle_t, the result on the Out side, and the pipes. Contracts see it as the list of the
/// roots that are left. It borrows the interface and takes no memory.
#[derive(Drop)]
pub struct ParamWalk<'a> {
    roots: SideRoots<'a>,
    stage: Stage,
}

impl<'a> Model for ParamWalk<'a> {
    ghost use Rattle.std.specs.Prelude.{List};
    ghost use Rattle.nd_types.specs.Roots.{NamedRoot, left};

    ghost Value = { List NamedRoot };

    ghost view = { λ w. left w.roots.types.now w.roots.side w.roots.operation.now w.stage };
}

impl<'a> Iterator for ParamWalk<'a> {
    type Item = RootDef<'a>;

    ghost next_gives = { YieldsFirstBy root_value (λ w. w) };

    ghost remaining = { item_count (λ w. w) };

    fn next(&mut self) -> Option<RootDef<'a>> {
        let (root, stage) = self.roots.next(self.stage)?;
        self.stage = stage;
        Some(root)
    }
}

impl Interface {
    /// A walk over the roots of an operation's side. The operation is given by its number, which must be that of an
    /// operation of the interface. Takes no memory.
    pub fn params(&self, op: u32, side: Side) -> ParamWalk<'_>
        requires { op < length self.now.operations }
        ensures { (o : OperationValue) → slice_get self.now.operations op ≡ Some o → result ≡ named_roots self.now.types side o }
    {
        ParamWalk {
            roots: SideRoots {
                types: &self.types,
                operation: &self.operations.as_slice()[op as usize],
                side,
            },
            stage: Stage::Parameters(0),
        }
    }
}

// Whether a parameter travels on a side.
fn travels(side: Side, way: Way) -> bool
    ensures { result ≡ travels side way }
{
    match side {
        Side::In => way != Way::Out,
        Side::Out => way != Way::In,
    }
}

// The pipe that a type is or refers to.
fn pipe_of(types: &Types, of: TypeId) -> Option<TypeId>
    ensures { option_map (λ t. t.0) result ≡ pipe_of types.now of.0 }
{
    match types.get(of.0 as usize) {
        Some(TypeDef::Pipe { .. }) => Some(of),
        Some(
            TypeDef::Pointer {
                class: Class::Ref,
                to,
            },
        ) => match types.get(to.0 as usize) {
            Some(TypeDef::Pipe { .. }) => Some(*to),
            _ => None,
        },
        _ => None,
    }
}
