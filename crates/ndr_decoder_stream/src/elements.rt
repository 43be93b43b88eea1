// The beginnings of a pipe, and of the elements of a chunk.
ghost use Rattle.std.specs.Prelude.{◌≡◌, ◌<◌, ◌-◌, ◌∷◌, [], Some, None, length, OnOk, IfErr};
ghost use Rattle.nd_flat.specs.Building.{CanClose, IsPipe, closed, opened, raised, with_nodes, with_root};
ghost use Rattle.nd_value.specs.Tree as tree;
ghost use Rattle.nd_value.specs.declared.item.Home.TheVariants as home;
ghost use Rattle.ndr_decoder_state.specs.Seen.{state_of};
ghost use Rattle.ndr_decoder_state.specs.declared.fault.DecodeFault.TheVariants as fault;
ghost use Rattle.ndr_decoder_stream.specs.Opening.{BeginsElements};

use nd_flat::Seen;
use nd_value::Home;
use ndr_decoder_laws::{First, Frame};
use ndr_decoder_state::{DecodeFault, Machine, Phase};

/// Opens the next root, a pipe, which has no elements yet. It takes memory, and out of memory is the only refusal.
pub fn open_pipe(machine: &mut Machine, number: u32, elem: u32) -> Result<(), DecodeFault>
    requires whole { CanClose machine.old.builder }
    requires here { number ≡ length machine.old.builder.graph.roots }
    ensures builder { OnOk result
        (machine.new.builder
        ≡ with_nodes ((tree.Pipe, 0) ∷ []) (opened (home.Root number) (with_root (closed machine.old.builder)) machine.old.builder)) }
    ensures home { OnOk result (machine.new.home ≡ home.Root number) }
    ensures at { OnOk result (machine.new.at ≡ machine.old.at) }
    ensures max_at { OnOk result (machine.new.max_at ≡ None) }
    ensures referents { OnOk result (machine.new.referents ≡ machine.old.referents) }
    ensures memory { IfErr result (λ e. e ≡ fault.Memory) }
{
    machine.builder.root()?;
    machine.count = 0;
    machine.start(Home::Root(number), elem);
    machine.builder.add(&Seen::Pipe(0))?;
    machine.count = 1;
    Ok(())
}

/// So many elements of the pipe come next, each by the run at an address. Address 1 is a `ret`. It takes memory, and out of memory is the only
/// refusal.
pub fn begin_elements(machine: &mut Machine, count: u32, elem: u32) -> Result<(), DecodeFault>
    requires some { 0 < count }
    requires pipe { IsPipe count machine.old.builder.nodes }
    ensures begins { OnOk result
        (BeginsElements elem (count - 1) (raised count machine.old.builder.nodes) (state_of machine.old) (state_of machine.new)) }
    ensures builder { OnOk result (machine.new.builder ≡ with_nodes (raised count machine.old.builder.nodes) machine.old.builder) }
    ensures home { OnOk result (machine.new.home ≡ machine.old.home) }
    ensures memory { IfErr result (λ e. e ≡ fault.Memory) }
{
    machine.stack.clear();
    let Ok(()) = machine.stack.push(Frame::Home) else {
        return Err(DecodeFault::Memory);
    };
    machine.top = Frame::Elements {
        left: count - 1,
        run: elem,
        back: 1,
    };
    machine.pc = elem as usize;
    machine.phase = Phase::Begun;
    machine.max = 0;
    machine.own = Some(First::Other);
    machine.members.clear();
    machine.firsts.clear();
    machine.fresh.clear();
    machine.builder.chunk(count);
    Ok(())
}
