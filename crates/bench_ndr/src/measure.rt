// Octets are decoded so many times, and what they represent is encoded as often.
ghost use Rattle.std.specs.Prelude.{◌≡◌, ◌<◌, length, IfOk};

use nd_base::{Octets, Order, PlainSource, Source, Steps, Uncounted};
use nd_flat::Fit;
use nd_types::Side;
use nd_value::ItemLog;
use ndr_code::Plan;
use ndr_decode::decode;
use ndr_encode::{Work, encode_with};
use std::io;
use std::time::{Duration, Instant};

// The least times of several rounds.
#[derive(Drop)]
struct Least {
    copy: Duration,
    decode: Duration,
    prepare: Duration,
    encode: Duration,
}

/// Says how long the fastest of so many rounds takes for each: decoding, the preparing of a work, encoding by it, and a copy of the octets.
pub(crate) fn measured(
    rt: &HostRuntime,
    plan: &Plan,
    op: u32,
    rounds: u32,
    octets: Octets,
) -> io::Result<()>
    requires known { op < length plan.now.tie.operations }
{
    let mut least = Least {
        copy: Duration::MAX,
        decode: Duration::MAX,
        prepare: Duration::MAX,
        encode: Duration::MAX,
    };
    let octets = decode_often(rt, plan, op, rounds, octets, &mut least)?;
    let mut source = PlainSource::new(octets);
    let fit = decoded(rt, plan, op, &mut source)?;
    let octets = source.into_octets();
    encode_often(rt, plan, &fit, rounds, octets.as_slice(), &mut least)?;
    println!(rt;
        "{} octets, copy {} ns, decode {} ns, prepare {} ns, encode {} ns",
        octets.as_slice().len(),
        least.copy.as_nanos(),
        least.decode.as_nanos(),
        least.prepare.as_nanos(),
        least.encode.as_nanos()
    )
}

// Decodes the same octets so many times, and gives them back.
fn decode_often(
    rt: &HostRuntime,
    plan: &Plan,
    op: u32,
    rounds: u32,
    octets: Octets,
    least: &mut Least,
) -> io::Result<Octets>
    requires known { op < length plan.now.tie.operations }
{
    let mut octets = octets;
    for _ in 0..rounds {
        let mut source = PlainSource::new(octets);
        let start = Instant::now(rt)?;
        let _fit = decoded(rt, plan, op, &mut source)?;
        least.decode = least.decode.min(start.elapsed(rt)?);
        octets = source.into_octets();
    }
    Ok(octets)
}

// Prepares a work for a graph so many times, and encodes by it.
fn encode_often(
    rt: &HostRuntime,
    plan: &Plan,
    fit: &Fit,
    rounds: u32,
    octets: &[u8],
    least: &mut Least,
) -> io::Result<()>
    requires tied { plan.now.tie ≡ fit.now.interface }
{
    for _ in 0..rounds {
        encode_once(rt, plan, fit, octets, least)?;
    }
    Ok(())
}

// The same once; then it copies octets to where they were encoded, if there is room for them.
fn encode_once(
    rt: &HostRuntime,
    plan: &Plan,
    fit: &Fit,
    octets: &[u8],
    least: &mut Least,
) -> io::Result<()>
    requires tied { plan.now.tie ≡ fit.now.interface }
{
    let start = Instant::now(rt)?;
    let Ok(mut work) = Work::for_graph(rt.alloc(), plan, fit, 1) else {
        return Err(io::Error::from(io::ErrorKind::InvalidData));
    };
    least.prepare = least.prepare.min(start.elapsed(rt)?);
    let mut out = vec![in rt.alloc(); 0u8; work.length() as usize]?;
    let start = Instant::now(rt)?;
    encode_with(&mut work, plan, fit, Order::Little, out.as_mut_slice());
    least.encode = least.encode.min(start.elapsed(rt)?);
    let start = Instant::now(rt)?;
    copy(octets, out.as_mut_slice());
    least.copy = least.copy.min(start.elapsed(rt)?);
    Ok(())
}

// Copies octets to where as many are.
fn copy(octets: &[u8], to: &mut [u8]) {
    if octets.len() == to.len() {
        to.copy_from_slice(octets);
    }
}

/// The graph that the octets of a source represent, in little order.
pub(crate) fn decoded<S: Source>(
    rt: &HostRuntime,
    plan: &Plan,
    op: u32,
    source: &mut S,
) -> io::Result<Fit>
    requires known { op < length plan.now.tie.operations }
    ensures tied { IfOk result (λ f. f.interface ≡ plan.now.tie) }
{
    let mut log = ItemLog::quiet();
    let mut steps = Steps::new(Uncounted::new());
    match decode(
        rt.alloc(),
        plan,
        op,
        Side::In,
        Order::Little,
        None,
        source,
        &mut log,
        &mut steps,
    ) {
        Ok(decoded) => Ok(decoded.fit),
        Err(_) => Err(io::Error::from(io::ErrorKind::InvalidData)),
    }
}
