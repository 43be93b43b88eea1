// Octets that are at hand.
ghost use Rattle.std.specs.Prelude.{◌≡◌, true, false, length};
ghost use Rattle.std.specs.Io.KnownBytes.{Consumes};
ghost use Rattle.nd_types.specs.Number.{AreOctets};
ghost use Rattle.ndr_decoder_fast.specs.Strings.{HasCome};

use nd_base::Source;

/// Fills a buffer, if the source has so many octets at hand, and says whether it has. Else nothing is taken. Takes no memory.
#[inline(always)]
pub fn at_hand<S: Source>(source: &mut S, octets: &mut [u8]) -> bool
    ensures came { result ≡ true → HasCome (S.Source.seen source.old).left (S.Source.seen source.new).left octets.new }
    ensures nothing { result ≡ false → (S.Source.seen source.new).left ≡ (S.Source.seen source.old).left }
    ensures wide { length octets.new ≡ length octets.old }
    ensures faults { (S.Source.seen source.new).faults ≡ (S.Source.seen source.old).faults }
{
    let came = fill(source, octets);
    are_octets(octets);
    came
}

// The same, where the octets may be any numbers. Few octets are copied without a call where their number is written out.
#[inline(always)]
fn fill<S: Source>(source: &mut S, octets: &mut [u8]) -> bool
    ensures came { result ≡ true → Consumes (S.Source.seen source.old).left (S.Source.seen source.new).left octets.new }
    ensures nothing { result ≡ false → (S.Source.seen source.new).left ≡ (S.Source.seen source.old).left }
    ensures wide { length octets.new ≡ length octets.old }
    ensures faults { (S.Source.seen source.new).faults ≡ (S.Source.seen source.old).faults }
{
    match octets.len() {
        4 => source.fill(&mut octets[..4]),
        8 => source.fill(&mut octets[..8]),
        12 => source.fill(&mut octets[..12]),
        _ => source.fill(octets),
    }
}

/// Octets are numbers below 256. Takes no memory.
#[inline(always)]
pub fn are_octets(octets: &[u8])
    ensures { AreOctets octets.now }
{}
