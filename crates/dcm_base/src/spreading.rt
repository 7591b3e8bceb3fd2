// Numbers spread over places, by which an index is asked.
ghost use Rattle.std.specs.Prelude.{◌≡◌, ◌<◌, ◌≤◌, ◌^◌};
ghost use Rattle.dcm_base.specs.Tables.Spread as spec;

/// 2^32 divided by the golden ratio: so many times as much, modulo 2^32, what is close to each other lies apart.
const SPREAD: u64 = 0x9E37_79B9;

/// How many numbers of 32 bits there are.
const ALL_NUMBERS: u64 = 0x1_0000_0000;

/// The place of a number among two to the power of so many bits. Numbers that are close to each other, as those of the
/// tags of most elements are, have places that lie apart. Others share a place, and are told apart where it leads.
#[tactic(auto, using(crate::proofs::Spreads::spread_within))]
#[inline(always)]
pub fn spread(number: u32, bits: u32) -> usize
    requires { bits ≤ 32 }
    ensures value { result ≡ spec.spread number bits }
    ensures within { result < 2 ^ bits }
{
    ((u64::from(number) * SPREAD % ALL_NUMBERS) >> (32 - bits)) as usize
}
