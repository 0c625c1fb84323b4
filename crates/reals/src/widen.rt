// 32 bits as 64: every value of binary32 is one of binary64.
#![tactic(auto, using(crate::proofs::widen::Laws::laws))]

ghost use Rattle.std.specs.Prelude.{◌≡◌};
ghost use Rattle.memory_definition.specs.Numbers.{widened};

pub fn widen(bits: u32) -> u64
    ensures { result ≡ widened bits }
{
    if (bits & 0x7fff_ffff) > 0x7f80_0000 {
        return 0x7ff8_0000_0000_0000;
    }
    f64::to_bits(f32::from_bits(bits) as f64)
}
