// Powers of 256.
ghost use Rattle.std.specs.Prelude.{◌≡◌, ◌^◌, min};

// 256 to the power n; an n above 7 counts as 7.
pub fn power(n: usize) -> u64
    ensures { result ≡ 256 ^ min n 7 }
{
    1 << (8 * n.min(7))
}
